// What can be wrong with a line, in the words of the reply.
use std::alloc::AllocError;
use text::pieces::LONGEST_LINE;
use thiserror::Error;

// The longest buffer that a line may name, in bytes.
pub const MOST_ROOM: usize = 65_536;

#[derive(Debug, Drop, Error)]
pub enum BadLine {
    #[error("bad line: over {most} characters", most = LONGEST_LINE)]
    TooLong,
    // The place of the word, counted from 1.
    #[error("bad word {place}: {fault}")]
    Word { place: usize, fault: Fault },
    // There was no memory for what the line spells. It is no reply: the line may be good.
    #[error("{0}")]
    Memory(#[from(alloc)] AllocError),
}

#[derive(Clone, Copy, Debug, Error)]
pub enum Fault {
    #[error("no such call")]
    NoCall,
    #[error("missing")]
    Missing,
    #[error("one too many")]
    OneTooMany,
    #[error("no number of up to 64 bits")]
    NoNumber,
    #[error("over {most}", most = MOST_ROOM)]
    TooLarge,
    #[error("no role but -")]
    NoRole,
    #[error("no bytes in hexadecimal")]
    NoBytes,
}
