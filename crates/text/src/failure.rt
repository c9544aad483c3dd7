// Why a program ends before its input does.
use std::alloc::AllocError;
use std::io;
use thiserror::Error;

#[derive(Debug, Drop, Error)]
pub enum Failure {
    #[error("standard input: {0}")]
    Input(io::Error),
    #[error("standard output: {0}")]
    Output(#[from] io::Error),
    #[error("{0}")]
    Memory(io::Error),
}

// An error that `?` takes from a writer is the output's; one of memory says so.
impl From<AllocError> for Failure {
    fn from(error: AllocError) -> Failure {
        Failure::Memory(io::Error::from(error))
    }
}

// Tells standard error why the program ended. Nothing is left to tell where that fails too. It has no clause, since std's `Eprint`
// promises nothing of what was printed.
pub fn tell(rt: &impl Eprint, outcome: Result<(), Failure>) {
    if let Err(failure) = outcome {
        let _ = eprintln!(rt; "{failure}");
    }
}
