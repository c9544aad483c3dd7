// Runs a list of calls of the library, one a line of standard input, and writes one reply a line.
#![tactic(auto)]

mod lent;
mod reply;
mod run;

use crate::run::Session;
use std::alloc::Global;
use std::io;
use std::io::{Read, Write};
use text::console::Console;
use text::failure::{Failure, tell};
use text::pieces::Pieces;

fn answer_lines<R: Read + Drop, W: Write + Drop>(
    alloc: Global,
    input: R,
    output: W,
) -> Result<(), Failure> {
    let mut session = Session::new(alloc)?;
    let mut console = Console::new(alloc, input, output)?;
    let outcome = console.answer_pieces(alloc, Pieces::Lines, |line, output| {
        session.answer_line(line, output)
    });
    console.end(outcome)
}

fn main(rt: HostRuntime) {
    let outcome = answer_lines(rt.alloc(), rt.stdin(), io::writer(&rt));
    tell(&rt, outcome);
}
