// Reads the settings of a bank from bank.set, runs the scan records of standard input on it, and prints events and refusals,
// and at the end how each condition stands.
#![tactic(auto)]

mod bank_file;
mod drive;
mod show;

use crate::bank_file::read_image;
use crate::drive::drive;
use std::io;
use text::failure::{Failure, tell};

fn run(rt: &HostRuntime) -> Result<(), Failure> {
    let Some(image) = read_image(rt, "bank.set") else {
        return Ok(());
    };
    drive(rt.alloc(), &image, rt.stdin(), io::writer(rt))
}

fn main(rt: HostRuntime) {
    let outcome = run(&rt);
    tell(&rt, outcome);
}
