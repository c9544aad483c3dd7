// What the programs read and write: an input in pieces, lines or records, with the text that answers them.
#![tactic(auto)]

pub mod console;
pub mod failure;
pub mod pieces;
pub mod row;
