// The blocks of 64-bit words that a caller lends for a bank: the settings, and where an alarm's words stand in each block.
#![tactic(auto)]

pub mod block;
pub mod half;
pub mod place;
pub mod put;
pub mod read;
pub mod sizes;
