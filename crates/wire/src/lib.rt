// Little-endian numbers, REALs and bits: what every layer above reads from a record and writes to a buffer.
#![tactic(auto)]

pub mod bits;
pub mod choice;
pub mod number;
pub mod places;
pub mod real;
