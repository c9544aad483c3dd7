// Event records: what an alarm's event bits say, in 16 bytes each.
#![tactic(auto)]

pub mod kind;
pub mod slot;
pub mod source;
pub mod write;
