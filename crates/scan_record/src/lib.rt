// A scan record: the time, then for each alarm its reading and its command word.
#![tactic(auto)]

pub mod check;
pub mod entry;
pub mod part;
