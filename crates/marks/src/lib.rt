// What a bank keeps for the report alone: counts and stamps, 25 words an alarm.
#![tactic(auto)]

pub mod mark;
pub mod words;
