// One scan of one condition and of an alarm's modes, in words of bits, for every kind of alarm.
#![tactic(auto)]

pub mod bits;
pub mod command;
pub mod mark;
pub mod mode;
pub mod outcome;
pub mod row;
