// The settings of a bank of alarms: their types, refusals, and the rules that their numbers obey.
#![tactic(auto)]

pub mod counts;
pub mod refusals;
pub mod rules;
pub mod severity;
pub mod types;
