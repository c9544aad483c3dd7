// What an alarm of either kind keeps between scans, and the words that it stands in.
#![tactic(auto)]

pub mod begin;
pub mod offsets;
