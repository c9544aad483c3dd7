// Every alarm of a bank stepped with its part of a checked record, in the words that a caller lends.
#![tactic(auto)]

pub mod alarms;
pub mod part;
pub mod place;
