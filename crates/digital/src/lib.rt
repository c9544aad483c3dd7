// One scan of a digital alarm, on the words that it keeps.
#![tactic(auto)]

pub mod step;
