// One scan of an analog alarm, on the words that it keeps.
#![tactic(auto)]

pub mod finish;
pub mod inputs;
pub mod sides;
pub mod starts;
pub mod step;
