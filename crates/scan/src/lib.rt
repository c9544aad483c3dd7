// One scan of a bank, in the words that a caller lends.
#![tactic(auto)]

pub mod scan;
