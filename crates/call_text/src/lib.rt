// A line of text as a call, and what is wrong with a line that is none.
#![tactic(auto)]

pub mod call;
pub mod fault;
pub mod words;
