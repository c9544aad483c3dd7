// What a host is answered: reports as bytes, and words of an answer.
#![tactic(auto)]

pub mod answer;
pub mod rows;
