// The rate sample of an analog alarm in one scan, on its words.
#![tactic(auto)]

pub mod sample;
