// The six conditions of an analog alarm in one scan, in words of bits.
#![tactic(auto)]

pub mod decide;
