// The image of settings: the writer, and the round trip through the reader.
#![tactic(auto)]

pub mod write;
