// A bank in blocks of its own, with what both programs print of it: a refusal, and how an alarm's conditions are numbered.
#![tactic(auto)]

pub mod owned;
pub mod show;
