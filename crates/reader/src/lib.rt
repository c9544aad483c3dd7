// The reader of a settings image: counts, sections, the whole.
#![tactic(auto)]

pub mod count;
pub mod read;
pub mod section;
