// An alarm's record in a settings image.
#![tactic(auto)]

pub mod fields;
pub mod record;
