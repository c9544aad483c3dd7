// Many scans of a bank in one call.
#![tactic(auto)]

pub mod replay;
