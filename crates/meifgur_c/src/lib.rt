// The calls that firmware in C or Rust links. A bank lives in words that the caller lends; nothing else is kept between calls.
#![tactic(auto)]

pub mod answers;
pub mod load_call;
pub mod replay_call;
pub mod report_call;
pub mod scan_call;
pub mod sizes;
pub mod write_call;
