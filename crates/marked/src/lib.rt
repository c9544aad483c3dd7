// Document 01's marked cases, by evaluation of the definitions that a reader believes; no code.
#![tactic(auto)]
