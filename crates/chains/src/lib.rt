//! All the records of a file.
#![tactic(auto)]

pub mod chain;
