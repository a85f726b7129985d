//! The blocks of the program's input.
#![tactic(auto)]

pub mod block;
