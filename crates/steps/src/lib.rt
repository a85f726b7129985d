//! The walk over a derivation's records, on two lent stacks, and what a taken derivation shows.
#![tactic(auto)]

pub mod examine;
mod memory;
mod moves;
pub mod theorems;
pub mod waiting;
mod walk;
