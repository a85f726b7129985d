//! What piles answer on worked examples, and a layer to lay over another of the same kind.
#![tactic(auto)]

#[cfg(test)]
mod judging;
pub mod quiet;
#[cfg(test)]
mod reading;
