//! A layer from outside: one principal is believed. It is laid on the published pile.
#![tactic(auto)]

pub mod believed;
#[cfg(test)]
mod tests;
