//! Sequents as a ledger keeps them: a label count, and at most 16 facts by position.
#![tactic(auto)]

pub mod list;
pub mod sequent;
