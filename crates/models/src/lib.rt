//! Countermodels: where formulas hold, and whether a model is one that a pile admits and in which a sequent fails.
#![tactic(auto)]

pub mod examine;
mod falsify;
pub mod judge;
pub mod truths;
