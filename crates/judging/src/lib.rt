//! What is judged of a model by sets of worlds: the rules that every model keeps, and truth.
#![tactic(auto)]

pub mod rules;
pub mod truth;
