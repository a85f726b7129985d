//! What the published layers say: their axioms, their pile in words, and packs that are not lawful.
#![tactic(auto)]

pub mod axiom;
pub mod pile;
pub mod unlawful;
