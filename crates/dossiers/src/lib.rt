//! Dossiers: files that enter formulas and one sequent.
#![tactic(auto)]

mod draft;
mod entry;
pub mod read;
