//! The steps of a derivation: how a record is read as one, and what each does to a branch.
#![tactic(auto)]

pub mod agreed;
pub mod apply;
mod branch;
mod connectives;
pub mod contents;
pub mod decode;
pub mod kinds;
mod links;
mod looks;
mod modal;
pub mod outcome;
mod packs;
pub mod setting;
pub mod step;
pub mod theorems;
