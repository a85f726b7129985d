//! How a record reads: the fields of each kind.
#![tactic(auto)]

pub mod fields;
pub mod reading;
mod text;
