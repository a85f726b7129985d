//! Listings of the records of a file.
#![tactic(auto)]

pub mod listing;
pub mod row;
pub mod tally;
mod text;
