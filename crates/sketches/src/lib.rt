//! Model files: how many worlds there are, rows of them, and where labels stand.
#![tactic(auto)]

mod entry;
pub mod read;
mod sketch;
