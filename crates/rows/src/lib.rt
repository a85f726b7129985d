//! The rows of a finite model as sets of worlds, and where labels stand.
#![tactic(auto)]

pub mod masks;
pub mod places;
pub mod rows;
pub mod slots;
