//! One stack over lent places, for elements of any type that has a blank value. It knows nothing of what its items are.
#![tactic(auto)]

pub mod blank;
pub mod stack;
