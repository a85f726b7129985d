//! A list in a fixed array, for elements of any type that is copied. It knows nothing of what its items are.
#![tactic(auto)]

pub mod fixed;
#[cfg(test)]
mod tests;
