//! Formulas, facts and models: what every promise is stated by.
#![tactic(auto)]

pub mod fact;
pub mod table;
pub mod terms;
#[cfg(test)]
mod tests;
pub mod theorems;
