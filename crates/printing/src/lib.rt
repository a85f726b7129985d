//! Lines of answers, written into a print buffer.
#![tactic(auto)]

mod digits;
pub mod line;
mod sink;
#[cfg(test)]
mod tests;
