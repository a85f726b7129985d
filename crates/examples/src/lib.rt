//! Worked examples, from the bytes of a file to the answer.
#![tactic(auto)]

#[cfg(test)]
mod tests;
