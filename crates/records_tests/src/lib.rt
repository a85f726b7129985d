//! Files of bytes against what the rules of records say of them, worked out by hand.
#![tactic(auto)]

#[cfg(test)]
mod tests;
