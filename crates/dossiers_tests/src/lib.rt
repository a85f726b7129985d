//! Dossiers against what the rules say of them, worked out by hand.
#![tactic(auto)]

#[cfg(test)]
mod tests;
