//! What a stack does, on tiles.
#![tactic(auto)]

#[cfg(test)]
mod tests;
