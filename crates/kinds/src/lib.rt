//! What the records of dossiers and models hold, a type for each kind.
#![tactic(auto)]

pub mod agreed;
pub mod facts;
pub mod formulas;
pub mod kind;
pub mod rows;
