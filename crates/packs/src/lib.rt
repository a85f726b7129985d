//! The four published layers, and their pile.
#![tactic(auto)]

pub mod c2p;
pub mod del_c;
pub mod i_ss;
pub mod published;
pub mod rs;
