//! What a pack of conditions and step kinds is, and how packs are piled up.
#![tactic(auto)]

pub mod bare;
pub mod each;
pub mod laid;
pub mod layer;
pub mod pack;
pub mod terms;
