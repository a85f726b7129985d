//! Files as chains of records: the frame that every record has, the kinds of records, and the refusals.
#![tactic(auto)]

pub mod bytes;
pub mod cursor;
pub mod file;
pub mod kind;
pub mod numbers;
pub mod record;
pub mod refusal;
