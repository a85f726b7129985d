// A sequent: its label count, and its facts by position.
use crate::list::FactList;
use records::numbers::LabelCount;

#[derive(Clone, Copy)]
pub struct Sequent {
    pub labels: LabelCount,
    pub facts: FactList,
}
