// What a pack is asked, and what it answers.
use logic::terms::{FactView, Link};
use records::numbers::{Label, Principal};

// `Named` and `Arity` (and the positions of a step, in `rules`) each are none, one or two: kept apart, since one generic enum would call
// facts and places by the same names, and an arity would hold two units.

// The facts that a step names; their formulas are hidden.
#[derive(Clone, Copy, PartialEq, Eq, Debug)]
pub enum Named {
    Nothing,
    Single(FactView<()>),
    Pair(FactView<()>, FactView<()>),
}

// What a step brings: the facts at its positions, and a label and a principal where its kind has them.
#[derive(Clone, Copy, PartialEq, Eq, Debug)]
pub struct Operands {
    pub named: Named,
    pub label: Option<Label>,
    pub principal: Option<Principal>,
}

// How many positions a body has.
#[derive(Clone, Copy, PartialEq, Eq, Debug)]
pub enum Arity {
    Zero,
    One,
    Two,
}

// The body of a step kind: its positions, then a label or not, then a principal or not.
#[derive(Clone, Copy, PartialEq, Eq, Debug)]
pub struct Layout {
    pub positions: Arity,
    pub label: bool,
    pub principal: bool,
}

// What one premise adds. The label count, used as a label, opens that label.
#[derive(Clone, Copy, PartialEq, Eq, Debug)]
pub enum Premise {
    Adds(Link),
    AddsBoth(Link, Link),
}

// Not a `Result`: the ghost member `readings` of a pack answers it as one type.
// What a step reads as: a kind that the pack does not have, no instance of its rule, one premise, or two.
#[derive(Clone, Copy, PartialEq, Eq, Debug)]
pub enum Reading {
    Unknown,
    NoInstance,
    Goes(Premise),
    Splits(Premise, Premise),
}
