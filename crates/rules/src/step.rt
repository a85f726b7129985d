// The steps of a derivation.
use crate::contents::{Closing, LeftArrow, LeftOrder, OrderArrowOrder, RightArrow, TwoOrders};
use records::numbers::{FactPosition, Label, Principal};

// The positions that a pack's step names; apart from what they name (`Named`), since a position is no fact.
#[derive(Clone, Copy, PartialEq, Eq, Debug)]
pub enum Positions {
    Zero,
    One(FactPosition),
    Two(FactPosition, FactPosition),
}

// A step of a pack: its kind, positions, and a label and a principal where its kind has them.
#[derive(Clone, Copy, PartialEq, Eq, Debug)]
pub struct PackStep {
    pub kind: u16,
    pub positions: Positions,
    pub label: Option<Label>,
    pub principal: Option<Principal>,
}

#[derive(Clone, Copy, PartialEq, Eq, Debug)]
pub enum Step {
    AtomsClose(Closing),
    FalsityCloses(FactPosition),
    AndLeft(FactPosition),
    AndRight(FactPosition),
    OrLeft(FactPosition),
    OrRight(FactPosition),
    ImpliesLeft(LeftOrder),
    ImpliesRight(FactPosition),
    ModalLeft(LeftArrow),
    ModalRight(FactPosition),
    PermittedLeft(FactPosition),
    PermittedRight(RightArrow),
    Reflexive(Label),
    Transitive(TwoOrders),
    Monotone(OrderArrowOrder),
    OfPack(PackStep),
}
