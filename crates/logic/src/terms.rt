// What rules, packs and derivations speak of. `F` is what a formula is given by: its number in the table, its tree,
// or `()` where it is not to be looked at.
ghost use Rattle.std.specs.Prelude.{◌≡◌};
ghost use Rattle.logic.specs.Modalities.{modality_number, Names};

use records::numbers::{AtomNumber, Label, Principal};

#[derive(Clone, Copy, PartialEq, Eq, Debug)]
pub enum Modality {
    Says,
    Controls,
    Ratified,
    Permitted,
}

// A number that names no modality.
#[derive(Clone, Copy, PartialEq, Eq, Debug)]
pub struct UnknownModality(pub u16);

// The number by which records name a modality, 6 to 9.
impl From<Modality> for u16 {
    ghost from_gives = { λ k n. n ≡ modality_number k };

    fn from(modality: Modality) -> u16 {
        match modality {
            Modality::Says => 6,
            Modality::Controls => 7,
            Modality::Ratified => 8,
            Modality::Permitted => 9,
        }
    }
}

// The modality that a number names, if any.
impl TryFrom<u16> for Modality {
    type Error = UnknownModality;

    ghost try_from_gives = { Names };

    fn try_from(number: u16) -> Result<Modality, UnknownModality> {
        match number {
            6 => Ok(Modality::Says),
            7 => Ok(Modality::Controls),
            8 => Ok(Modality::Ratified),
            9 => Ok(Modality::Permitted),
            _ => Err(UnknownModality(number)),
        }
    }
}

// An order x ≤ y, or an arrow of a modality and a principal from x to y.
#[derive(Clone, Copy, PartialEq, Eq, Debug)]
pub enum Link {
    Order(Label, Label),
    Arrow(Modality, Principal, Label, Label),
}

// What a fact says: formula f at label x on the left or on the right, or a link.
#[derive(Clone, Copy, PartialEq, Eq, Debug)]
pub enum FactView<F> {
    Left(Label, F),
    Right(Label, F),
    Linked(Link),
}

// A formula by its outermost sign and its parts.
#[derive(Clone, Copy, PartialEq, Eq, Debug)]
pub enum Node<F> {
    Atom(AtomNumber),
    Falsity,
    And(F, F),
    Or(F, F),
    Implies(F, F),
    Modal(Modality, Principal, F),
}
