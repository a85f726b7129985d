// A fact as it lies in lent slices.
ghost use Rattle.std.specs.Prelude.{◌≡◌, Decides};
ghost use Rattle.logic.specs.Stored.{stored, view_of, no_fact};

use crate::terms::{FactView, Link, Modality};
use records::numbers::{FormulaNumber, Label, Principal};
use stack::blank::Blank;

// What a fact is; `Blank` of a place with none.
#[derive(Clone, Copy, PartialEq, Eq, Debug)]
pub enum FactSort {
    Blank,
    Left,
    Right,
    Order,
    Arrow(Modality),
}

// Numbers that a sort does not use are 0. No enum with numbers of its own in each case: lent places go back wiped to zeros, and the fact of zeros is the blank one.
#[derive(Clone, Copy, PartialEq, Eq, Debug)]
pub struct Fact {
    pub sort: FactSort,
    pub principal: Principal,
    pub x: Label,
    pub y: Label,
    pub formula: FormulaNumber,
}

// The fact that says this.
impl From<FactView<FormulaNumber>> for Fact {
    ghost from_gives = { λ view fact. fact ≡ stored view };

    fn from(view: FactView<FormulaNumber>) -> Fact {
        let blank = Fact::blank();
        match view {
            FactView::Left(x, formula) => Fact {
                sort: FactSort::Left,
                x,
                formula,
                ..blank
            },
            FactView::Right(x, formula) => Fact {
                sort: FactSort::Right,
                x,
                formula,
                ..blank
            },
            FactView::Linked(Link::Order(x, y)) => Fact {
                sort: FactSort::Order,
                x,
                y,
                ..blank
            },
            FactView::Linked(Link::Arrow(k, principal, x, y)) => Fact {
                sort: FactSort::Arrow(k),
                principal,
                x,
                y,
                ..blank
            },
        }
    }
}

impl Fact {
    // What the fact says, if it is one.
    pub fn view(self) -> Option<FactView<FormulaNumber>>
        ensures { result ≡ view_of self }
    {
        match self.sort {
            FactSort::Blank => None,
            FactSort::Left => Some(FactView::Left(self.x, self.formula)),
            FactSort::Right => Some(FactView::Right(self.x, self.formula)),
            FactSort::Order => Some(FactView::Linked(Link::Order(self.x, self.y))),
            FactSort::Arrow(k) => Some(FactView::Linked(Link::Arrow(
                k,
                self.principal,
                self.x,
                self.y,
            ))),
        }
    }

    // Whether this is what an unused place holds.
    pub fn is_blank(self) -> bool
        ensures { Decides result (self ≡ no_fact) }
    {
        self == Fact::blank()
    }
}

// What an unused place for a fact holds.
impl Blank for Fact {
    ghost empty = { no_fact };

    fn blank() -> Fact {
        Fact {
            sort: FactSort::Blank,
            principal: Principal(0),
            x: Label(0),
            y: Label(0),
            formula: FormulaNumber(0),
        }
    }
}
