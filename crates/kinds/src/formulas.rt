// The kinds of records that enter a formula.
ghost use Rattle.std.specs.Prelude.{◌≡◌, length};
ghost use Rattle.kinds.specs.Contents.{atom_of, modal_of, nothing_of, parts_of};

use records::bytes::word_at;
use records::kind::RecordKind;
use records::numbers::{AtomNumber, FormulaNumber, Principal};

// The two parts of a formula.
#[derive(Clone, Copy, PartialEq, Eq, Debug)]
pub struct Parts {
    pub left: FormulaNumber,
    pub right: FormulaNumber,
}

// What a modality is about: whose it is, and the formula under it.
#[derive(Clone, Copy, PartialEq, Eq, Debug)]
pub struct Modal {
    pub principal: Principal,
    pub formula: FormulaNumber,
}

// An atom.
pub struct AtomFormula;

impl RecordKind for AtomFormula {
    type Content = AtomNumber;

    const KIND: u16 = 1;

    ghost KIND = { 1 };

    const SIZE: usize = 2;

    ghost SIZE = { 2 };

    ghost content = { atom_of };

    fn read(body: &[u8]) -> AtomNumber {
        AtomNumber(word_at(body, 0))
    }
}

// Falsity.
pub struct Falsity;

impl RecordKind for Falsity {
    type Content = ();

    const KIND: u16 = 2;

    ghost KIND = { 2 };

    const SIZE: usize = 0;

    ghost SIZE = { 0 };

    ghost content = { nothing_of };

    fn read(_body: &[u8]) -> () {
        ()
    }
}

// The kind, by its number, of a formula of two parts.
pub struct Connective<const NUMBER: u16>;

impl<const NUMBER: u16> RecordKind for Connective<NUMBER> {
    type Content = Parts;

    const KIND: u16 = NUMBER;

    ghost KIND = { NUMBER };

    const SIZE: usize = 4;

    ghost SIZE = { 4 };

    ghost content = { parts_of };

    fn read(body: &[u8]) -> Parts {
        Parts {
            left: FormulaNumber(word_at(body, 0)),
            right: FormulaNumber(word_at(body, 2)),
        }
    }
}

// f and g.
pub type And = Connective<3>;

// f or g.
pub type Or = Connective<4>;

// f implies g.
pub type Implies = Connective<5>;

// The kind, by its number, of a formula under a modality.
pub struct Under<const NUMBER: u16>;

impl<const NUMBER: u16> RecordKind for Under<NUMBER> {
    type Content = Modal;

    const KIND: u16 = NUMBER;

    ghost KIND = { NUMBER };

    const SIZE: usize = 4;

    ghost SIZE = { 4 };

    ghost content = { modal_of };

    fn read(body: &[u8]) -> Modal {
        Modal {
            principal: Principal(word_at(body, 0)),
            formula: FormulaNumber(word_at(body, 2)),
        }
    }
}

// A says f.
pub type Says = Under<6>;

// A controls f.
pub type Controls = Under<7>;

// A ratified f.
pub type Ratified = Under<8>;

// A is permitted f.
pub type Permitted = Under<9>;
