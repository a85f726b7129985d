// The kinds of records that give a sequent: its labels and its facts.
ghost use Rattle.std.specs.Prelude.{◌≡◌, length};
ghost use Rattle.kinds.specs.Contents.{arrowed_of, label_count_of, labelled_of, ordered_of};

use records::bytes::word_at;
use records::kind::RecordKind;
use records::numbers::{FormulaNumber, Label, LabelCount, Principal};

// The number of a modality, 6 to 9 for says, controls, ratified and permitted.
#[derive(Clone, Copy, PartialEq, Eq, Debug)]
pub struct ModalityNumber(pub u16);

// A formula at a label.
#[derive(Clone, Copy, PartialEq, Eq, Debug)]
pub struct Labelled {
    pub label: Label,
    pub formula: FormulaNumber,
}

// One label below another.
#[derive(Clone, Copy, PartialEq, Eq, Debug)]
pub struct Ordered {
    pub lower: Label,
    pub upper: Label,
}

// An arrow between labels.
#[derive(Clone, Copy, PartialEq, Eq, Debug)]
pub struct Arrowed {
    pub modality: ModalityNumber,
    pub principal: Principal,
    pub from: Label,
    pub to: Label,
}

// The sequent has labels 0 to n - 1.
// (The kinds of one number, this, an atom's and the worlds', have a content type each, and one generic kind over the three would need a
// trait with an impl for each.)
pub struct Labels;

impl RecordKind for Labels {
    type Content = LabelCount;

    const KIND: u16 = 10;

    ghost KIND = { 10 };

    const SIZE: usize = 2;

    ghost SIZE = { 2 };

    ghost content = { label_count_of };

    fn read(body: &[u8]) -> LabelCount {
        LabelCount(word_at(body, 0))
    }
}

// The kind, by its number, of a formula at a label.
pub struct FormulaFact<const NUMBER: u16>;

impl<const NUMBER: u16> RecordKind for FormulaFact<NUMBER> {
    type Content = Labelled;

    const KIND: u16 = NUMBER;

    ghost KIND = { NUMBER };

    const SIZE: usize = 4;

    ghost SIZE = { 4 };

    ghost content = { labelled_of };

    fn read(body: &[u8]) -> Labelled {
        Labelled {
            label: Label(word_at(body, 0)),
            formula: FormulaNumber(word_at(body, 2)),
        }
    }
}

// A formula at a label, on the left.
pub type LeftFact = FormulaFact<11>;

// A formula at a label, on the right.
pub type RightFact = FormulaFact<12>;

// One label below another.
pub struct OrderFact;

impl RecordKind for OrderFact {
    type Content = Ordered;

    const KIND: u16 = 13;

    ghost KIND = { 13 };

    const SIZE: usize = 4;

    ghost SIZE = { 4 };

    ghost content = { ordered_of };

    fn read(body: &[u8]) -> Ordered {
        Ordered {
            lower: Label(word_at(body, 0)),
            upper: Label(word_at(body, 2)),
        }
    }
}

// An arrow between labels.
pub struct ArrowFact;

impl RecordKind for ArrowFact {
    type Content = Arrowed;

    const KIND: u16 = 14;

    ghost KIND = { 14 };

    const SIZE: usize = 8;

    ghost SIZE = { 8 };

    ghost content = { arrowed_of };

    fn read(body: &[u8]) -> Arrowed {
        Arrowed {
            modality: ModalityNumber(word_at(body, 0)),
            principal: Principal(word_at(body, 2)),
            from: Label(word_at(body, 4)),
            to: Label(word_at(body, 6)),
        }
    }
}
