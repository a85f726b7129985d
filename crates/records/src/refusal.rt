// Why a call is refused: a case for each cause, with the number that stands beside it.
ghost use Rattle.std.specs.Prelude.{◌≡◌};
ghost use Rattle.records.specs.Refusals.{number_of, second_of};

use crate::numbers::{AtomNumber, ConditionPlace, FactPosition, Label, RecordNumber};
use std::fmt;

#[derive(Clone, Copy, PartialEq, Eq, Debug)]
pub enum Refusal {
    // the number of principals is not 1 to 8
    PrincipalCount,
    // the file has more than 32,768 bytes
    FileTooLong,
    // a record's length is cut off, under 2, past the end, or wrong for its kind
    Frame(RecordNumber),
    // a record's kind is unknown or not in its place
    Kind(RecordNumber),
    // a number in a record's body is out of range
    OutOfRange(RecordNumber),
    // one sequent, formula or fact too many
    Full(RecordNumber),
    // no such sequent
    NoSequent,
    // the sequent is already out
    AlreadyOut,
    // the slip's sequent is not out, or none here
    NotOut,
    // a position past the trail, or facts not as the step needs them
    NotAsNeeded(RecordNumber),
    // the trail, the waiting branches or the labels are full
    NoRoom(RecordNumber),
    // bytes after the last branch closed
    AfterClosed(RecordNumber),
    // the file ends too early; beside it, how many records were read
    EndsEarly(RecordNumber),
    // the order or monotonicity is broken
    OrderBroken,
    // an atom's row is not closed upward
    AtomRowOpen(AtomNumber),
    // a condition of the pile fails
    ConditionFails(ConditionPlace),
    // a fact of the sequent does not falsify
    DoesNotFalsify(FactPosition),
    // a row or a place is given twice
    GivenTwice(RecordNumber),
    // a label has no place
    LabelUnplaced(Label),
    // a line does not fit the print buffer
    LineTooLong,
}

impl Refusal {
    // The number of the refusal. No `From` into a number: a refusal has two, and the other stands in `second`.
    pub fn number(self) -> u16
        ensures { result ≡ number_of self }
    {
        match self {
            Refusal::PrincipalCount => 1,
            Refusal::FileTooLong => 2,
            Refusal::Frame(_) => 3,
            Refusal::Kind(_) => 4,
            Refusal::OutOfRange(_) => 5,
            Refusal::Full(_) => 6,
            Refusal::NoSequent => 7,
            Refusal::AlreadyOut => 8,
            Refusal::NotOut => 9,
            Refusal::NotAsNeeded(_) => 10,
            Refusal::NoRoom(_) => 11,
            Refusal::AfterClosed(_) => 12,
            Refusal::EndsEarly(_) => 13,
            Refusal::OrderBroken => 14,
            Refusal::AtomRowOpen(_) => 15,
            Refusal::ConditionFails(_) => 16,
            Refusal::DoesNotFalsify(_) => 17,
            Refusal::GivenTwice(_) => 18,
            Refusal::LabelUnplaced(_) => 19,
            Refusal::LineTooLong => 20,
        }
    }

    // The number beside it, 0 where there is none.
    pub fn second(self) -> u16
        ensures { result ≡ second_of self }
    {
        match self {
            Refusal::Frame(at) => at.0,
            Refusal::Kind(at) => at.0,
            Refusal::OutOfRange(at) => at.0,
            Refusal::Full(at) => at.0,
            Refusal::NotAsNeeded(at) => at.0,
            Refusal::NoRoom(at) => at.0,
            Refusal::AfterClosed(at) => at.0,
            Refusal::EndsEarly(read) => read.0,
            Refusal::AtomRowOpen(atom) => atom.0,
            Refusal::ConditionFails(place) => place.0,
            Refusal::DoesNotFalsify(position) => position.0,
            Refusal::GivenTwice(at) => at.0,
            Refusal::LabelUnplaced(label) => label.0,
            _ => 0,
        }
    }

    // The cause in plain words.
    fn words(self) -> &'static str {
        match self {
            Refusal::PrincipalCount => "the number of principals is not 1 to 8",
            Refusal::FileTooLong => "the file has more than 32768 bytes",
            Refusal::Frame(_) =>
                "the length is cut off, under 2, past the end or wrong for the kind",
            Refusal::Kind(_) => "the kind is unknown or not in its place",
            Refusal::OutOfRange(_) => "a number is out of range",
            Refusal::Full(_) => "one sequent, formula or fact too many",
            Refusal::NoSequent => "there is no such sequent",
            Refusal::AlreadyOut => "the sequent is already out",
            Refusal::NotOut => "the slip's sequent is not out, or not in this ledger",
            Refusal::NotAsNeeded(_) =>
                "a position is past the trail, or the facts are not as needed",
            Refusal::NoRoom(_) => "the trail, the waiting branches or the labels are full",
            Refusal::AfterClosed(_) => "bytes follow after the last branch closed",
            Refusal::EndsEarly(_) => "the file ends too early",
            Refusal::OrderBroken => "the order or monotonicity is broken",
            Refusal::AtomRowOpen(_) => "a row is not closed upward",
            Refusal::ConditionFails(_) => "a condition of the pile fails",
            Refusal::DoesNotFalsify(_) => "a fact does not falsify",
            Refusal::GivenTwice(_) => "a row or place is given twice",
            Refusal::LabelUnplaced(_) => "a label has no place",
            Refusal::LineTooLong => "the line does not fit",
        }
    }

    // What the number beside it counts, in plain words; none where there is none.
    fn counted(self) -> Option<&'static str> {
        match self {
            Refusal::PrincipalCount
            | Refusal::FileTooLong
            | Refusal::NoSequent
            | Refusal::AlreadyOut
            | Refusal::NotOut
            | Refusal::OrderBroken
            | Refusal::LineTooLong => None,
            Refusal::EndsEarly(_) => Some("records read: "),
            Refusal::AtomRowOpen(_) => Some("atom "),
            Refusal::ConditionFails(_) => Some("place "),
            Refusal::DoesNotFalsify(_) => Some("position "),
            Refusal::LabelUnplaced(_) => Some("label "),
            _ => Some("record "),
        }
    }
}

// In plain words: the cause, and what stands beside it.
impl fmt::Display for Refusal {
    fn fmt<W: fmt::Write>(&self, f: &mut fmt::Formatter<W>) -> fmt::Result {
        let words = self.words();
        match self.counted() {
            Some(counted) => write!(f, "{words} ({counted}{})", self.second()),
            None => f.write_str(words),
        }
    }
}
