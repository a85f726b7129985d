// A row of the listing: a record, where it stands, and how it reads.
ghost use Rattle.std.specs.Prelude.{◌≡◌, ◌+◌, ◌≤◌, length};
ghost use Rattle.records.specs.Chains.{record_of};
ghost use Rattle.listings.specs.Rows.{IsRow, span};

use crate::text::Bytes;
use kinds::kind::UnknownKind;
use readings::fields::Fields;
use readings::reading::Reading;
use records::record::Numbered;
use std::fmt;

#[derive(Clone, Copy)]
pub struct Row<'a> {
    pub record: Numbered<'a>,
    pub offset: usize,
    pub reading: Result<Reading, UnknownKind>,
}

impl<'a> Row<'a> {
    // The row of a record that begins at `offset`.
    pub fn of(record: Numbered<'a>, offset: usize) -> Row<'a>
        ensures { IsRow (record_of «record».entry.raw) «record».entry.at.0 offset result }
    {
        Row {
            record,
            offset,
            reading: Reading::of(record),
        }
    }

    // Where the next record begins.
    pub(crate) fn end(&self) -> usize
        requires { self.now.offset + 4 + length self.now.«record».raw.body.now ≤ 32768 }
        ensures { result ≡ self.now.offset + span (record_of self.now.«record».raw) }
    {
        self.offset + 4 + self.record.raw.body.len()
    }
}

// One line: the record's number, its offset, its kind in numbers and in words, and its fields.
impl fmt::Display for Row<'_> {
    fn fmt<W: fmt::Write>(&self, f: &mut fmt::Formatter<W>) -> fmt::Result {
        let Numbered { at, raw } = self.record;
        write!(f, "{:>4}  {:>6}  {:>5}  ", at.0, self.offset, raw.kind)?;
        let body = Bytes(raw.body);
        let Ok(Reading { kind, fields }) = self.reading else {
            return write!(f, "{:<16}  {body}", "unknown");
        };
        let words = kind.words();
        match fields {
            Ok(Fields::Nothing) => write!(f, "{words}"),
            Ok(fields) => write!(f, "{words:<16}  {fields}"),
            Err(refusal) => {
                let (number, second, size) = (refusal.number(), refusal.second(), kind.size());
                write!(f, "{words:<16}  wrong size (refusal {number} {second})")?;
                write!(f, ", takes {size}, has {body}")
            }
        }
    }
}
