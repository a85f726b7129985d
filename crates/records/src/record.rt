// A record as it lies in a file or in the program's input, and one with its number.
ghost use Rattle.std.specs.Prelude.{◌≡◌};
ghost use Rattle.records.specs.Kinds.{decoded};

use crate::kind::RecordKind;
use crate::numbers::RecordNumber;
use crate::refusal::Refusal;

// What a frame holds: a kind, by its number, and a body.
#[derive(Clone, Copy)]
pub struct RawRecord<'a> {
    pub kind: u16,
    pub body: &'a [u8],
}

// A record of a file, with its number there.
#[derive(Clone, Copy)]
pub struct Numbered<'a> {
    pub at: RecordNumber,
    pub raw: RawRecord<'a>,
}

impl Numbered<'_> {
    // What the body of the record, of kind `R`, holds; refused where its size is wrong for the kind.
    pub fn decode<R: RecordKind>(self) -> Result<R::Content, Refusal>
        ensures { result ≡ decoded R.SIZE R.content self.entry.raw.body.now self.entry.at }
    {
        let body = self.raw.body;
        if body.len() == R::SIZE {
            Ok(R::read(body))
        } else {
            Err(Refusal::Frame(self.at))
        }
    }
}
