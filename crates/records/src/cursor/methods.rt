ghost use Rattle.std.specs.Prelude.{◌≡◌, ◌+◌, ◌*◌, ◌≤◌, length};
ghost use Rattle.records.specs.Chains.{Next};
ghost use Rattle.records.specs.Files.{bytes_of};

use crate::cursor::{Cursor, split_record};
use crate::file::File;
use crate::numbers::RecordNumber;
use crate::record::Numbered;
use crate::refusal::Refusal;

impl<'a> Cursor<'a> {
    // A cursor before the first record of `file`.
    pub fn new(file: File<'a>) -> Cursor<'a>
        ensures rest { result.rest.now ≡ bytes_of file.entry }
        ensures number { result.number ≡ 0 }
    {
        Cursor {
            rest: file.bytes(),
            number: 0,
        }
    }

    // The number of the next record.
    pub fn number(&self) -> RecordNumber
        ensures { result.0 ≡ self.now.number }
    {
        RecordNumber(self.number)
    }

    // How many bytes are still to be read.
    pub fn left(&self) -> usize
        ensures { result ≡ length self.now.rest.now }
    {
        self.rest.len()
    }

    // The next record; none at the end; or the refusal of a frame that is broken there, with the cursor as it was.
    pub fn next(&mut self) -> Result<Option<Numbered<'a>>, Refusal>
        ensures { Next self.old.rest.now self.old.number result self.new.rest.now self.new.number }
    {
        if self.rest.is_empty() {
            return Ok(None);
        }
        let at = self.number();
        let (raw, rest) = split_record(self.rest).ok_or(Refusal::Frame(at))?;
        self.rest = rest;
        self.number += 1;
        Ok(Some(Numbered { at, raw }))
    }
}
