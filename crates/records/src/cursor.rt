// Reads records one by one.
ghost use Rattle.std.specs.Prelude.{◌≡◌, ◌+◌, ◌*◌, ◌≤◌, length};
ghost use Rattle.records.specs.Chains.{Taken, Shorter};

use crate::bytes::word_at;
use crate::record::RawRecord;

pub mod methods;

// The record at the front of `bytes` and the bytes after it; none where its length is cut off, under 2 or past the end.
pub fn split_record<'a>(bytes: &'a [u8]) -> Option<(RawRecord<'a>, &'a [u8])>
    ensures front { Taken bytes.now result }
    ensures shorter { Shorter bytes.now result }
{
    if bytes.len() < 2 {
        return None;
    }
    let length = word_at(bytes, 0) as usize;
    if length < 2 {
        return None;
    }
    if bytes.len() < 2 + length {
        return None;
    }
    let record = RawRecord {
        kind: word_at(bytes, 2),
        body: &bytes[4..2 + length],
    };
    Some((record, &bytes[2 + length..]))
}

// The bytes of a file that are still to be read, and how many records were read.
#[derive(Drop)]
pub struct Cursor<'a> {
    rest: &'a [u8],
    number: u16,
    // a record has at least four bytes
    ghost small: { number * 4 + length rest.now ≤ 32768 },
}
