// All the records of a file.
ghost use Rattle.std.specs.Prelude.{IfOk};
ghost use Rattle.records.specs.Files.{bytes_of};
ghost use Rattle.chains.specs.Walks.{Walked};

use records::cursor::Cursor;
use records::file::File;
use records::record::RawRecord;
use records::refusal::Refusal;
use std::alloc::{AllocError, Global};

// The records of a file in order, up to its end or to the first frame that is broken.
#[derive(Drop)]
pub struct Chain<'a> {
    pub records: Vec<RawRecord<'a>>,
    pub ending: Option<Refusal>,
}

// The chain of a file. A loop, since a refusal ends it and is kept, where `?` would lose the records before it.
pub fn read_chain<'a>(heap: Global, file: File<'a>) -> Result<Chain<'a>, AllocError>
    ensures { IfOk result (λ c. Walked (bytes_of file.entry) c) }
{
    let mut cursor = Cursor::new(file);
    let mut records = Vec::new(heap);
    let ending = loop {
        match cursor.next() {
            Ok(Some(record)) => records.push(record.raw)?,
            Ok(None) => break None,
            Err(refusal) => break Some(refusal),
        }
    };
    Ok(Chain { records, ending })
}
