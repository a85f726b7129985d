// The listing of a file: its rows, what they were counted as, and how the file ended.
ghost use Rattle.std.specs.Prelude.{IfOk};
ghost use Rattle.records.specs.Files.{bytes_of};
ghost use Rattle.listings.specs.Listings.{Listed, ListedBytes};

use crate::row::Row;
use crate::tally::Tally;
use crate::text::Refused;
use chains::chain::read_chain;
use readings::reading::counted_as;
use records::file::File;
use records::numbers::RecordNumber;
use records::record::Numbered;
use records::refusal::Refusal;
use std::alloc::{AllocError, Global};
use std::fmt;

#[derive(Drop)]
pub struct Listing<'a> {
    pub rows: Vec<Row<'a>>,
    pub tally: Tally,
    // how many bytes the file has, and how many of them the records take
    pub bytes: usize,
    pub taken: usize,
    // none at the end of a whole chain
    pub ending: Option<Refusal>,
}

// The listing of some bytes as a file; refused where they are too many for one.
// A result in a result: out of memory is the caller's error, and a refusal is an answer, printed as a listing is.
pub fn list<'a>(heap: Global, bytes: &'a [u8]) -> Result<Result<Listing<'a>, Refusal>, AllocError>
    ensures { IfOk result (λ o. ListedBytes bytes.now o) }
{
    match File::try_from(bytes) {
        Ok(file) => Ok(Ok(list_file(heap, file)?)),
        Err(refusal) => Ok(Err(refusal)),
    }
}

// The listing of a file.
fn list_file<'a>(heap: Global, file: File<'a>) -> Result<Listing<'a>, AllocError>
    ensures { IfOk result (λ l. Listed (bytes_of file.entry) l) }
{
    let chain = read_chain(heap, file)?;
    let mut rows = Vec::new(heap);
    let mut tally = Tally::new();
    let mut taken = 0;
    for raw in &chain.records {
        let at = RecordNumber(tally.records());
        let row = Row::of(Numbered { at, raw: *raw }, taken);
        taken = row.end();
        tally.add(counted_as(row.reading));
        rows.push(row)?;
    }
    Ok(Listing {
        rows,
        tally,
        bytes: file.bytes().len(),
        taken,
        ending: chain.ending,
    })
}

// A line for each record, below a line that names the columns; how the file ended; and the tally.
impl fmt::Display for Listing<'_> {
    fn fmt<W: fmt::Write>(&self, f: &mut fmt::Formatter<W>) -> fmt::Result {
        writeln!(f, "  no  offset   kind  name              fields")?;
        for row in &self.rows {
            writeln!(f, "{row}")?;
        }
        let tally = self.tally;
        match self.ending {
            None => writeln!(f, "a whole chain of {} records", tally.records())?,
            Some(refusal) => writeln!(f, "{}, at byte {}", Refused(refusal), self.taken)?,
        }
        writeln!(f, "bytes {}  {tally}", self.bytes)
    }
}

// What `list` answers, as it is printed: the listing, or a line that says why there is none.
#[derive(Drop)]
pub struct Printed<'a>(pub Result<Listing<'a>, Refusal>);

impl fmt::Display for Printed<'_> {
    fn fmt<W: fmt::Write>(&self, f: &mut fmt::Formatter<W>) -> fmt::Result {
        match &self.0 {
            Ok(listing) => write!(f, "{listing}"),
            Err(refusal) => writeln!(f, "{}", Refused(*refusal)),
        }
    }
}
