// Files of bytes against what the rules of records say of them, worked out by hand.
use blocks::block::{BlockCursor, BlockKind, NoBlock};
use chains::chain::read_chain;
use kinds::facts::{ArrowFact, OrderFact};
use kinds::formulas::{And, Falsity};
use kinds::rows::{Ends, Stands};
use records::file::File;
use records::kind::RecordKind;
use records::numbers::RecordNumber;
use records::record::{Numbered, RawRecord};
use records::refusal::Refusal;
use std::alloc::{AllocError, Global};
use std::test::Fail;

// A refusal's two numbers.
fn numbers(refusal: Refusal) -> (u16, u16) {
    (refusal.number(), refusal.second())
}

// How a file reads: how many records, and the two numbers of the refusal that ends it, none for a whole chain.
#[derive(Clone, Copy, PartialEq, Debug)]
struct Outcome {
    records: usize,
    refused: Option<(u16, u16)>,
}

// How the bytes read as a file.
fn read_file(heap: Global, bytes: &[u8]) -> Result<Outcome, AllocError> {
    let file = match File::try_from(bytes) {
        Ok(file) => file,
        Err(refusal) => {
            return Ok(Outcome {
                records: 0,
                refused: Some(numbers(refusal)),
            });
        }
    };
    let chain = read_chain(heap, file)?;
    Ok(Outcome {
        records: chain.records.len(),
        refused: chain.ending.map(numbers),
    })
}

fn whole(records: usize) -> Outcome {
    Outcome {
        records,
        refused: None,
    }
}

fn broken(at: u16) -> Outcome {
    Outcome {
        records: usize::from(at),
        refused: Some((3, at)),
    }
}

#[test]
fn short_files(rt: HostRuntime) -> Result<(), Fail> {
    let heap = rt.alloc();
    assert_eq!(rt; read_file(heap, &[])?, whole(0));
    assert_eq!(rt; read_file(heap, &[2])?, broken(0));
    assert_eq!(rt; read_file(heap, &[2, 0])?, broken(0));
    assert_eq!(rt; read_file(heap, &[2, 0, 7])?, broken(0));
    assert_eq!(rt; read_file(heap, &[2, 0, 7, 0])?, whole(1));
    Ok(())
}

#[test]
fn lengths(rt: HostRuntime) -> Result<(), Fail> {
    let heap = rt.alloc();
    assert_eq!(rt; read_file(heap, &[0, 0, 7, 0])?, broken(0));
    assert_eq!(rt; read_file(heap, &[1, 0, 7])?, broken(0));
    assert_eq!(rt; read_file(heap, &[2, 0, 7, 0, 2, 0, 255, 255])?, whole(2));
    assert_eq!(rt; read_file(heap, &[255, 255, 7, 0, 1, 1])?, broken(0));
    Ok(())
}

#[test]
fn cut_bodies(rt: HostRuntime) -> Result<(), Fail> {
    let heap = rt.alloc();
    assert_eq!(rt;
        read_file(heap, &[2, 0, 2, 0, 6, 0, 13, 0, 1, 0, 2, 0])?,
        whole(2)
    );
    assert_eq!(rt;
        read_file(heap, &[2, 0, 2, 0, 6, 0, 13, 0, 1, 0, 2])?,
        broken(1)
    );
    assert_eq!(rt; read_file(heap, &[2, 0, 2, 0, 6, 0, 13, 0])?, broken(1));
    assert_eq!(rt; read_file(heap, &[2, 0, 2, 0, 6])?, broken(1));
    assert_eq!(rt; read_file(heap, &[3, 0, 2, 0, 9])?, whole(1));
    Ok(())
}

// 8,192 records of four bytes are as long as a file may be.
#[test]
fn longest_file(rt: HostRuntime) -> Result<(), Fail> {
    let heap = rt.alloc();
    let mut bytes = [2, 0, 2, 0].repeat(heap, 8192)?;
    assert_eq!(rt; bytes.len(), 32768);
    assert_eq!(rt; read_file(heap, bytes.as_slice())?, whole(8192));
    bytes.push(2)?;
    assert_eq!(rt;
        read_file(heap, bytes.as_slice())?,
        Outcome {
            records: 0,
            refused: Some((2, 0)),
        }
    );
    Ok(())
}

// What the body of the record with this number holds, as one of kind `R`.
fn decode<R: RecordKind>(body: &[u8], at: u16) -> Result<R::Content, Refusal> {
    let raw = RawRecord {
        kind: R::KIND,
        body,
    };
    let record = Numbered {
        at: RecordNumber(at),
        raw,
    };
    record.decode::<R>()
}

// The two numbers by which record 5 is refused as one of kind `R` with this body; none where it is taken.
fn size_refused<R: RecordKind<Content: Drop>>(body: &[u8]) -> Option<(u16, u16)> {
    decode::<R>(body, 5).err().map(numbers)
}

#[test]
fn bodies_of_the_wrong_size(rt: HostRuntime) {
    assert_eq!(rt; size_refused::<Falsity>(&[]), None);
    assert_eq!(rt; size_refused::<Falsity>(&[0]), Some((3, 5)));
    assert_eq!(rt; size_refused::<And>(&[1, 0, 2, 0]), None);
    assert_eq!(rt; size_refused::<And>(&[1, 0, 2]), Some((3, 5)));
    assert_eq!(rt; size_refused::<And>(&[1, 0, 2, 0, 3]), Some((3, 5)));
}

#[test]
fn fields_in_their_places(rt: HostRuntime) -> Result<(), Refusal> {
    let arrow = decode::<ArrowFact>(&[6, 0, 1, 0, 2, 0, 3, 1], 0)?;
    assert_eq!(rt; arrow.modality.0, 6);
    assert_eq!(rt; arrow.principal.0, 1);
    assert_eq!(rt; arrow.from.0, 2);
    assert_eq!(rt; arrow.to.0, 259);
    let row = decode::<Ends>(&[9, 0, 7, 0, 31, 0, 1, 2, 3, 128], 0)?;
    assert_eq!(rt; row.modality.0, 9);
    assert_eq!(rt; row.principal.0, 7);
    assert_eq!(rt; row.world.0, 31);
    assert_eq!(rt; row.mask.0, 0x8003_0201);
    let place = decode::<Stands>(&[1, 0, 30, 0], 0)?;
    assert_eq!(rt; place.label.0, 1);
    assert_eq!(rt; place.world.0, 30);
    Ok(())
}

#[test]
fn order_goes_up(rt: HostRuntime) -> Result<(), Refusal> {
    let order = decode::<OrderFact>(&[4, 0, 5, 0], 0)?;
    assert_eq!(rt; order.lower.0, 4);
    assert_eq!(rt; order.upper.0, 5);
    Ok(())
}

// What comes next of an input, a block by its kind, and the bytes left.
fn next_of(input: &[u8]) -> (Result<Option<BlockKind>, NoBlock>, usize) {
    let mut cursor = BlockCursor::new(input);
    let next = cursor.next();
    (next.map(|block| block.map(|b| b.kind)), cursor.left())
}

#[test]
fn blocks(rt: HostRuntime) {
    assert_eq!(rt; next_of(&[]), (Ok(None), 0));
    assert_eq!(rt;
        next_of(&[4, 0, 0, 0, 1, 0]),
        (Ok(Some(BlockKind::Open)), 0)
    );
    assert_eq!(rt;
        next_of(&[4, 0, 0, 0, 1, 0, 9]),
        (Ok(Some(BlockKind::Open)), 1)
    );
    assert_eq!(rt; next_of(&[3, 0, 0, 0, 1]), (Err(NoBlock), 5));
    assert_eq!(rt; next_of(&[2, 0, 1, 0]), (Ok(Some(BlockKind::Enter)), 0));
    assert_eq!(rt;
        next_of(&[4, 0, 2, 0, 1, 0]),
        (Ok(Some(BlockKind::Prove)), 0)
    );
    assert_eq!(rt; next_of(&[3, 0, 2, 0, 1]), (Err(NoBlock), 5));
    assert_eq!(rt; next_of(&[2, 0, 3, 0]), (Err(NoBlock), 4));
    assert_eq!(rt;
        next_of(&[4, 0, 3, 0, 1, 0]),
        (Ok(Some(BlockKind::Refute)), 0)
    );
    assert_eq!(rt; next_of(&[2, 0, 4, 0]), (Err(NoBlock), 4));
    assert_eq!(rt; next_of(&[1, 0, 1, 0]), (Err(NoBlock), 4));
    assert_eq!(rt; next_of(&[5, 0, 1, 0, 1, 0]), (Err(NoBlock), 6));
    assert_eq!(rt; next_of(&[5]), (Err(NoBlock), 1));
    assert_eq!(rt; u16::from(BlockKind::Open), 0);
    assert_eq!(rt; u16::from(BlockKind::Enter), 1);
    assert_eq!(rt; u16::from(BlockKind::Prove), 2);
    assert_eq!(rt; u16::from(BlockKind::Refute), 3);
}

#[test]
fn words(rt: HostRuntime) -> Result<(), Fail> {
    let heap = rt.alloc();
    let frame = Refusal::Frame(RecordNumber(4)).to_string(heap)?;
    assert_eq!(rt;
        frame.as_str(),
        "the length is cut off, under 2, past the end or wrong for the kind (record 4)"
    );
    let long = Refusal::FileTooLong.to_string(heap)?;
    assert_eq!(rt; long.as_str(), "the file has more than 32768 bytes");
    let early = Refusal::EndsEarly(RecordNumber(0)).to_string(heap)?;
    assert_eq!(rt; early.as_str(), "the file ends too early (records read: 0)");
    Ok(())
}
