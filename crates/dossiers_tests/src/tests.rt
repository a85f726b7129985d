// Dossiers against what the rules say of them, worked out by hand.
use dossiers::read::read_dossier;
use logic::table::FormulaTable;
use records::file::File;
use records::refusal::Refusal;
use std::alloc::{AllocError, Global};
use std::test::Fail;

// How much a taken dossier leaves.
#[derive(Clone, Copy, PartialEq, Eq, Debug)]
struct Size {
    formulas: usize,
    facts: usize,
}

// Reads the bytes as a dossier over a table.
fn size_over(table: &FormulaTable, bytes: &[u8], principals: u16) -> Result<Size, Refusal> {
    let dossier = read_dossier(File::try_from(bytes)?, table, principals)?;
    Ok(Size {
        formulas: dossier.table.len(),
        facts: dossier.sequent.facts.len(),
    })
}

// The same, with a refusal by its two numbers.
fn read_over(table: &FormulaTable, bytes: &[u8], principals: u16) -> Result<Size, (u16, u16)> {
    size_over(table, bytes, principals).map_err(|refusal| (refusal.number(), refusal.second()))
}

// Reads the bytes as a dossier over an empty table.
fn read(bytes: &[u8], principals: u16) -> Result<Size, (u16, u16)> {
    read_over(&FormulaTable::new(), bytes, principals)
}

// A dossier that is taken, with so many formulas and facts.
fn taken(formulas: usize, facts: usize) -> Result<Size, (u16, u16)> {
    Ok(Size { formulas, facts })
}

#[test]
fn parts_in_their_places(rt: HostRuntime) {
    assert_eq!(rt;
        read(&[2, 0, 2, 0, 4, 0, 10, 0, 1, 0, 6, 0, 12, 0, 0, 0, 0, 0], 1),
        taken(1, 1)
    );
    assert_eq!(rt; read(&[4, 0, 10, 0, 8, 0], 1), taken(0, 0));
    assert_eq!(rt; read(&[], 1), Err((13, 0)));
    assert_eq!(rt; read(&[2, 0, 2, 0], 1), Err((13, 1)));
    assert_eq!(rt; read(&[6, 0, 13, 0, 0, 0, 0, 0], 1), Err((4, 0)));
    assert_eq!(rt; read(&[4, 0, 10, 0, 1, 0, 2, 0, 2, 0], 1), Err((4, 1)));
    assert_eq!(rt;
        read(&[4, 0, 10, 0, 1, 0, 4, 0, 10, 0, 1, 0], 1),
        Err((4, 1))
    );
}

#[test]
fn kinds_of_other_files(rt: HostRuntime) {
    assert_eq!(rt; read(&[4, 0, 20, 0, 1, 0], 1), Err((4, 0)));
    assert_eq!(rt; read(&[2, 0, 0, 0], 1), Err((4, 0)));
    assert_eq!(rt;
        read(&[4, 0, 10, 0, 1, 0, 4, 0, 44, 0, 0, 0], 1),
        Err((4, 1))
    );
    assert_eq!(rt; read(&[3, 0, 2, 0, 9], 1), Err((3, 0)));
    assert_eq!(rt; read(&[3, 0, 20, 0, 9], 1), Err((4, 0)));
    assert_eq!(rt; read(&[2, 0, 2, 0, 2, 0], 1), Err((3, 1)));
}

#[test]
fn formulas_in_range(rt: HostRuntime) {
    assert_eq!(rt;
        read(&[4, 0, 1, 0, 63, 0, 4, 0, 10, 0, 1, 0], 1),
        taken(1, 0)
    );
    assert_eq!(rt; read(&[4, 0, 1, 0, 64, 0], 1), Err((5, 0)));
    assert_eq!(rt; read(&[6, 0, 3, 0, 0, 0, 0, 0], 1), Err((5, 0)));
    assert_eq!(rt; read(&[2, 0, 2, 0, 6, 0, 5, 0, 0, 0, 1, 0], 1), Err((5, 1)));
    assert_eq!(rt;
        read(&[2, 0, 2, 0, 6, 0, 6, 0, 7, 0, 0, 0, 4, 0, 10, 0, 1, 0], 8),
        taken(2, 0)
    );
    assert_eq!(rt; read(&[2, 0, 2, 0, 6, 0, 6, 0, 8, 0, 0, 0], 8), Err((5, 1)));
}

#[test]
fn labels_in_range(rt: HostRuntime) {
    assert_eq!(rt; read(&[4, 0, 10, 0, 0, 0], 1), Err((5, 0)));
    assert_eq!(rt; read(&[4, 0, 10, 0, 9, 0], 1), Err((5, 0)));
    assert_eq!(rt;
        read(&[4, 0, 10, 0, 8, 0, 6, 0, 13, 0, 7, 0, 0, 0], 1),
        taken(0, 1)
    );
    assert_eq!(rt;
        read(&[4, 0, 10, 0, 8, 0, 6, 0, 13, 0, 8, 0, 0, 0], 1),
        Err((5, 1))
    );
    assert_eq!(rt;
        read(&[4, 0, 10, 0, 1, 0, 6, 0, 11, 0, 0, 0, 0, 0], 1),
        Err((5, 1))
    );
}

#[test]
fn arrows_in_range(rt: HostRuntime) {
    assert_eq!(rt;
        read(
            &[4, 0, 10, 0, 1, 0, 10, 0, 14, 0, 6, 0, 0, 0, 0, 0, 0, 0],
            1,
        ),
        taken(0, 1)
    );
    assert_eq!(rt;
        read(
            &[4, 0, 10, 0, 1, 0, 10, 0, 14, 0, 9, 0, 0, 0, 0, 0, 0, 0],
            1,
        ),
        taken(0, 1)
    );
    assert_eq!(rt;
        read(
            &[4, 0, 10, 0, 1, 0, 10, 0, 14, 0, 5, 0, 0, 0, 0, 0, 0, 0],
            1,
        ),
        Err((5, 1))
    );
    assert_eq!(rt;
        read(
            &[4, 0, 10, 0, 1, 0, 10, 0, 14, 0, 10, 0, 0, 0, 0, 0, 0, 0],
            1,
        ),
        Err((5, 1))
    );
    assert_eq!(rt;
        read(
            &[4, 0, 10, 0, 1, 0, 10, 0, 14, 0, 6, 0, 1, 0, 0, 0, 0, 0],
            1,
        ),
        Err((5, 1))
    );
    assert_eq!(rt;
        read(
            &[4, 0, 10, 0, 1, 0, 10, 0, 14, 0, 6, 0, 0, 0, 0, 0, 1, 0],
            1,
        ),
        Err((5, 1))
    );
}

// The records of 256 formulas, all of them falsity.
fn falsities(heap: Global) -> Result<Vec<u8>, AllocError> {
    [2u8, 0, 2, 0].repeat(heap, 256)
}

// 256 formulas are as many as a table has room for.
#[test]
fn formulas_at_the_limit(rt: HostRuntime) -> Result<(), Fail> {
    let mut bytes = falsities(rt.alloc())?;
    bytes.extend_from_slice(&[4, 0, 10, 0, 1, 0])?;
    assert_eq!(rt; read(bytes.as_slice(), 1), taken(256, 0));
    Ok(())
}

// One more is too many; out of range comes before too many.
#[test]
fn one_formula_too_many(rt: HostRuntime) -> Result<(), Fail> {
    let mut bytes = falsities(rt.alloc())?;
    assert_eq!(rt; read(bytes.as_slice(), 1), Err((13, 256)));
    bytes.extend_from_slice(&[6, 0, 6, 0, 0, 0, 255, 0])?;
    assert_eq!(rt; read(bytes.as_slice(), 1), Err((6, 256)));
    assert_eq!(rt; read(bytes.as_slice(), 0), Err((5, 256)));
    Ok(())
}

// Sixteen facts are as many as a sequent may have.
#[test]
fn facts_at_the_limit(rt: HostRuntime) -> Result<(), Fail> {
    let mut bytes = [4, 0, 10, 0, 1, 0].to_vec(rt.alloc())?;
    bytes.extend_from_slice(&[6u8, 0, 13, 0, 0, 0, 0, 0].repeat(rt.alloc(), 16)?)?;
    assert_eq!(rt; read(bytes.as_slice(), 1), taken(0, 16));
    bytes.extend_from_slice(&[6, 0, 13, 0, 0, 0, 0, 0])?;
    assert_eq!(rt; read(bytes.as_slice(), 1), Err((6, 17)));
    Ok(())
}

// A second dossier counts on from the formulas of the first, and a refused one leaves the table as it was.
#[test]
fn formulas_of_earlier_dossiers(rt: HostRuntime) -> Result<(), Fail> {
    let first: &[u8] = &[4, 0, 1, 0, 5, 0, 4, 0, 10, 0, 1, 0];
    let table = read_dossier(File::try_from(first)?, &FormulaTable::new(), 1)?.table;
    assert_eq!(rt;
        read_over(
            &table,
            &[
                6, 0, 6, 0, 0, 0, 0, 0, 4, 0, 10, 0, 1, 0, 6, 0, 12, 0, 0, 0, 1, 0,
            ],
            1,
        ),
        taken(2, 1)
    );
    assert_eq!(rt;
        read_over(&table, &[2, 0, 2, 0, 2, 0, 2, 0, 2, 0, 99, 0], 1),
        Err((4, 2))
    );
    assert_eq!(rt; table.len(), 1);
    Ok(())
}
