// A whole dossier.
ghost use Rattle.logic.specs.Tables.{nodes_of};
ghost use Rattle.records.specs.Files.{bytes_of};
ghost use Rattle.dossiers.specs.Answers.{Finished, DossierRead};

use crate::draft::Draft;
use logic::table::FormulaTable;
use records::cursor::Cursor;
use records::file::File;
use records::numbers::RecordNumber;
use records::refusal::Refusal;
use sequents::sequent::Sequent;

// What a taken dossier leaves: the table with its formulas, and its sequent.
#[derive(Clone, Copy)]
pub struct Dossier {
    pub table: FormulaTable,
    pub sequent: Sequent,
}

// The dossier that a draft is where the file ends, after `read` records.
fn finish(draft: Draft, read: RecordNumber) -> Result<Dossier, Refusal>
    ensures { Finished read.0 draft result }
{
    Ok(Dossier {
        table: draft.table,
        sequent: draft.sequent.ok_or(Refusal::EndsEarly(read))?,
    })
}

// Reads a dossier over the formulas of a table, for so many principals. The table is not changed.
pub fn read_dossier(file: File, table: &FormulaTable, principals: u16) -> Result<Dossier, Refusal>
    ensures { DossierRead principals (nodes_of table.now) (bytes_of file.entry) result }
{
    let mut cursor = Cursor::new(file);
    let mut draft = Draft::over(table);
    while let Some(record) = cursor.next()? {
        draft.take(record, principals)?;
    }
    finish(draft, cursor.number())
}
