// Whether a file describes a countermodel of a sequent.
ghost use Rattle.logic.specs.Tables.{nodes_of};
ghost use Rattle.records.specs.Files.{bytes_of};
ghost use Rattle.sequents.specs.Sequents.{sequent_of};
ghost use Rattle.models.specs.Examined.{Examined};

use crate::judge::judge_model;
use logic::table::FormulaTable;
use piles::pack::Pack;
use records::file::File;
use records::refusal::Refusal;
use sequents::sequent::Sequent;
use sketches::read::read_model;

// Whether the file describes a model that the pile admits and in which the sequent fails where the file places its labels.
// Pile and number of principals come apart: a setting of both belongs to `rules`, which the model side does not know.
pub fn examine_model<K: Pack>(
    file: File,
    table: &FormulaTable,
    sequent: &Sequent,
    pile: &K,
    principals: u16,
) -> Result<(), Refusal>
    ensures { Examined (K.conditions pile.now) principals (sequent_of (nodes_of table.now) sequent.now) (bytes_of file.entry) result }
{
    let model = read_model(file, sequent.labels, principals)?;
    judge_model(&model, table, sequent, pile)
}
