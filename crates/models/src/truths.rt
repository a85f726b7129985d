// Where the formulas of a table hold in a model.
ghost use Rattle.std.specs.Prelude.{◌≡◌, slice_index_or};
ghost use Rattle.logic.specs.Formulas.{tree};
ghost use Rattle.logic.specs.Tables.{nodes_of};
ghost use Rattle.rows.specs.Masks.{no_set};
ghost use Rattle.rows.specs.RowsOf.{model_of};
ghost use Rattle.judging.specs.Truths.{Truth};
ghost use Rattle.models.specs.Sets.{TrueBelow, TrueSets};

use judging::truth::node_set;
use logic::table::{FormulaTable, MAX_FORMULAS};
use records::numbers::FormulaNumber;
use rows::masks::{WorldSet, set_at};
use rows::rows::Rows;

// The worlds where each formula holds, by number: a fixed array, with room for each formula of a table, and no heap.
#[derive(Drop)]
pub struct Truths {
    sets: [WorldSet; MAX_FORMULAS],
}

// The worlds where a formula holds, from those of the formulas with smaller numbers.
fn next_set(
    rows: &Rows,
    table: &FormulaTable,
    formula: FormulaNumber,
    sets: &[WorldSet],
) -> WorldSet
    ensures { TrueBelow (model_of rows.now) (nodes_of table.now) formula.0 sets.now → Truth (model_of rows.now) result (tree (nodes_of table.now) formula) }
{
    table
        .node(formula)
        .map_or(WorldSet(0), |node| node_set(rows, node, sets))
}

impl Truths {
    // Where the formulas of a table hold.
    pub fn of(rows: &Rows, table: &FormulaTable) -> Truths
        ensures { TrueSets (model_of rows.now) (nodes_of table.now) result.sets }
    {
        let mut sets = [WorldSet(0); MAX_FORMULAS];
        // by number, since each set is found from those before it
        for i in 0..table.len() {
            sets[i] = next_set(rows, table, FormulaNumber(i as u16), &sets);
        }
        Truths { sets }
    }

    // The worlds where a formula holds.
    pub fn at(&self, formula: FormulaNumber) -> WorldSet
        ensures { result ≡ slice_index_or self.now.sets formula.0 no_set }
    {
        set_at(&self.sets, formula.0)
    }
}

// The worlds where one formula of a table holds. A number past the table's end stands for falsity.
pub fn formula_set(rows: &Rows, table: &FormulaTable, formula: FormulaNumber) -> WorldSet
    ensures { Truth (model_of rows.now) result (tree (nodes_of table.now) formula) }
{
    let truths = Truths::of(rows, table);
    truths.at(formula)
}
