// A dossier while it is read.
ghost use Rattle.std.specs.Prelude.{◌≡◌, length};
ghost use Rattle.logic.specs.Tables.{nodes_of};
ghost use Rattle.dossiers.specs.Dossiers.{labels_at, formulas_at, facts_at, entered};
ghost use Rattle.dossiers.specs.Dossiers.{formulas};
ghost use Rattle.dossiers.specs.Drafts.{Takes, stage_of};
ghost use Rattle.records.specs.Chains.{record_of};
ghost use Rattle.sequents.specs.Sequents.{facts_of};

use crate::entry::{Ranges, count_fits, read_fact, read_formula};
use kinds::facts::Labels;
use logic::table::{FormulaTable, PushError};
use records::kind::RecordKind;
use records::numbers::LabelCount;
use records::record::Numbered;
use records::refusal::Refusal;
use sequents::list::FactList;
use sequents::sequent::Sequent;

// The table with the formulas read so far, and the sequent with the facts read so far, once its label count is read.
#[derive(Clone, Copy)]
pub struct Draft {
    pub table: FormulaTable,
    pub sequent: Option<Sequent>,
}

// The label count that a record gives.
fn take_labels(numbered: Numbered) -> Result<LabelCount, Refusal>
    ensures { result ≡ labels_at numbered.entry.raw.body.now numbered.entry.at }
{
    let labels = numbered.decode::<Labels>()?;
    if !count_fits(labels) {
        return Err(Refusal::OutOfRange(numbered.at));
    }
    Ok(labels)
}

// The formula that a record enters, put into the table.
fn take_formula(
    table: &mut FormulaTable,
    numbered: Numbered,
    principals: u16,
) -> Result<(), Refusal>
    ensures { Takes (formulas_at principals numbered.entry.raw.kind numbered.entry.raw.body.now numbered.entry.at (nodes_of table.old)) result (nodes_of table.new) }
{
    let node = read_formula(numbered)?;
    let ranges = Ranges {
        principals,
        formulas: table.len(),
    };
    if !ranges.formula_fits(node) {
        return Err(Refusal::OutOfRange(numbered.at));
    }
    table.push(node).map_err(|error| match error {
        PushError::Part => Refusal::OutOfRange(numbered.at),
        PushError::Full => Refusal::Full(numbered.at),
    })?;
    Ok(())
}

// The fact that a record enters, put behind the others of a sequent.
fn take_fact(sequent: &mut Sequent, numbered: Numbered, ranges: Ranges) -> Result<(), Refusal>
    ensures facts { Takes (facts_at ranges.principals sequent.old.labels.0 ranges.formulas numbered.entry.raw.kind numbered.entry.raw.body.now numbered.entry.at (facts_of sequent.old.facts)) result (facts_of sequent.new.facts) }
    ensures labels { sequent.new.labels ≡ sequent.old.labels }
{
    let view = read_fact(numbered)?;
    if !ranges.fact_fits(view, sequent.labels) {
        return Err(Refusal::OutOfRange(numbered.at));
    }
    sequent
        .facts
        .push(view)
        .map_err(|_| Refusal::Full(numbered.at))
}

impl Draft {
    // A draft of nothing, over the formulas of a table.
    pub fn over(table: &FormulaTable) -> Draft
        ensures { stage_of result ≡ formulas (nodes_of table.now) }
    {
        Draft {
            table: *table,
            sequent: None,
        }
    }

    // A record, taken into the draft.
    pub fn take(&mut self, numbered: Numbered, principals: u16) -> Result<(), Refusal>
        ensures { Takes (entered principals numbered.entry.at.0 (record_of numbered.entry.raw) (stage_of self.old)) result (stage_of self.new) }
    {
        if let Some(sequent) = &mut self.sequent {
            let ranges = Ranges {
                principals,
                formulas: self.table.len(),
            };
            return take_fact(sequent, numbered, ranges);
        }
        if numbered.raw.kind == Labels::KIND {
            let labels = take_labels(numbered)?;
            self.sequent = Some(Sequent {
                labels,
                facts: FactList::new(),
            });
            return Ok(());
        }
        take_formula(&mut self.table, numbered, principals)
    }
}
