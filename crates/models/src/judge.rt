// Whether a model is one that a pile admits and in which a sequent fails.
ghost use Rattle.logic.specs.Facts.{falsifies};
ghost use Rattle.logic.specs.ModelRules.{Regular};
ghost use Rattle.logic.specs.Tables.{nodes_of};
ghost use Rattle.piles.specs.Packs.{Judged};
ghost use Rattle.rows.specs.PlacesOf.{standing_of};
ghost use Rattle.rows.specs.RowsOf.{frame_of, model_of};
ghost use Rattle.sequents.specs.Sequents.{sequent_of};
ghost use Rattle.sketches.specs.Answers.{Inside};
ghost use Rattle.judging.specs.Tests.{Tells};
ghost use Rattle.models.specs.Firsts.{FirstNotOf};
ghost use Rattle.models.specs.Judgements.{Judgement};

use crate::falsify::Valuation;
use judging::rules::{first_open_row, keeps_rules};
use logic::table::FormulaTable;
use piles::pack::Pack;
use records::numbers::{ConditionPlace, FactPosition};
use records::refusal::Refusal;
use sequents::sequent::Sequent;
use sketches::read::GivenModel;

// Whether order and arrows keep their rules.
fn is_regular(model: &GivenModel) -> bool
    ensures { Tells result (Regular model.now.principals (frame_of model.now.rows)) }
{
    keeps_rules(&model.rows, model.principals)
}

// The place of the first condition of the pile that fails.
fn failing_condition<K: Pack>(model: &GivenModel, pile: &K) -> Option<ConditionPlace>
    ensures { Judged (K.conditions pile.now) model.now.principals (frame_of model.now.rows) result }
{
    pile.judge(&model.rows, model.principals)
}

// The position of the first fact of the sequent that does not falsify.
// Table and sequent stay two parameters, since a ledger has one table for all its sequents, and a struct would be made at each call.
fn failing_fact(model: &GivenModel, table: &FormulaTable, sequent: &Sequent) -> Option<FactPosition>
    ensures { Inside model.now → FirstNotOf (falsifies (model_of model.now.rows) (standing_of model.now.places)) (sequent_of (nodes_of table.now) sequent.now).facts result }
{
    Valuation::of(model, table).first_not_falsifying(sequent.facts.facts())
}

// Whether the model keeps the rules, meets the pile's conditions and makes every fact of the sequent falsify; the first cause where not.
pub fn judge_model<K: Pack>(
    model: &GivenModel,
    table: &FormulaTable,
    sequent: &Sequent,
    pile: &K,
) -> Result<(), Refusal>
    ensures { Inside model.now → Judgement (K.conditions pile.now) model.now.principals (sequent_of (nodes_of table.now) sequent.now) (model_of model.now.rows) (standing_of model.now.places) result }
{
    if !is_regular(model) {
        return Err(Refusal::OrderBroken);
    }
    if let Some(atom) = first_open_row(&model.rows) {
        return Err(Refusal::AtomRowOpen(atom));
    }
    if let Some(place) = failing_condition(model, pile) {
        return Err(Refusal::ConditionFails(place));
    }
    if let Some(position) = failing_fact(model, table, sequent) {
        return Err(Refusal::DoesNotFalsify(position));
    }
    Ok(())
}
