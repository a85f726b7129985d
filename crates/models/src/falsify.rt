// Whether the facts of a sequent falsify where its labels stand in a model.
ghost use Rattle.std.specs.Prelude.{◌≡◌, ◌≤◌, List, map, length};
ghost use Rattle.records.specs.declared.numbers.FormulaNumber.{FormulaNumber as ByNumber};
ghost use Rattle.logic.specs.declared.terms.FactView.{FactView as Said};
ghost use Rattle.logic.specs.Facts.{falsifies, facts_map};
ghost use Rattle.logic.specs.Formulas.{tree};
ghost use Rattle.logic.specs.Stored.{stored};
ghost use Rattle.logic.specs.Tables.{nodes_of};
ghost use Rattle.rows.specs.PlacesOf.{standing_of};
ghost use Rattle.rows.specs.RowsOf.{model_of};
ghost use Rattle.sketches.specs.Answers.{Inside};
ghost use Rattle.models.specs.Seen.{link_seen, formula_seen, view_seen, fact_seen};
ghost use Rattle.models.specs.Sets.{TrueSets};
ghost use Rattle.models.specs.Firsts.{FirstNotOf};

use crate::truths::Truths;
use logic::fact::Fact;
use logic::table::FormulaTable;
use logic::terms::{FactView, Link};
use records::numbers::{FactPosition, FormulaNumber, Label};
use sketches::read::GivenModel;

// A model, and where the formulas of a table hold in it. The table says which formula each number stands for.
#[derive(Drop)]
pub(crate) struct Valuation<'a> {
    model: &'a GivenModel,
    table: &'a FormulaTable,
    truths: Truths,
    ghost true_sets: { TrueSets (model_of model.now.rows) (nodes_of table.now) truths.sets },
}

impl<'a> Valuation<'a> {
    // Where the formulas of a table hold in a model.
    pub(crate) fn of(model: &'a GivenModel, table: &'a FormulaTable) -> Valuation<'a>
        ensures model { result.model.now ≡ model.now }
        ensures table { result.table.now ≡ table.now }
    {
        let truths = Truths::of(&model.rows, table);
        Valuation {
            model,
            table,
            truths,
        }
    }

    // Whether an order or an arrow is in the model.
    fn link_stands(&self, link: Link) -> bool
        ensures { result ≡ link_seen self.now.model.now link }
    {
        let Valuation { model, .. } = self;
        match link {
            Link::Order(x, y) => {
                let above = model.rows.above(model.places.world(x));
                above.has(model.places.world(y))
            }
            Link::Arrow(k, a, x, y) => {
                let ends = model.rows.ends(k, a, model.places.world(x));
                ends.has(model.places.world(y))
            }
        }
    }

    // Whether the set of a formula has the world where a label stands.
    fn formula_stands(&self, x: Label, f: FormulaNumber) -> bool
        ensures { result ≡ formula_seen self.now.model.now self.now.truths.sets x f }
    {
        let set = self.truths.at(f);
        set.has(self.model.places.world(x))
    }

    // Whether what a fact says falsifies: a left formula, an order or an arrow that holds, a right formula that fails.
    fn view_falsifies(&self, view: FactView<FormulaNumber>) -> bool
        ensures { result ≡ view_seen self.now.model.now self.now.truths.sets view }
    {
        match view {
            FactView::Left(x, f) => self.formula_stands(x, f),
            FactView::Right(x, f) => !self.formula_stands(x, f),
            FactView::Linked(link) => self.link_stands(link),
        }
    }

    // Whether a fact falsifies.
    fn fact_falsifies(&self, fact: Fact) -> bool
        ensures { result ≡ fact_seen self.now.model.now self.now.truths.sets fact }
    {
        matches!(fact.view(), Some(view) if self.view_falsifies(view))
    }

    // The position of the first fact that does not falsify.
    pub(crate) fn first_not_falsifying(&self, facts: &[Fact]) -> Option<FactPosition>
        requires { length facts.now ≤ 16 }
        ensures { (fs : List (Said ByNumber)) → facts.now ≡ map stored fs → Inside self.now.model.now → FirstNotOf (falsifies (model_of self.now.model.now.rows) (standing_of self.now.model.now.places)) (facts_map (tree (nodes_of self.now.table.now)) fs) result }
    {
        facts
            .iter()
            .position(|fact| !self.fact_falsifies(*fact))
            .map(|i| FactPosition(i as u16))
    }
}
