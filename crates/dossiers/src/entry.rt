// What one record of a dossier enters.
ghost use Rattle.std.specs.Prelude.{◌≡◌, nat_lt};
ghost use Rattle.logic.specs.declared.terms.Node.TheVariants as N;
ghost use Rattle.dossiers.specs.Entries.{formula_of, fits_formula, fact_of, fits_fact, count_fits};

use kinds::facts::*;
use kinds::formulas::*;
use kinds::kind::{Kind, kind_of};
use logic::terms::{FactView, Link, Modality, Node};
use records::numbers::{FormulaNumber, LabelCount};
use records::record::Numbered;
use records::refusal::Refusal;

// How many atoms there are.
pub const ATOMS: u16 = 64;

// A formula under a modality.
fn under(modality: Modality, modal: Modal) -> Node<FormulaNumber>
    ensures { result ≡ N.Modal modality modal.principal modal.formula }
{
    Node::Modal(modality, modal.principal, modal.formula)
}

// The formula that a record enters.
pub fn read_formula(numbered: Numbered) -> Result<Node<FormulaNumber>, Refusal>
    ensures { result ≡ formula_of numbered.entry.raw.kind numbered.entry.raw.body.now numbered.entry.at }
{
    match kind_of(numbered)? {
        Kind::Atom => Ok(Node::Atom(numbered.decode::<AtomFormula>()?)),
        Kind::Falsity => numbered.decode::<Falsity>().map(|_| Node::Falsity),
        Kind::And => numbered.decode::<And>().map(|p| Node::And(p.left, p.right)),
        Kind::Or => numbered.decode::<Or>().map(|p| Node::Or(p.left, p.right)),
        Kind::Implies => numbered
            .decode::<Implies>()
            .map(|p| Node::Implies(p.left, p.right)),
        Kind::Says => Ok(under(Modality::Says, numbered.decode::<Says>()?)),
        Kind::Controls => Ok(under(Modality::Controls, numbered.decode::<Controls>()?)),
        Kind::Ratified => Ok(under(Modality::Ratified, numbered.decode::<Ratified>()?)),
        Kind::Permitted => Ok(under(Modality::Permitted, numbered.decode::<Permitted>()?)),
        _ => Err(Refusal::Kind(numbered.at)),
    }
}

// The fact that a record enters.
pub fn read_fact(numbered: Numbered) -> Result<FactView<FormulaNumber>, Refusal>
    ensures { result ≡ fact_of numbered.entry.raw.kind numbered.entry.raw.body.now numbered.entry.at }
{
    match kind_of(numbered)? {
        Kind::LeftFormula => numbered
            .decode::<LeftFact>()
            .map(|l| FactView::Left(l.label, l.formula)),
        Kind::RightFormula => numbered
            .decode::<RightFact>()
            .map(|l| FactView::Right(l.label, l.formula)),
        Kind::Order => numbered
            .decode::<OrderFact>()
            .map(|o| FactView::Linked(Link::Order(o.lower, o.upper))),
        Kind::Arrow => {
            let arrow = numbered.decode::<ArrowFact>()?;
            let named = Modality::try_from(arrow.modality.0);
            let modality = named.map_err(|_| Refusal::OutOfRange(numbered.at))?;
            Ok(FactView::Linked(Link::Arrow(modality, arrow.principal, arrow.from, arrow.to)))
        }
        _ => Err(Refusal::Kind(numbered.at)),
    }
}

// How many there are of what a record names: every number that names one is below.
#[derive(Clone, Copy)]
pub struct Ranges {
    pub principals: u16,
    pub formulas: usize,
}

impl Ranges {
    // Whether a formula's number is in range.
    fn has_formula(self, formula: FormulaNumber) -> bool
        ensures { result ≡ nat_lt formula.0 self.formulas }
    {
        usize::from(formula.0) < self.formulas
    }

    // Whether the numbers of a formula are in range.
    pub fn formula_fits(self, node: Node<FormulaNumber>) -> bool
        ensures { result ≡ fits_formula self.principals self.formulas node }
    {
        match node {
            Node::Atom(a) => a.0 < ATOMS,
            Node::Falsity => true,
            Node::And(f, g) | Node::Or(f, g) | Node::Implies(f, g) => self.has_formula(f)
                && self.has_formula(g),
            Node::Modal(_, a, f) => a.0 < self.principals && self.has_formula(f),
        }
    }

    // Whether the numbers of a fact are in range, for a sequent of `labels` labels.
    pub fn fact_fits(self, view: FactView<FormulaNumber>, labels: LabelCount) -> bool
        ensures { result ≡ fits_fact self.principals labels.0 self.formulas view }
    {
        match view {
            FactView::Left(x, f) | FactView::Right(x, f) => x.0 < labels.0 && self.has_formula(f),
            FactView::Linked(Link::Order(x, y)) => x.0 < labels.0 && y.0 < labels.0,
            FactView::Linked(Link::Arrow(_, a, x, y)) => a.0 < self.principals
                && x.0 < labels.0
                && y.0 < labels.0,
        }
    }
}

// Whether a sequent can have so many labels.
pub fn count_fits(labels: LabelCount) -> bool
    ensures { result ≡ count_fits labels.0 }
{
    (1..=8).contains(&labels.0)
}
