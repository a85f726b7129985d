// Steps of packs.
ghost use Rattle.std.specs.Prelude.{◌≡◌};
ghost use Rattle.stack.specs.Stacks.{items};
ghost use Rattle.rules.specs.Applying.{of_reading, of_pack};
ghost use Rattle.rules.specs.Outcomes.{uses, pack_adds};
ghost use Rattle.rules.specs.PackSteps.{hidden, named_at, operands_of};
ghost use Rattle.rules.specs.Scenes.{facts_at};

use crate::branch::Branch;
use crate::outcome::{Few, Growth, Outcome};
use crate::setting::Setting;
use crate::step::{PackStep, Positions};
use logic::terms::{FactView, Link};
use piles::pack::Pack;
use piles::terms::{Named, Operands, Premise, Reading};
use records::numbers::FormulaNumber;

// A fact with its formula hidden.
fn hide(fact: FactView<FormulaNumber>) -> FactView<()>
    ensures { result ≡ hidden fact }
{
    match fact {
        FactView::Left(x, _) => FactView::Left(x, ()),
        FactView::Right(x, _) => FactView::Right(x, ()),
        FactView::Linked(l) => FactView::Linked(l),
    }
}

// The facts at the positions, if they are all there.
fn named(branch: &Branch, positions: Positions) -> Option<Named>
    ensures { result ≡ named_at (facts_at (items branch.now.trail.now)) positions }
{
    Some(match positions {
        Positions::Zero => Named::Nothing,
        Positions::One(i) => Named::Single(hide(branch.fact(i)?)),
        Positions::Two(i, j) => Named::Pair(hide(branch.fact(i)?), hide(branch.fact(j)?)),
    })
}

// Whether a link uses the label n.
fn link_uses(n: u16, link: Link) -> bool
    ensures { result ≡ uses n link }
{
    match link {
        Link::Order(x, y) | Link::Arrow(_, _, x, y) => x.0 == n || y.0 == n,
    }
}

// What a premise adds in a branch with so many labels.
fn grow(labels: u16, premise: Premise) -> Growth<FormulaNumber>
    ensures { result ≡ pack_adds labels premise }
{
    match premise {
        Premise::Adds(l) => Growth {
            facts: Few::One(FactView::Linked(l)),
            opens: link_uses(labels, l),
        },
        Premise::AddsBoth(l, k) => Growth {
            facts: Few::Two(FactView::Linked(l), FactView::Linked(k)),
            opens: link_uses(labels, l) || link_uses(labels, k),
        },
    }
}

// What a reading does in a branch with so many labels.
fn outcome_of(labels: u16, reading: Reading) -> Option<Outcome<FormulaNumber>>
    ensures { result ≡ of_reading labels reading }
{
    match reading {
        Reading::Unknown | Reading::NoInstance => None,
        Reading::Goes(q) => Some(Outcome::Goes(grow(labels, q))),
        Reading::Splits(q, r) => Some(Outcome::Forks(grow(labels, q), grow(labels, r))),
    }
}

// A step of a pack of the pile.
pub(crate) fn ask_pack<K: Pack>(
    setting: &Setting<K>,
    branch: &Branch,
    step: PackStep,
) -> Option<Outcome<FormulaNumber>>
    ensures { result ≡ of_pack (facts_at (items branch.now.trail.now)) (K.readings setting.now.pile.now) setting.now.principals branch.now.labels step }
{
    let operands = Operands {
        named: named(branch, step.positions)?,
        label: step.label,
        principal: step.principal,
    };
    let labels = branch.labels;
    outcome_of(
        labels,
        setting
            .pile
            .read(step.kind, operands, setting.principals, labels),
    )
}
