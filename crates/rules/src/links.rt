// Steps by which orders and arrows follow from others.
ghost use Rattle.std.specs.Prelude.{◌≡◌};
ghost use Rattle.stack.specs.Stacks.{items};
ghost use Rattle.rules.specs.Applying.{reflexive, transitive, along, against, shifted, monotone};
ghost use Rattle.rules.specs.Scenes.{facts_at};

use crate::branch::Branch;
use crate::contents::{OrderArrowOrder, TwoOrders};
use crate::looks::*;
use crate::outcome::{ArrowParts, Few, Growth, Outcome};
use logic::terms::{FactView, Link};
use records::numbers::{FormulaNumber, Label};

// 44
pub(crate) fn order_itself(x: Label) -> Outcome<FormulaNumber>
    ensures { result ≡ reflexive x }
{
    Outcome::Goes(Growth::of(Few::One(FactView::Linked(Link::Order(x, x)))))
}

// 45
pub(crate) fn join_orders(branch: &Branch, at: TwoOrders) -> Option<Outcome<FormulaNumber>>
    ensures { result ≡ transitive (facts_at (items branch.now.trail.now)) at }
{
    let (x, y) = branch.order(at.first)?;
    let (lower, z) = branch.order(at.second)?;
    let order = FactView::Linked(Link::Order(x, z));
    (lower == y).then_some(Outcome::Goes(Growth::of(Few::One(order))))
}

// The arrow between the outer labels of two orders, for says, controls and ratified.
fn along_orders(a: (Label, Label), arrow: ArrowParts, b: (Label, Label)) -> Option<Link>
    ensures { result ≡ along a arrow b }
{
    let (x, y) = a;
    let (z, w) = b;
    let moved = Link::Arrow(arrow.modality, arrow.principal, x, w);
    (arrow.from == y && z == arrow.to).then_some(moved)
}

// The arrow between the outer labels of two orders, for permitted.
fn against_orders(a: (Label, Label), arrow: ArrowParts, b: (Label, Label)) -> Option<Link>
    ensures { result ≡ against a arrow b }
{
    let (x, y) = a;
    let (z, w) = b;
    let moved = Link::Arrow(arrow.modality, arrow.principal, w, x);
    (arrow.to == y && z == arrow.from).then_some(moved)
}

// The arrow, moved out along two orders.
fn shift(a: (Label, Label), arrow: ArrowParts, b: (Label, Label)) -> Option<Link>
    ensures { result ≡ shifted a arrow b }
{
    if is_universal(arrow.modality) {
        along_orders(a, arrow, b)
    } else {
        against_orders(a, arrow, b)
    }
}

// 46
pub(crate) fn shift_arrow(branch: &Branch, at: OrderArrowOrder) -> Option<Outcome<FormulaNumber>>
    ensures { result ≡ monotone (facts_at (items branch.now.trail.now)) at }
{
    let first = branch.order(at.first)?;
    let arrow = branch.arrow(at.arrow)?;
    let second = branch.order(at.second)?;
    let link = shift(first, arrow, second)?;
    Some(Outcome::Goes(Growth::of(Few::One(FactView::Linked(link)))))
}
