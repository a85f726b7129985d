// One function for each row of the rule table, also where two rows differ in a side or a sign alone: so each reads as its rule.
// Steps that close a branch or take a formula's outermost sign apart.
ghost use Rattle.std.specs.Prelude.{◌≡◌};
ghost use Rattle.stack.specs.Stacks.{items};
ghost use Rattle.logic.specs.Tables.{nodes_of};
ghost use Rattle.rules.specs.Applying.{atoms_close, falsity_closes, and_left, and_right, or_left, or_right, implies_left, implies_right};
ghost use Rattle.rules.specs.Scenes.{facts_at, node_of};

use crate::branch::Branch;
use crate::contents::{Closing, LeftOrder};
use crate::looks::*;
use crate::outcome::{Few, Growth, Outcome};
use logic::terms::{FactView, Link};
use records::numbers::{FactPosition, FormulaNumber, Label};

// 32
pub(crate) fn close_atoms(branch: &Branch, at: Closing) -> Option<Outcome<FormulaNumber>>
    ensures { result ≡ atoms_close (facts_at (items branch.now.trail.now)) (node_of (nodes_of branch.now.table.now)) at }
{
    let (x, f) = branch.left(at.left)?;
    let p = as_atom(branch.node(f))?;
    let (y, g) = branch.right(at.right)?;
    let q = as_atom(branch.node(g))?;
    let (lower, upper) = branch.order(at.order)?;
    (p == q && lower == x && upper == y).then_some(Outcome::Closes)
}

// 33
pub(crate) fn close_falsity(branch: &Branch, l: FactPosition) -> Option<Outcome<FormulaNumber>>
    ensures { result ≡ falsity_closes (facts_at (items branch.now.trail.now)) (node_of (nodes_of branch.now.table.now)) l }
{
    let (_, f) = branch.left(l)?;
    as_falsity(branch.node(f))?;
    Some(Outcome::Closes)
}

// 34
pub(crate) fn left_and(branch: &Branch, l: FactPosition) -> Option<Outcome<FormulaNumber>>
    ensures { result ≡ and_left (facts_at (items branch.now.trail.now)) (node_of (nodes_of branch.now.table.now)) l }
{
    let (x, f) = branch.left(l)?;
    let (g, h) = as_and(branch.node(f))?;
    let facts = Few::Two(FactView::Left(x, g), FactView::Left(x, h));
    Some(Outcome::Goes(Growth::of(facts)))
}

// 35
pub(crate) fn right_and(branch: &Branch, r: FactPosition) -> Option<Outcome<FormulaNumber>>
    ensures { result ≡ and_right (facts_at (items branch.now.trail.now)) (node_of (nodes_of branch.now.table.now)) r }
{
    let (x, f) = branch.right(r)?;
    let (g, h) = as_and(branch.node(f))?;
    let first = Growth::of(Few::One(FactView::Right(x, g)));
    let second = Growth::of(Few::One(FactView::Right(x, h)));
    Some(Outcome::Forks(first, second))
}

// 36
pub(crate) fn left_or(branch: &Branch, l: FactPosition) -> Option<Outcome<FormulaNumber>>
    ensures { result ≡ or_left (facts_at (items branch.now.trail.now)) (node_of (nodes_of branch.now.table.now)) l }
{
    let (x, f) = branch.left(l)?;
    let (g, h) = as_or(branch.node(f))?;
    let first = Growth::of(Few::One(FactView::Left(x, g)));
    let second = Growth::of(Few::One(FactView::Left(x, h)));
    Some(Outcome::Forks(first, second))
}

// 37
pub(crate) fn right_or(branch: &Branch, r: FactPosition) -> Option<Outcome<FormulaNumber>>
    ensures { result ≡ or_right (facts_at (items branch.now.trail.now)) (node_of (nodes_of branch.now.table.now)) r }
{
    let (x, f) = branch.right(r)?;
    let (g, h) = as_or(branch.node(f))?;
    let facts = Few::Two(FactView::Right(x, g), FactView::Right(x, h));
    Some(Outcome::Goes(Growth::of(facts)))
}

// 38
pub(crate) fn left_implies(branch: &Branch, at: LeftOrder) -> Option<Outcome<FormulaNumber>>
    ensures { result ≡ implies_left (facts_at (items branch.now.trail.now)) (node_of (nodes_of branch.now.table.now)) at }
{
    let (x, f) = branch.left(at.left)?;
    let (g, h) = as_implies(branch.node(f))?;
    let (lower, y) = branch.order(at.order)?;
    let first = Growth::of(Few::One(FactView::Right(y, g)));
    let second = Growth::of(Few::One(FactView::Left(y, h)));
    (lower == x).then_some(Outcome::Forks(first, second))
}

// 39
pub(crate) fn right_implies(branch: &Branch, r: FactPosition) -> Option<Outcome<FormulaNumber>>
    ensures { result ≡ implies_right (facts_at (items branch.now.trail.now)) (node_of (nodes_of branch.now.table.now)) branch.now.labels r }
{
    let (x, f) = branch.right(r)?;
    let (g, h) = as_implies(branch.node(f))?;
    let y = Label(branch.labels);
    let order = FactView::Linked(Link::Order(x, y));
    let facts = Few::Three(order, FactView::Left(y, g), FactView::Right(y, h));
    Some(Outcome::Goes(Growth::opening(facts)))
}
