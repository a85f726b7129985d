// Steps that take a modality apart.
ghost use Rattle.std.specs.Prelude.{◌≡◌};
ghost use Rattle.stack.specs.Stacks.{items};
ghost use Rattle.logic.specs.Tables.{nodes_of};
ghost use Rattle.rules.specs.Applying.{modal_left, modal_right, permitted_left, permitted_right};
ghost use Rattle.rules.specs.Scenes.{facts_at, node_of};

use crate::branch::Branch;
use crate::contents::{LeftArrow, RightArrow};
use crate::looks::*;
use crate::outcome::{Few, Growth, Outcome};
use logic::terms::{FactView, Link};
use records::numbers::{FactPosition, FormulaNumber, Label};

// 40
pub(crate) fn left_modal(branch: &Branch, at: LeftArrow) -> Option<Outcome<FormulaNumber>>
    ensures { result ≡ modal_left (facts_at (items branch.now.trail.now)) (node_of (nodes_of branch.now.table.now)) at }
{
    let (x, f) = branch.left(at.left)?;
    let boxed = as_universal(branch.node(f))?;
    let arrow = branch.arrow(at.arrow)?;
    let y = end_of(boxed, x, arrow)?;
    Some(Outcome::Goes(Growth::of(Few::One(FactView::Left(y, boxed.part)))))
}

// 41
pub(crate) fn right_modal(branch: &Branch, r: FactPosition) -> Option<Outcome<FormulaNumber>>
    ensures { result ≡ modal_right (facts_at (items branch.now.trail.now)) (node_of (nodes_of branch.now.table.now)) branch.now.labels r }
{
    let (x, f) = branch.right(r)?;
    let boxed = as_universal(branch.node(f))?;
    let y = Label(branch.labels);
    let arrow = FactView::Linked(Link::Arrow(boxed.modality, boxed.principal, x, y));
    let facts = Few::Two(arrow, FactView::Right(y, boxed.part));
    Some(Outcome::Goes(Growth::opening(facts)))
}

// 42
pub(crate) fn left_permitted(branch: &Branch, l: FactPosition) -> Option<Outcome<FormulaNumber>>
    ensures { result ≡ permitted_left (facts_at (items branch.now.trail.now)) (node_of (nodes_of branch.now.table.now)) branch.now.labels l }
{
    let (x, f) = branch.left(l)?;
    let boxed = as_permitted(branch.node(f))?;
    let y = Label(branch.labels);
    let arrow = FactView::Linked(Link::Arrow(boxed.modality, boxed.principal, x, y));
    let facts = Few::Two(arrow, FactView::Left(y, boxed.part));
    Some(Outcome::Goes(Growth::opening(facts)))
}

// 43
pub(crate) fn right_permitted(branch: &Branch, at: RightArrow) -> Option<Outcome<FormulaNumber>>
    ensures { result ≡ permitted_right (facts_at (items branch.now.trail.now)) (node_of (nodes_of branch.now.table.now)) at }
{
    let (x, f) = branch.right(at.right)?;
    let boxed = as_permitted(branch.node(f))?;
    let arrow = branch.arrow(at.arrow)?;
    let y = end_of(boxed, x, arrow)?;
    Some(Outcome::Goes(Growth::of(Few::One(FactView::Right(y, boxed.part)))))
}
