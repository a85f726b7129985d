// A branch as a step looks at it.
ghost use Rattle.std.specs.Prelude.{◌≡◌};
ghost use Rattle.stack.specs.Stacks.{items};
ghost use Rattle.logic.specs.Tables.{nodes_of};
ghost use Rattle.rules.specs.Applying.{left_of, right_of, order_of, arrow_of};
ghost use Rattle.rules.specs.Scenes.{facts_at, node_of};

use crate::outcome::ArrowParts;
use logic::fact::Fact;
use logic::table::FormulaTable;
use logic::terms::{FactView, Link, Node};
use records::numbers::{FactPosition, FormulaNumber, Label};
use stack::stack::Stack;

// The formulas, the facts on the trail, and how many labels there are.
#[derive(Clone, Copy)]
pub(crate) struct Branch<'a> {
    pub(crate) table: &'a FormulaTable,
    pub(crate) trail: &'a Stack<'a, Fact>,
    pub(crate) labels: u16,
}

impl Branch<'_> {
    // The fact at a position, if there is one.
    pub(crate) fn fact(&self, i: FactPosition) -> Option<FactView<FormulaNumber>>
        ensures { result ≡ facts_at (items self.now.trail.now) i }
    {
        self.trail.get(i.0 as usize)?.view()
    }

    // The left formula at a position, and its label.
    pub(crate) fn left(&self, i: FactPosition) -> Option<(Label, FormulaNumber)>
        ensures { result ≡ left_of (facts_at (items self.now.trail.now) i) }
    {
        match self.fact(i)? {
            FactView::Left(x, f) => Some((x, f)),
            _ => None,
        }
    }

    // The right formula at a position, and its label.
    pub(crate) fn right(&self, i: FactPosition) -> Option<(Label, FormulaNumber)>
        ensures { result ≡ right_of (facts_at (items self.now.trail.now) i) }
    {
        match self.fact(i)? {
            FactView::Right(x, f) => Some((x, f)),
            _ => None,
        }
    }

    // The order at a position: its lower and its upper label.
    pub(crate) fn order(&self, i: FactPosition) -> Option<(Label, Label)>
        ensures { result ≡ order_of (facts_at (items self.now.trail.now) i) }
    {
        match self.fact(i)? {
            FactView::Linked(Link::Order(x, y)) => Some((x, y)),
            _ => None,
        }
    }

    // The arrow at a position.
    pub(crate) fn arrow(&self, i: FactPosition) -> Option<ArrowParts>
        ensures { result ≡ arrow_of (facts_at (items self.now.trail.now) i) }
    {
        match self.fact(i)? {
            FactView::Linked(Link::Arrow(modality, principal, from, to)) => Some(ArrowParts {
                modality,
                principal,
                from,
                to,
            }),
            _ => None,
        }
    }

    // The node of a formula; a number past the table's end stands for falsity.
    pub(crate) fn node(&self, f: FormulaNumber) -> Node<FormulaNumber>
        ensures { result ≡ node_of (nodes_of self.now.table.now) f }
    {
        self.table.node(f).unwrap_or(Node::Falsity)
    }
}
