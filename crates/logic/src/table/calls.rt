// The calls of the formula table.
ghost use Rattle.std.specs.Prelude.{◌≡◌, ◌≤◌, [], ◌∷◌, ◌++◌, length, take, nat_lt};
ghost use Rattle.logic.specs.Formulas.{falls};
ghost use Rattle.logic.specs.Tables.{nodes_of, node_at, push_answer, pushed, TreesKept};

use crate::table::{FormulaTable, PushError};
use crate::terms::Node;
use lists::fixed::FixedList;
use records::numbers::FormulaNumber;

// Whether a number is below `at`.
fn below(f: FormulaNumber, at: usize) -> bool
    ensures { result ≡ nat_lt f.0 at }
{
    usize::from(f.0) < at
}

// Whether the parts of a node have numbers below `at`.
fn parts_below(node: Node<FormulaNumber>, at: usize) -> bool
    ensures { result ≡ falls at node }
{
    match node {
        Node::Atom(_) | Node::Falsity => true,
        Node::And(f, g) | Node::Or(f, g) | Node::Implies(f, g) => below(f, at) && below(g, at),
        Node::Modal(_, _, f) => below(f, at),
    }
}

impl FormulaTable {
    // A table with no formula.
    pub fn new() -> FormulaTable
        ensures { nodes_of result ≡ [] }
    {
        FormulaTable {
            list: FixedList::new(Node::Falsity),
        }
    }

    // How many formulas there are.
    pub fn len(&self) -> usize
        ensures count { result ≡ length (nodes_of self.now) }
        ensures most { result ≤ 256 }
    {
        self.list.len()
    }

    // The node of a formula, if the table has that number.
    pub fn node(&self, formula: FormulaNumber) -> Option<Node<FormulaNumber>>
        ensures { result ≡ node_at (nodes_of self.now) formula }
    {
        self.list.get(usize::from(formula.0))
    }

    // One formula more, and its number; refused where a part has no number yet, or else there is no room.
    #[tactic(auto, using(crate::proofs::Pushes::push_falls, crate::proofs::Pushes::push_trees))]
    pub fn push(&mut self, node: Node<FormulaNumber>) -> Result<FormulaNumber, PushError>
        ensures answer { result ≡ push_answer (nodes_of self.old) node }
        ensures after { nodes_of self.new ≡ pushed (nodes_of self.old) node result }
        ensures trees { TreesKept (nodes_of self.old) (nodes_of self.new) }
    {
        let at = self.len();
        if !parts_below(node, at) {
            return Err(PushError::Part);
        }
        self.list.push(node).map_err(|_| PushError::Full)?;
        Ok(FormulaNumber(at as u16))
    }

    // Back to the first `len` formulas.
    #[tactic(auto, using(crate::proofs::Falling::all_fall_take))]
    pub fn cut(&mut self, len: usize)
        ensures { nodes_of self.new ≡ take len (nodes_of self.old) }
    {
        self.list.cut(len);
    }
}
