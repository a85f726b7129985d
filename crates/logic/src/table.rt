// The formula table: at most 256 formulas, and each formula's parts have smaller numbers than the formula.
mod calls;

ghost use Rattle.std.specs.Prelude.{◌≡◌, true};
ghost use Rattle.lists.specs.Listed.{listed};
ghost use Rattle.logic.specs.Formulas.{all_fall};

use crate::terms::Node;
use lists::fixed::FixedList;
use records::numbers::FormulaNumber;

// How many formulas a table may have.
pub const MAX_FORMULAS: usize = 256;

#[derive(Clone, Copy)]
pub struct FormulaTable {
    list: FixedList<Node<FormulaNumber>, MAX_FORMULAS>,
    ghost falling: { all_fall 0 (listed list) ≡ true },
}

// Why a node is refused: a part has no number yet, or there is no room.
#[derive(Clone, Copy, PartialEq, Eq, Debug)]
pub enum PushError {
    Part,
    Full,
}
