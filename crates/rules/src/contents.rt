// What the bodies of step records hold: positions of facts in the branch.
ghost use Rattle.std.specs.Prelude.{◌≡◌, ◌+◌, ◌≤◌, length};
ghost use Rattle.rules.specs.Contents.{position_at};

use records::bytes::word_at;
use records::numbers::FactPosition;

// Structs of two or three positions, each with fields of its own: they say what has to stand at a position, which an array would not.

// A left formula, a right formula and an order.
#[derive(Clone, Copy, PartialEq, Eq, Debug)]
pub struct Closing {
    pub left: FactPosition,
    pub right: FactPosition,
    pub order: FactPosition,
}

// A left formula and an order.
#[derive(Clone, Copy, PartialEq, Eq, Debug)]
pub struct LeftOrder {
    pub left: FactPosition,
    pub order: FactPosition,
}

// A left formula and an arrow.
#[derive(Clone, Copy, PartialEq, Eq, Debug)]
pub struct LeftArrow {
    pub left: FactPosition,
    pub arrow: FactPosition,
}

// A right formula and an arrow.
#[derive(Clone, Copy, PartialEq, Eq, Debug)]
pub struct RightArrow {
    pub right: FactPosition,
    pub arrow: FactPosition,
}

// Two orders.
#[derive(Clone, Copy, PartialEq, Eq, Debug)]
pub struct TwoOrders {
    pub first: FactPosition,
    pub second: FactPosition,
}

// An order, an arrow and an order.
#[derive(Clone, Copy, PartialEq, Eq, Debug)]
pub struct OrderArrowOrder {
    pub first: FactPosition,
    pub arrow: FactPosition,
    pub second: FactPosition,
}

// The position that stands at byte `at`.
pub fn read_position(body: &[u8], at: usize) -> FactPosition
    requires { at + 2 ≤ length body.now }
    ensures { result ≡ position_at body.now at }
{
    FactPosition(word_at(body, at))
}
