// The kinds of step records.
ghost use Rattle.std.specs.Prelude.{◌≡◌, length};
ghost use Rattle.rules.specs.Contents.{closing_at, left_arrow_at, left_order_at, one_label, one_position, order_arrow_order_at, right_arrow_at, two_orders_at};

use crate::contents::*;
use records::bytes::word_at;
use records::kind::RecordKind;
use records::numbers::{FactPosition, Label};

// The kind, by its number, of a step that names one fact.
pub struct OnePosition<const NUMBER: u16>;

impl<const NUMBER: u16> RecordKind for OnePosition<NUMBER> {
    type Content = FactPosition;

    const KIND: u16 = NUMBER;

    ghost KIND = { NUMBER };

    const SIZE: usize = 2;

    ghost SIZE = { 2 };

    ghost content = { one_position };

    fn read(body: &[u8]) -> FactPosition {
        read_position(body, 0)
    }
}

// An atom on the left, the same on the right, and an order between their labels: the branch closes.
pub struct AtomsClose;

impl RecordKind for AtomsClose {
    type Content = Closing;

    const KIND: u16 = 32;

    ghost KIND = { 32 };

    const SIZE: usize = 6;

    ghost SIZE = { 6 };

    ghost content = { closing_at };

    fn read(body: &[u8]) -> Closing {
        Closing {
            left: read_position(body, 0),
            right: read_position(body, 2),
            order: read_position(body, 4),
        }
    }
}

// Falsity on the left: the branch closes.
pub type FalsityCloses = OnePosition<33>;

// A conjunction on the left.
pub type AndLeft = OnePosition<34>;

// A conjunction on the right.
pub type AndRight = OnePosition<35>;

// A disjunction on the left.
pub type OrLeft = OnePosition<36>;

// A disjunction on the right.
pub type OrRight = OnePosition<37>;

// An implication on the left, and an order from its label.
pub struct ImpliesLeft;

impl RecordKind for ImpliesLeft {
    type Content = LeftOrder;

    const KIND: u16 = 38;

    ghost KIND = { 38 };

    const SIZE: usize = 4;

    ghost SIZE = { 4 };

    ghost content = { left_order_at };

    fn read(body: &[u8]) -> LeftOrder {
        LeftOrder {
            left: read_position(body, 0),
            order: read_position(body, 2),
        }
    }
}

// An implication on the right.
pub type ImpliesRight = OnePosition<39>;

// Says, controls or ratified on the left, and its arrow.
pub struct ModalLeft;

impl RecordKind for ModalLeft {
    type Content = LeftArrow;

    const KIND: u16 = 40;

    ghost KIND = { 40 };

    const SIZE: usize = 4;

    ghost SIZE = { 4 };

    ghost content = { left_arrow_at };

    fn read(body: &[u8]) -> LeftArrow {
        LeftArrow {
            left: read_position(body, 0),
            arrow: read_position(body, 2),
        }
    }
}

// Says, controls or ratified on the right.
pub type ModalRight = OnePosition<41>;

// Permitted on the left.
pub type PermittedLeft = OnePosition<42>;

// Permitted on the right, and its arrow.
pub struct PermittedRight;

impl RecordKind for PermittedRight {
    type Content = RightArrow;

    const KIND: u16 = 43;

    ghost KIND = { 43 };

    const SIZE: usize = 4;

    ghost SIZE = { 4 };

    ghost content = { right_arrow_at };

    fn read(body: &[u8]) -> RightArrow {
        RightArrow {
            right: read_position(body, 0),
            arrow: read_position(body, 2),
        }
    }
}

// A label is below itself.
pub struct Reflexive;

impl RecordKind for Reflexive {
    type Content = Label;

    const KIND: u16 = 44;

    ghost KIND = { 44 };

    const SIZE: usize = 2;

    ghost SIZE = { 2 };

    ghost content = { one_label };

    fn read(body: &[u8]) -> Label {
        Label(word_at(body, 0))
    }
}

// Two orders, one after the other.
pub struct Transitive;

impl RecordKind for Transitive {
    type Content = TwoOrders;

    const KIND: u16 = 45;

    ghost KIND = { 45 };

    const SIZE: usize = 4;

    ghost SIZE = { 4 };

    ghost content = { two_orders_at };

    fn read(body: &[u8]) -> TwoOrders {
        TwoOrders {
            first: read_position(body, 0),
            second: read_position(body, 2),
        }
    }
}

// An order, an arrow and an order.
pub struct Monotone;

impl RecordKind for Monotone {
    type Content = OrderArrowOrder;

    const KIND: u16 = 46;

    ghost KIND = { 46 };

    const SIZE: usize = 6;

    ghost SIZE = { 6 };

    ghost content = { order_arrow_order_at };

    fn read(body: &[u8]) -> OrderArrowOrder {
        OrderArrowOrder {
            first: read_position(body, 0),
            arrow: read_position(body, 2),
            second: read_position(body, 4),
        }
    }
}
