use crate::fact::Fact;
use crate::table::{FormulaTable, PushError};
use crate::terms::{FactView, Link, Modality, Node};
use records::numbers::{AtomNumber, FormulaNumber, Label, Principal};
use stack::blank::Blank;

// Controls is 7, 8 is ratified, and numbers outside 6 to 9 name nothing.
#[test]
fn modalities_by_number(rt: HostRuntime) {
    assert_eq!(rt; u16::from(Modality::Controls), 7);
    assert_eq!(rt; Modality::try_from(8), Ok(Modality::Ratified));
    assert!(rt; Modality::try_from(5).is_err());
    assert!(rt; Modality::try_from(10).is_err());
}

// An arrow of permission of principal 2 from label 1 to label 3, and the blank place.
#[test]
fn facts_in_places(rt: HostRuntime) {
    let arrow = Link::Arrow(Modality::Permitted, Principal(2), Label(1), Label(3));
    let fact = Fact::from(FactView::Linked(arrow));
    assert!(rt; !fact.is_blank());
    assert_eq!(rt; fact.view(), Some(FactView::Linked(arrow)));
    let blank: Fact = Blank::blank();
    assert!(rt; blank.is_blank());
    assert_eq!(rt; blank.view(), None);
}

// Formula 0 is an atom, 1 is a conjunction of it with itself; 2 is not there, and a part may not be.
#[test]
fn formulas_by_number(rt: HostRuntime) {
    let mut table = FormulaTable::new();
    let f = FormulaNumber(0);
    assert_eq!(rt; table.push(Node::Atom(AtomNumber(5))), Ok(f));
    let itself = Node::Or(f, FormulaNumber(1));
    assert_eq!(rt; table.push(itself), Err(PushError::Part));
    assert_eq!(rt; table.push(Node::And(f, f)), Ok(FormulaNumber(1)));
    assert_eq!(rt; table.node(FormulaNumber(1)), Some(Node::And(f, f)));
    assert_eq!(rt; table.node(FormulaNumber(2)), None);
    table.cut(1);
    assert_eq!(rt; table.len(), 1);
}
