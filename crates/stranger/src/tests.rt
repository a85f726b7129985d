// The layer on the published pile.
use crate::believed::*;
use logic::terms::{Link, Modality};
use packs::published::{Published, published};
use piles::laid::*;
use piles::pack::Pack;
use piles::terms::{Named, Operands, Premise, Reading};
use records::numbers::{ConditionPlace, Label, Principal, World};
use rows::masks::WorldSet;
use rows::rows::Rows;
use std::test::Fail;

// Principal 1 is believed.
fn pile() -> Laid<Believed, Published> {
    Laid {
        layer: Believed { who: Principal(1) },
        below: published(),
    }
}

// The place of the first condition that fails, if any.
fn place(rows: &Rows, principals: u16) -> Option<ConditionPlace> {
    pile().judge(rows, principals)
}

// In one world without arrows principal 1 does not say what is; with one principal only C2P fails, one place further.
#[test]
fn places_are_one_further(rt: HostRuntime) -> Result<(), Fail> {
    let mut rows = Rows::new(1).ok_or_else(|| Fail::new("no rows"))?;
    assert_eq!(rt; place(&rows, 2), Some(ConditionPlace(0)));
    assert_eq!(rt; place(&rows, 1), Some(ConditionPlace(2)));
    rows.set_ends(Modality::Says, Principal(1), World(0), WorldSet(1));
    assert_eq!(rt; place(&rows, 2), Some(ConditionPlace(2)));
    Ok(())
}

// The label 3 is given.
fn of_label() -> Operands {
    Operands {
        named: Named::Nothing,
        label: Some(Label(3)),
        principal: None,
    }
}

// The step adds 3 S_1 3.
fn own_arrow() -> Reading {
    Reading::Goes(Premise::Adds(Link::Arrow(Modality::Says, Principal(1), Label(3), Label(3))))
}

#[test]
fn the_step_reads(rt: HostRuntime) {
    let pile = pile();
    assert_eq!(rt; pile.read(100, of_label(), 2, 5), own_arrow());
    assert_eq!(rt; pile.read(100, of_label(), 1, 5), Reading::NoInstance);
    assert!(rt; pile.body(100).is_some());
    assert!(rt; pile.body(67).is_some());
    assert!(rt; pile.body(101).is_none());
}
