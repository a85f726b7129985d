// Places of conditions, counted from the top.
use crate::quiet::*;
use logic::terms::Modality;
use packs::c2p::*;
use packs::del_c::*;
use packs::i_ss::*;
use packs::published::published;
use packs::rs::*;
use piles::bare::*;
use piles::laid::*;
use piles::pack::Pack;
use records::numbers::{ConditionPlace, Principal, World};
use rows::masks::WorldSet;
use rows::rows::Rows;
use std::test::Fail;

// The ends of principal 0's arrows from world 0 and from world 1, as sets.
#[derive(Clone, Copy)]
struct Ends(u32, u32);

fn set(rows: &mut Rows, modality: Modality, principal: u16, ends: Ends) {
    rows.set_ends(modality, Principal(principal), World(0), WorldSet(ends.0));
    rows.set_ends(modality, Principal(principal), World(1), WorldSet(ends.1));
}

// Two worlds and the arrows of principal 0.
fn two_worlds(says: Ends, controls: Ends, ratified: Ends, permitted: Ends) -> Result<Rows, Fail> {
    let mut rows = Rows::new(2).ok_or_else(|| Fail::new("no rows"))?;
    set(&mut rows, Modality::Says, 0, says);
    set(&mut rows, Modality::Controls, 0, controls);
    set(&mut rows, Modality::Ratified, 0, ratified);
    set(&mut rows, Modality::Permitted, 0, permitted);
    Ok(rows)
}

// The place that the published pile answers, if a condition fails.
fn place(rows: &Rows, principals: u16) -> Option<ConditionPlace> {
    published().judge(rows, principals)
}

const EVERY: Ends = Ends(3, 3);

const NONE: Ends = Ends(0, 0);

#[test]
fn every_arrow_is_admitted(rt: HostRuntime) -> Result<(), Fail> {
    let rows = two_worlds(EVERY, EVERY, EVERY, EVERY)?;
    assert_eq!(rt; place(&rows, 1), None);
    Ok(())
}

// 0 says to 1 and 1 to 0, but 0 not to 0.
#[test]
fn i_ss_is_first(rt: HostRuntime) -> Result<(), Fail> {
    let rows = two_worlds(Ends(2, 1), EVERY, EVERY, EVERY)?;
    assert_eq!(rt; place(&rows, 1), Some(ConditionPlace(0)));
    Ok(())
}

// From world 1 the controls arrow ends at 0, the permitted arrow at 1.
#[test]
fn c2p_is_second(rt: HostRuntime) -> Result<(), Fail> {
    let rows = two_worlds(EVERY, Ends(3, 1), EVERY, Ends(3, 2))?;
    assert_eq!(rt; place(&rows, 1), Some(ConditionPlace(1)));
    Ok(())
}

// Principal 0 controls up to world 1, principal 1 only to world 0 and says nothing. Alone, principal 0 is fine.
#[test]
fn del_c_is_third(rt: HostRuntime) -> Result<(), Fail> {
    let mut rows = two_worlds(NONE, EVERY, NONE, EVERY)?;
    set(&mut rows, Modality::Controls, 1, Ends(1, 1));
    set(&mut rows, Modality::Permitted, 1, EVERY);
    assert_eq!(rt; place(&rows, 2), Some(ConditionPlace(2)));
    assert_eq!(rt; place(&rows, 1), None);
    // principal 1 says to world 0, from where principal 0 controls up to world 1
    set(&mut rows, Modality::Says, 1, Ends(1, 1));
    set(&mut rows, Modality::Ratified, 1, Ends(1, 1));
    assert_eq!(rt; place(&rows, 2), None);
    Ok(())
}

// From world 1 says reaches both worlds, ratified one.
#[test]
fn rs_is_fourth(rt: HostRuntime) -> Result<(), Fail> {
    let rows = two_worlds(EVERY, EVERY, Ends(3, 1), EVERY)?;
    assert_eq!(rt; place(&rows, 1), Some(ConditionPlace(3)));
    Ok(())
}

// What is ratified need not be said.
#[test]
fn more_ratified_than_said(rt: HostRuntime) -> Result<(), Fail> {
    let rows = two_worlds(Ends(1, 1), EVERY, EVERY, EVERY)?;
    assert_eq!(rt; place(&rows, 1), None);
    Ok(())
}

// Where I-SS and RS both fail, I-SS is the first.
#[test]
fn the_first_counts(rt: HostRuntime) -> Result<(), Fail> {
    let rows = two_worlds(Ends(2, 1), EVERY, NONE, EVERY)?;
    assert_eq!(rt; place(&rows, 1), Some(ConditionPlace(0)));
    Ok(())
}

// RS below six other layers, some of them twice.
#[test]
fn a_deep_pile(rt: HostRuntime) -> Result<(), Fail> {
    let rows = two_worlds(EVERY, EVERY, Ends(3, 1), EVERY)?;
    let three = Laid {
        layer: ISs,
        below: Laid {
            layer: DelC,
            below: Laid {
                layer: Rs,
                below: Bare,
            },
        },
    };
    let pile = Laid {
        layer: C2p,
        below: Laid {
            layer: Quiet,
            below: Laid {
                layer: ISs,
                below: Laid {
                    layer: C2p,
                    below: three,
                },
            },
        },
    };
    assert_eq!(rt; pile.judge(&rows, 1), Some(ConditionPlace(6)));
    Ok(())
}

// The same layer twice has two places, and the upper one is answered.
#[test]
fn a_layer_twice(rt: HostRuntime) -> Result<(), Fail> {
    let rows = two_worlds(EVERY, EVERY, Ends(3, 1), EVERY)?;
    let pile = Laid {
        layer: Rs,
        below: Laid {
            layer: Rs,
            below: Bare,
        },
    };
    assert_eq!(rt; pile.judge(&rows, 1), Some(ConditionPlace(0)));
    Ok(())
}

// A kind that another layer shadows keeps its condition.
#[test]
fn a_shadowed_condition(rt: HostRuntime) -> Result<(), Fail> {
    let rows = two_worlds(EVERY, EVERY, Ends(3, 1), EVERY)?;
    let pile = Laid {
        layer: Quiet,
        below: Laid {
            layer: Rs,
            below: Bare,
        },
    };
    assert_eq!(rt; pile.judge(&rows, 1), Some(ConditionPlace(1)));
    Ok(())
}
