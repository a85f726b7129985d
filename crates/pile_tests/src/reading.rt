// What steps of the published pile read as.
use crate::quiet::*;
use logic::terms::{FactView, Link, Modality};
use packs::c2p::*;
use packs::del_c::*;
use packs::i_ss::*;
use packs::published::published;
use packs::rs::*;
use piles::bare::*;
use piles::laid::*;
use piles::pack::Pack;
use piles::terms::{Layout, Named, Operands, Premise, Reading};
use records::numbers::{Label, Principal};

fn link(k: Modality, a: u16, x: u16, y: u16) -> Link {
    Link::Arrow(k, Principal(a), Label(x), Label(y))
}

fn arrow(k: Modality, a: u16, x: u16, y: u16) -> FactView<()> {
    FactView::Linked(link(k, a, x, y))
}

// One premise that adds this arrow.
fn adds(k: Modality, a: u16, x: u16, y: u16) -> Reading {
    Reading::Goes(Premise::Adds(link(k, a, x, y)))
}

fn of_one(fact: FactView<()>) -> Operands {
    Operands {
        named: Named::Single(fact),
        label: None,
        principal: None,
    }
}

fn of_two(one: FactView<()>, other: FactView<()>) -> Operands {
    Operands {
        named: Named::Pair(one, other),
        label: None,
        principal: None,
    }
}

fn of_one_and(fact: FactView<()>, a: u16) -> Operands {
    Operands {
        named: Named::Single(fact),
        label: None,
        principal: Some(Principal(a)),
    }
}

fn of_label(x: u16, a: u16) -> Operands {
    Operands {
        named: Named::Nothing,
        label: Some(Label(x)),
        principal: Some(Principal(a)),
    }
}

// Three principals, five labels: the new label is 5.
fn read(kind: u16, operands: Operands) -> Reading {
    let pile = published();
    pile.read(kind, operands, 3, 5)
}

fn has_principal(body: Option<Layout>) -> bool {
    body.is_some_and(|layout| layout.principal)
}

// 0 S_1 2 and 2 S_0 4 add 0 S_0 4; with another start there is no instance.
#[test]
fn i_ss_joins(rt: HostRuntime) {
    let first = arrow(Modality::Says, 1, 0, 2);
    assert_eq!(rt;
        read(64, of_two(first, arrow(Modality::Says, 0, 2, 4))),
        adds(Modality::Says, 0, 0, 4)
    );
    assert_eq!(rt;
        read(64, of_two(first, arrow(Modality::Says, 0, 3, 4))),
        Reading::NoInstance
    );
    assert_eq!(rt;
        read(64, of_two(first, arrow(Modality::Ratified, 0, 2, 4))),
        Reading::NoInstance
    );
    assert_eq!(rt;
        read(
            64,
            of_two(
                arrow(Modality::Controls, 1, 0, 2),
                arrow(Modality::Says, 0, 2, 4)
            )
        ),
        Reading::NoInstance
    );
}

// Label 3 and principal 2 add 3 C_2 5 and 3 P_2 5.
#[test]
fn c2p_opens(rt: HostRuntime) {
    assert_eq!(rt;
        read(65, of_label(3, 2)),
        Reading::Goes(Premise::AddsBoth(
            link(Modality::Controls, 2, 3, 5),
            link(Modality::Permitted, 2, 3, 5)
        ))
    );
}

// 1 C_0 4 and principal 2 add 1 C_2 4, or 1 S_2 5 and 5 C_0 4.
#[test]
fn del_c_splits(rt: HostRuntime) {
    let fact = arrow(Modality::Controls, 0, 1, 4);
    assert_eq!(rt;
        read(66, of_one_and(fact, 2)),
        Reading::Splits(
            Premise::Adds(link(Modality::Controls, 2, 1, 4)),
            Premise::AddsBoth(
                link(Modality::Says, 2, 1, 5),
                link(Modality::Controls, 0, 5, 4)
            )
        )
    );
    assert_eq!(rt;
        read(66, of_one_and(arrow(Modality::Says, 0, 1, 4), 2)),
        Reading::NoInstance
    );
}

// 3 S_1 4 adds 3 R_1 4; from an arrow of ratified nothing is read.
#[test]
fn rs_ratifies(rt: HostRuntime) {
    assert_eq!(rt;
        read(67, of_one(arrow(Modality::Says, 1, 3, 4))),
        adds(Modality::Ratified, 1, 3, 4)
    );
    assert_eq!(rt;
        read(67, of_one(arrow(Modality::Ratified, 1, 3, 4))),
        Reading::NoInstance
    );
    assert_eq!(rt;
        read(
            67,
            of_one(FactView::Linked(Link::Order(Label(3), Label(4))))
        ),
        Reading::NoInstance
    );
}

// A formula where an arrow is wanted is no instance.
#[test]
fn formulas_are_no_arrows(rt: HostRuntime) {
    let says = arrow(Modality::Says, 1, 3, 4);
    assert_eq!(rt;
        read(67, of_one(FactView::Left(Label(3), ()))),
        Reading::NoInstance
    );
    assert_eq!(rt;
        read(67, of_one(FactView::Right(Label(3), ()))),
        Reading::NoInstance
    );
    assert_eq!(rt;
        read(66, of_one_and(FactView::Right(Label(3), ()), 1)),
        Reading::NoInstance
    );
    assert_eq!(rt;
        read(64, of_two(says, FactView::Left(Label(4), ()))),
        Reading::NoInstance
    );
    assert_eq!(rt;
        read(64, of_two(FactView::Left(Label(3), ()), says)),
        Reading::NoInstance
    );
}

// Kinds that no layer has are unknown, and no body is told for them.
#[test]
fn other_kinds_are_unknown(rt: HostRuntime) {
    let says = of_one(arrow(Modality::Says, 1, 3, 4));
    assert_eq!(rt; read(63, says), Reading::Unknown);
    assert_eq!(rt; read(68, says), Reading::Unknown);
    let pile = published();
    assert!(rt; pile.body(68).is_none());
    assert!(rt; pile.body(63).is_none());
    assert!(rt; Bare.body(64).is_none());
    assert!(rt; pile.body(64).is_some());
}

// Of two layers of one kind the upper one answers.
#[test]
fn the_upper_layer_answers(rt: HostRuntime) {
    let says = of_one(arrow(Modality::Says, 1, 3, 4));
    let quiet = Laid {
        layer: Quiet,
        below: published(),
    };
    assert_eq!(rt; quiet.read(67, says, 3, 5), Reading::NoInstance);
    assert!(rt; has_principal(quiet.body(67)));
    assert!(rt; !has_principal(published().body(67)));
    let loud = Laid {
        layer: Rs,
        below: Laid {
            layer: Quiet,
            below: Bare,
        },
    };
    assert_eq!(rt;
        loud.read(67, says, 3, 5),
        adds(Modality::Ratified, 1, 3, 4)
    );
}

// A step passes down through a deep pile.
#[test]
fn a_deep_pile_reads(rt: HostRuntime) {
    let three = Laid {
        layer: C2p,
        below: Laid {
            layer: DelC,
            below: Laid {
                layer: ISs,
                below: Laid {
                    layer: Rs,
                    below: Bare,
                },
            },
        },
    };
    let pile = Laid {
        layer: ISs,
        below: Laid {
            layer: C2p,
            below: three,
        },
    };
    assert_eq!(rt;
        pile.read(67, of_one(arrow(Modality::Says, 1, 3, 4)), 3, 5),
        adds(Modality::Ratified, 1, 3, 4)
    );
}
