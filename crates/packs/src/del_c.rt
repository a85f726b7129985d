// del-C: from x C_B y to x C_A y, or to some z with x S_A z and z C_B y.
ghost use Rattle.std.specs.Prelude.{◌≡◌, ℕ, Bool, ◌||◌, Decides};
ghost use Rattle.rows.specs.Masks.{Mask};
ghost use Rattle.rows.specs.RowsOf.{frame_of};
ghost use Rattle.packs.specs.DelCMeaning.{Delegates, del_c_layout, del_c_reading};
ghost use Rattle.packs.specs.Laws.{del_c_laws};
ghost use Rattle.packs.specs.Tests.{handed_test, delegates_test};

use logic::terms::{FactView, Link, Modality};
use piles::each::{at_each_world, of_each_principal};
use piles::layer::Layer;
use piles::terms::{Arity, Layout, Named, Operands, Premise, Reading};
use records::numbers::{Label, Principal, World};
use rows::masks::WorldSet;
use rows::rows::Rows;

#[derive(Clone, Copy)]
pub struct DelC;

fn handed_reading(operands: Operands, labels: u16) -> Reading
    ensures { result ≡ del_c_reading operands labels }
{
    match (operands.named, operands.principal) {
        (Named::Single(FactView::Linked(Link::Arrow(Modality::Controls, b, x, y))), Some(a)) => {
            let z = Label(labels);
            Reading::Splits(
                Premise::Adds(Link::Arrow(Modality::Controls, a, x, y)),
                Premise::AddsBoth(
                    Link::Arrow(Modality::Says, a, x, z),
                    Link::Arrow(Modality::Controls, b, z, y),
                ),
            )
        }
        _ => Reading::NoInstance,
    }
}

// The worlds of either set: the operator tells what becomes of bits, and this tells it of what the sets mean.
fn either(one: WorldSet, other: WorldSet) -> WorldSet
    ensures { (n : ℕ) (p q : ℕ → Bool) → Mask n one.0 p → Mask n other.0 q → Mask n result.0 (λ y. p y || q y) }
{
    one | other
}

// The worlds y with x S_A z and z C_B y for some z.
fn handed_from(rows: &Rows, a: Principal, b: Principal, x: World) -> WorldSet
    ensures { Mask (frame_of rows.now).worlds result.0 (handed_test (frame_of rows.now) a.0 b.0 x.0) }
{
    let says = rows.ends(Modality::Says, a, x);
    let mut handed = WorldSet(0);
    // a loop, since each world adds to what is gathered: a fold would have the same test in its closure
    for z in 0..rows.worlds() {
        if says.has(World(z)) {
            handed = either(rows.ends(Modality::Controls, b, World(z)), handed);
        }
    }
    handed
}

// Whether each end of B's controls arrows from x is one of A's, or handed on.
fn delegates_at(rows: &Rows, a: Principal, b: Principal, x: World) -> bool
    ensures { result ≡ delegates_test (frame_of rows.now) a.0 b.0 x.0 }
{
    let controlled = rows.ends(Modality::Controls, b, x);
    let own = rows.ends(Modality::Controls, a, x);
    let handed = handed_from(rows, a, b, x);
    controlled.within(either(own, handed))
}

fn every_delegates(rows: &Rows, principals: u16) -> bool
    ensures { Decides result (Delegates principals (frame_of rows.now)) }
{
    of_each_principal(principals, |a| {
        of_each_principal(
            principals,
            |b| at_each_world(rows, |x| delegates_at(rows, a, b, x)),
        )
    })
}

impl Layer for DelC {
    const KIND: u16 = 66;

    ghost KIND = { 66 };

    const OPERANDS: Layout = Layout {
        positions: Arity::One,
        label: false,
        principal: true,
    };

    ghost OPERANDS = { del_c_layout };

    ghost condition = { λ _. Delegates };

    ghost reading = { λ _ o _ n. del_c_reading o n };

    ghost own = { del_c_laws };

    fn read_own(&self, operands: Operands, _principals: u16, labels: u16) -> Reading {
        handed_reading(operands, labels)
    }

    fn holds_in(&self, rows: &Rows, principals: u16) -> bool {
        every_delegates(rows, principals)
    }
}
