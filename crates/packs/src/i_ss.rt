// I-SS: from x S_B y and y S_A z to x S_A z.
ghost use Rattle.std.specs.Prelude.{◌≡◌, ◌<◌, Decides};
ghost use Rattle.logic.specs.declared.terms.Modality.TheVariants.{Says};
ghost use Rattle.logic.specs.declared.terms.Link.TheVariants.{Arrow};
ghost use Rattle.piles.specs.declared.terms.Premise.TheVariants.{Adds};
ghost use Rattle.piles.specs.declared.terms.Reading.TheVariants.{Goes};
ghost use Rattle.piles.specs.Instances.{of_same};
ghost use Rattle.logic.specs.Models.{every};
ghost use Rattle.rows.specs.RowsOf.{frame_of};
ghost use Rattle.packs.specs.ISsMeaning.{SaysSays, i_ss_layout, i_ss_reading};
ghost use Rattle.packs.specs.Laws.{i_ss_laws};
ghost use Rattle.packs.specs.Tests.{through_test};

use logic::terms::{FactView, Link, Modality};
use piles::each::{at_each_world, of_each_principal};
use piles::layer::Layer;
use piles::terms::{Arity, Layout, Named, Operands, Premise, Reading};
use records::numbers::{Label, Principal, World};
use rows::rows::Rows;

#[derive(Clone, Copy)]
pub struct ISs;

// The arrow x S_A z, where the second arrow starts at the end of the first.
fn joined_reading(operands: Operands) -> Reading
    ensures { result ≡ i_ss_reading operands }
{
    match operands.named {
        Named::Pair(
            FactView::Linked(Link::Arrow(Modality::Says, _, x, y)),
            FactView::Linked(Link::Arrow(Modality::Says, a, start, z)),
        ) if start == y => Reading::Goes(Premise::Adds(Link::Arrow(Modality::Says, a, x, z))),
        _ => Reading::NoInstance,
    }
}

// Whether the ends of A's says arrows from y are ends of those from x, if B's says arrows from x reach y.
fn says_through(rows: &Rows, a: Principal, b: Principal, x: World, y: World) -> bool
    ensures { y.0 < (frame_of rows.now).worlds → result ≡ through_test (frame_of rows.now) a.0 b.0 x.0 y.0 }
{
    let from_x = rows.ends(Modality::Says, a, x);
    let from_y = rows.ends(Modality::Says, a, y);
    !rows.ends(Modality::Says, b, x).has(y) || from_y.within(from_x)
}

// The same from each world to each world.
fn says_through_all(rows: &Rows, a: Principal, b: Principal) -> bool
    ensures { result ≡ every (frame_of rows.now).worlds (λ x. every (frame_of rows.now).worlds (through_test (frame_of rows.now) a.0 b.0 x)) }
{
    at_each_world(
        rows,
        |x| at_each_world(rows, |y| says_through(rows, a, b, x, y)),
    )
}

fn says_says(rows: &Rows, principals: u16) -> bool
    ensures { Decides result (SaysSays principals (frame_of rows.now)) }
{
    of_each_principal(
        principals,
        |a| of_each_principal(principals, |b| says_through_all(rows, a, b)),
    )
}

impl Layer for ISs {
    const KIND: u16 = 64;

    ghost KIND = { 64 };

    const OPERANDS: Layout = Layout {
        positions: Arity::Two,
        label: false,
        principal: false,
    };

    ghost OPERANDS = { i_ss_layout };

    ghost condition = { λ _. SaysSays };

    ghost reading = { λ _ o _ _. i_ss_reading o };

    ghost own = { i_ss_laws };

    fn read_own(&self, operands: Operands, _principals: u16, _labels: u16) -> Reading {
        joined_reading(operands)
    }

    fn holds_in(&self, rows: &Rows, principals: u16) -> bool {
        says_says(rows, principals)
    }
}
