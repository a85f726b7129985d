// RS: from x S_A y to x R_A y.
ghost use Rattle.std.specs.Prelude.{◌≡◌, Decides};
ghost use Rattle.logic.specs.declared.terms.Modality.TheVariants.{Says, Ratified};
ghost use Rattle.logic.specs.declared.terms.Link.TheVariants.{Arrow};
ghost use Rattle.logic.specs.declared.terms.FactView.TheVariants.{Linked};
ghost use Rattle.piles.specs.declared.terms.Premise.TheVariants.{Adds};
ghost use Rattle.piles.specs.declared.terms.Reading.TheVariants.{Goes};
ghost use Rattle.piles.specs.Instances.{of_arrow};
ghost use Rattle.rows.specs.RowsOf.{frame_of};
ghost use Rattle.packs.specs.RsMeaning.{SaysRatified, rs_layout, rs_reading};
ghost use Rattle.packs.specs.Laws.{rs_laws};
ghost use Rattle.packs.specs.Tests.{ratified_test};

use logic::terms::{FactView, Link, Modality};
use piles::each::{at_each_world, of_each_principal};
use piles::layer::Layer;
use piles::terms::{Arity, Layout, Named, Operands, Premise, Reading};
use records::numbers::{Label, Principal, World};
use rows::rows::Rows;

#[derive(Clone, Copy)]
pub struct Rs;

// What an arrow adds.
fn ratified_arrow(modality: Modality, a: Principal, x: Label, y: Label) -> Reading
    ensures { result ≡ of_arrow Says (Linked (Arrow modality a x y)) (λ A u v. Goes (Adds (Arrow Ratified A u v))) }
{
    match modality {
        Modality::Says => Reading::Goes(Premise::Adds(Link::Arrow(Modality::Ratified, a, x, y))),
        _ => Reading::NoInstance,
    }
}

fn ratified_reading(operands: Operands) -> Reading
    ensures { result ≡ rs_reading operands }
{
    match operands.named {
        Named::Single(FactView::Linked(Link::Arrow(modality, a, x, y))) => ratified_arrow(
            modality, a, x, y,
        ),
        _ => Reading::NoInstance,
    }
}

// Whether the ends of A's says arrows from x are ends of its ratified arrows.
fn ratified_at(rows: &Rows, a: Principal, x: World) -> bool
    ensures { result ≡ ratified_test (frame_of rows.now) a.0 x.0 }
{
    let says = rows.ends(Modality::Says, a, x);
    let ratified = rows.ends(Modality::Ratified, a, x);
    says.within(ratified)
}

fn says_ratified(rows: &Rows, principals: u16) -> bool
    ensures { Decides result (SaysRatified principals (frame_of rows.now)) }
{
    of_each_principal(
        principals,
        |a| at_each_world(rows, |x| ratified_at(rows, a, x)),
    )
}

impl Layer for Rs {
    const KIND: u16 = 67;

    ghost KIND = { 67 };

    const OPERANDS: Layout = Layout {
        positions: Arity::One,
        label: false,
        principal: false,
    };

    ghost OPERANDS = { rs_layout };

    ghost condition = { λ _. SaysRatified };

    ghost reading = { λ _ o _ _. rs_reading o };

    ghost own = { rs_laws };

    fn read_own(&self, operands: Operands, _principals: u16, _labels: u16) -> Reading {
        ratified_reading(operands)
    }

    fn holds_in(&self, rows: &Rows, principals: u16) -> bool {
        says_ratified(rows, principals)
    }
}
