// C2P: at a label x some y with x C_A y and x P_A y.
ghost use Rattle.std.specs.Prelude.{◌≡◌, Decides};
ghost use Rattle.rows.specs.RowsOf.{frame_of};
ghost use Rattle.packs.specs.C2pMeaning.{ControlsPermits, c2p_layout, c2p_reading};
ghost use Rattle.packs.specs.Laws.{c2p_laws};
ghost use Rattle.packs.specs.Tests.{shared_test};

use logic::terms::{Link, Modality};
use piles::each::{at_each_world, of_each_principal};
use piles::layer::Layer;
use piles::terms::{Arity, Layout, Named, Operands, Premise, Reading};
use records::numbers::{Label, Principal, World};
use rows::rows::Rows;

#[derive(Clone, Copy)]
pub struct C2p;

fn shared_reading(operands: Operands, labels: u16) -> Reading
    ensures { result ≡ c2p_reading operands labels }
{
    match (operands.named, operands.label, operands.principal) {
        (Named::Nothing, Some(x), Some(a)) => {
            let y = Label(labels);
            Reading::Goes(Premise::AddsBoth(
                Link::Arrow(Modality::Controls, a, x, y),
                Link::Arrow(Modality::Permitted, a, x, y),
            ))
        }
        _ => Reading::NoInstance,
    }
}

// Whether a controls arrow and a permitted arrow of A from x have an end in common.
fn shared_end(rows: &Rows, a: Principal, x: World) -> bool
    ensures { result ≡ shared_test (frame_of rows.now) a.0 x.0 }
{
    let controls = rows.ends(Modality::Controls, a, x);
    let permitted = rows.ends(Modality::Permitted, a, x);
    controls.meets(permitted)
}

fn controls_permits(rows: &Rows, principals: u16) -> bool
    ensures { Decides result (ControlsPermits principals (frame_of rows.now)) }
{
    of_each_principal(
        principals,
        |a| at_each_world(rows, |x| shared_end(rows, a, x)),
    )
}

impl Layer for C2p {
    const KIND: u16 = 65;

    ghost KIND = { 65 };

    const OPERANDS: Layout = Layout {
        positions: Arity::Zero,
        label: true,
        principal: true,
    };

    ghost OPERANDS = { c2p_layout };

    ghost condition = { λ _. ControlsPermits };

    ghost reading = { λ _ o _ n. c2p_reading o n };

    ghost own = { c2p_laws };

    fn read_own(&self, operands: Operands, _principals: u16, labels: u16) -> Reading {
        shared_reading(operands, labels)
    }

    fn holds_in(&self, rows: &Rows, principals: u16) -> bool {
        controls_permits(rows, principals)
    }
}
