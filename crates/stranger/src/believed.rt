// What one principal says is so.
ghost use Rattle.std.specs.Prelude.{◌≡◌, ◌<◌, if◌then◌else◌, Decides, nat_lt};
ghost use Rattle.logic.specs.declared.terms.Modality.TheVariants.{Says};
ghost use Rattle.logic.specs.declared.terms.Link.TheVariants.{Arrow};
ghost use Rattle.piles.specs.declared.terms.Premise.TheVariants.{Adds};
ghost use Rattle.piles.specs.declared.terms.Reading.TheVariants.{NoInstance, Goes};
ghost use Rattle.rows.specs.RowsOf.{frame_of};
ghost use Rattle.stranger.specs.BelievedMeaning.{SaysWhatIs, SaidIsSo, believed_layout, believed_reading};
ghost use Rattle.stranger.specs.Laws.{believed_laws};

use logic::terms::{Link, Modality};
use piles::each::at_each_world;
use piles::layer::Layer;
use piles::terms::{Arity, Layout, Named, Operands, Premise, Reading};
use records::numbers::{Label, Principal, World};
use rows::rows::Rows;

// The layer holds the principal that is believed.
#[derive(Clone, Copy)]
pub struct Believed {
    pub who: Principal,
}

// The arrow x S_A x, if A is one of the principals.
fn says_itself(who: Principal, x: Label, principals: u16) -> Reading
    ensures { result ≡ (if nat_lt who.0 principals then Goes (Adds (Arrow Says who x x)) else NoInstance) }
{
    if who.0 < principals {
        Reading::Goes(Premise::Adds(Link::Arrow(Modality::Says, who, x, x)))
    } else {
        Reading::NoInstance
    }
}

fn reading_of(who: Principal, operands: Operands, principals: u16) -> Reading
    ensures { result ≡ believed_reading who operands principals }
{
    match (operands.named, operands.label) {
        (Named::Nothing, Some(x)) => says_itself(who, x, principals),
        _ => Reading::NoInstance,
    }
}

fn says_at(rows: &Rows, who: Principal, x: World) -> bool
    ensures { x.0 < (frame_of rows.now).worlds → result ≡ (frame_of rows.now).arrow Says who.0 x.0 x.0 }
{
    rows.ends(Modality::Says, who, x).has(x)
}

fn says_what_is(rows: &Rows, who: Principal, principals: u16) -> bool
    ensures { Decides result (SaysWhatIs who principals (frame_of rows.now)) }
{
    who.0 >= principals || at_each_world(rows, |x| says_at(rows, who, x))
}

impl Layer for Believed {
    const KIND: u16 = 100;

    ghost KIND = { 100 };

    const OPERANDS: Layout = Layout {
        positions: Arity::Zero,
        label: true,
        principal: false,
    };

    ghost OPERANDS = { believed_layout };

    ghost condition = { λ s. SaysWhatIs s.who };

    ghost reading = { λ s o P _. believed_reading s.who o P };

    ghost own = { believed_laws };

    fn read_own(&self, operands: Operands, principals: u16, _labels: u16) -> Reading {
        reading_of(self.who, operands, principals)
    }

    fn holds_in(&self, rows: &Rows, principals: u16) -> bool {
        says_what_is(rows, self.who, principals)
    }
}

// What the believed principal says holds wherever the condition does.
pub fn said_is_so(layer: Believed)
    ensures { SaidIsSo layer.who }
{}
