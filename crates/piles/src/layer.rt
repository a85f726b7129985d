// One axiom: one condition and one step kind.
ghost use Rattle.std.specs.Prelude.{◌≡◌, ℕ, Decides};
ghost use Rattle.rows.specs.RowsOf.{frame_of};
ghost use Rattle.piles.specs.declared.terms.Layout.{Layout};
ghost use Rattle.piles.specs.declared.terms.Operands.{Operands};
ghost use Rattle.piles.specs.declared.terms.Reading.{Reading};
ghost use Rattle.piles.specs.Packs.{Condition};
ghost use Rattle.piles.specs.Layers.{LayerLaws};

use crate::terms::{Layout, Operands, Reading};
use rows::rows::Rows;

pub trait Layer {
    // the kind, and its body
    const KIND: u16;

    ghost KIND: { ℕ };

    const OPERANDS: Layout;

    ghost OPERANDS: { Layout };

    // the condition on order and arrows
    ghost condition: { Self → Condition };

    // what a step of the kind adds: operands, number of principals, label count
    ghost reading: { Self → Operands → ℕ → ℕ → Reading };

    fn read_own(&self, operands: Operands, principals: u16, labels: u16) -> Reading
        ensures { result ≡ reading self.now operands principals labels };

    // whether the condition holds
    fn holds_in(&self, rows: &Rows, principals: u16) -> bool
        ensures { Decides result (condition self.now principals (frame_of rows.now)) };

    // what each layer shows
    ghost own: { LayerLaws KIND OPERANDS condition reading };
}
