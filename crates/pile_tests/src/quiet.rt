// A layer of the kind of RS that asks nothing and has no instance.
ghost use Rattle.piles.specs.declared.terms.Arity.TheVariants.{One};
ghost use Rattle.std.specs.Prelude.{true, false};
ghost use Rattle.piles.specs.declared.terms.Reading.TheVariants.{NoInstance};
ghost use Rattle.pile_tests.specs.QuietLaws.{quiet_laws};

use piles::layer::Layer;
use piles::terms::{Arity, Layout, Operands, Reading};
use rows::rows::Rows;

#[derive(Clone, Copy)]
pub struct Quiet;

impl Layer for Quiet {
    const KIND: u16 = 67;

    ghost KIND = { 67 };

    const OPERANDS: Layout = Layout {
        positions: Arity::One,
        label: false,
        principal: true,
    };

    ghost OPERANDS = { record { positions = One; label = false; principal = true } };

    ghost condition = { λ _ P F. Unit {0} };

    ghost reading = { λ _ o P n. NoInstance };

    ghost own = { quiet_laws };

    fn read_own(&self, _operands: Operands, _principals: u16, _labels: u16) -> Reading {
        Reading::NoInstance
    }

    fn holds_in(&self, _rows: &Rows, _principals: u16) -> bool {
        true
    }
}
