// The pack with no kind and no condition.
ghost use Rattle.std.specs.Prelude.{[], None};
ghost use Rattle.piles.specs.declared.terms.Reading.TheVariants.{Unknown};
ghost use Rattle.piles.specs.BareLaws.{bare_laws};

use crate::pack::Pack;
use crate::terms::{Layout, Operands, Reading};
use records::numbers::ConditionPlace;
use rows::rows::Rows;

#[derive(Clone, Copy)]
pub struct Bare;

impl Pack for Bare {
    ghost conditions = { λ _. [] };

    ghost layouts = { λ _ _. None };

    ghost readings = { λ _ _ _ _ _. Unknown };

    ghost lawful = { bare_laws };

    fn body(&self, _kind: u16) -> Option<Layout> {
        None
    }

    fn read(&self, _kind: u16, _operands: Operands, _principals: u16, _labels: u16) -> Reading {
        Reading::Unknown
    }

    fn judge(&self, _rows: &Rows, _principals: u16) -> Option<ConditionPlace> {
        None
    }
}
