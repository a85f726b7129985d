// A layer on a pack: its condition and its kind come first, all else is passed down.
ghost use Rattle.std.specs.Prelude.{◌≡◌, ◌+◌, min};
ghost use Rattle.piles.specs.Layers.{laid_conditions, laid_layouts, laid_readings};
ghost use Rattle.piles.specs.LaidLaws.{laid_laws};
ghost use Rattle.piles.specs.declared.laid.Laid.{Laid};

use crate::layer::Layer;
use crate::pack::Pack;
use crate::terms::{Layout, Operands, Reading};
use records::numbers::ConditionPlace;
use rows::rows::Rows;

#[derive(Drop)]
pub struct Laid<L, B> {
    pub layer: L,
    pub below: B,
}

// The place of a condition of the pack below, counted from the layer.
fn one_further(place: ConditionPlace) -> ConditionPlace
    ensures { result.0 ≡ min (place.0 + 1) 65535 }
{
    ConditionPlace(place.0.saturating_add(1))
}

impl<L: Layer, B: Pack> Pack for Laid<L, B> {
    ghost conditions = { λ s. laid_conditions (L.Layer.condition s.layer) (B.Pack.conditions s.below) };

    ghost layouts = { λ s. laid_layouts L.Layer.KIND L.Layer.OPERANDS (B.Pack.layouts s.below) };

    ghost readings = { λ s. laid_readings L.Layer.KIND (L.Layer.reading s.layer) (B.Pack.readings s.below) };

    ghost lawful = { laid_laws (λ (s : Laid L B). s.layer) (λ (s : Laid L B). s.below) L.Layer.KIND L.Layer.OPERANDS L.Layer.own B.Pack.lawful };

    fn body(&self, kind: u16) -> Option<Layout> {
        if kind == L::KIND {
            Some(L::OPERANDS)
        } else {
            self.below.body(kind)
        }
    }

    fn read(&self, kind: u16, operands: Operands, principals: u16, labels: u16) -> Reading {
        if kind == L::KIND {
            self.layer.read_own(operands, principals, labels)
        } else {
            self.below.read(kind, operands, principals, labels)
        }
    }

    fn judge(&self, rows: &Rows, principals: u16) -> Option<ConditionPlace> {
        if !self.layer.holds_in(rows, principals) {
            return Some(ConditionPlace(0));
        }
        self.below.judge(rows, principals).map(one_further)
    }
}
