// What every pack is: conditions on order and arrows, and a reading of step kinds from 64 on.
ghost use Rattle.std.specs.Prelude.{◌≡◌, ℕ, List, Option};
ghost use Rattle.piles.specs.declared.terms.Layout.{Layout};
ghost use Rattle.piles.specs.Packs.{Condition, Readings, Laws, Judged};
ghost use Rattle.rows.specs.RowsOf.{frame_of};

use crate::terms::{Layout, Operands, Reading};
use records::numbers::ConditionPlace;
use rows::rows::Rows;

pub trait Pack {
    // the conditions, from the top
    ghost conditions: { Self → List Condition };

    // the body of a kind
    ghost layouts: { Self → ℕ → Option Layout };

    // what a step of a kind adds
    ghost readings: { Self → Readings };

    fn body(&self, kind: u16) -> Option<Layout>
        ensures { result ≡ layouts self.now kind };

    // operands, principals and labels stay three, as the ghost member takes them: what a pack means is told of the three apart
    fn read(&self, kind: u16, operands: Operands, principals: u16, labels: u16) -> Reading
        ensures { result ≡ readings self.now kind operands principals labels };

    // None where every condition holds, else the place of the first that fails
    fn judge(&self, rows: &Rows, principals: u16) -> Option<ConditionPlace>
        ensures { Judged (conditions self.now) principals (frame_of rows.now) result };

    // what each pack shows
    ghost lawful: { Laws conditions layouts readings };
}
