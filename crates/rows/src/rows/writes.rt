// How the rows of a model are made.
ghost use Rattle.std.specs.Prelude.{◌≡◌, ◌<◌, ◌⊎◌, length, get_or, set, MatchOption, slice_index_or, slice_set};
ghost use Rattle.rows.specs.Masks.{no_set};
ghost use Rattle.rows.specs.RowsOf.{no_row, ends_at, with_end, with_row_end};
ghost use Rattle.rows.specs.Written.{AboveSet, EndsSet, AtomSet, Empty};

use crate::masks::{MAX_WORLDS, WorldSet};
use crate::rows::reads::place_of;
use crate::rows::{Arrows, Row, Rows};
use crate::slots::put_at;
use logic::terms::Modality;
use records::numbers::{AtomNumber, Principal, World};

// Another set at place i of a principal's row.
fn put_end(rows: &mut [Row], principal: u16, i: u16, worlds: WorldSet)
    ensures list { rows.new ≡ with_row_end rows.old principal i worlds }
    ensures here { principal < length rows.old → i < 32 → slice_index_or (get_or rows.new principal no_row).ends i no_set ≡ worlds }
{
    let at = principal as usize;
    // As in `put_at`: `get_mut` says nothing of what the slice ends as.
    if at < rows.len() {
        let _ = put_at(&mut rows[at].ends, i, worlds);
    }
}

impl Rows {
    // Rows of 1 to 32 worlds, with no order, no arrow and no atom.
    pub fn new(worlds: u16) -> Option<Rows>
        ensures { MatchOption result ((worlds ≡ 0) ⊎ (32 < worlds)) (λ m. Empty worlds m) }
    {
        if worlds == 0 || worlds > MAX_WORLDS {
            return None;
        }
        let row = Row {
            ends: [WorldSet(0); 32],
        };
        Some(Rows {
            worlds,
            above: [WorldSet(0); 32],
            arrows: [Arrows { of: [row; 8] }; 4],
            atoms: [WorldSet(0); 64],
        })
    }

    // The worlds above a world become those of a set. From world 32 on nothing changes.
    pub fn set_above(&mut self, world: World, worlds: WorldSet)
        ensures { AboveSet world.0 worlds self.old self.new }
    {
        let _ = put_at(&mut self.above, world.0, worlds);
    }

    // The ends of the arrows of a modality and a principal from a world become those of a set. From principal 8 and from
    // world 32 on nothing changes.
    pub fn set_ends(
        &mut self,
        modality: Modality,
        principal: Principal,
        world: World,
        worlds: WorldSet,
    )
        ensures { EndsSet modality principal.0 world.0 worlds self.old self.new }
    {
        let arrows = &mut self.arrows[place_of(modality)];
        put_end(&mut arrows.of, principal.0, world.0, worlds);
    }

    // The worlds where an atom holds become those of a set. From atom 64 on nothing changes.
    pub fn set_atom(&mut self, atom: AtomNumber, worlds: WorldSet)
        ensures { AtomSet atom.0 worlds self.old self.new }
    {
        let _ = put_at(&mut self.atoms, atom.0, worlds);
    }
}
