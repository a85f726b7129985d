// How the rows of a model are read.
ghost use Rattle.std.specs.Prelude.{◌≡◌, ◌<◌, ◌≤◌, ℕ, Bool, get_or, slice_index_or};
ghost use Rattle.rows.specs.Masks.{bit, Mask, no_set};
ghost use Rattle.rows.specs.RowsOf.{no_row, frame_of, model_of, modality_place};

use crate::masks::{WorldSet, set_at};
use crate::rows::{Row, Rows};
use logic::terms::Modality;
use records::numbers::{AtomNumber, Principal, World};

// Set i of a principal's row, or the empty set.
fn end_at(rows: &[Row], principal: u16, i: u16) -> WorldSet
    ensures { result ≡ slice_index_or (get_or rows.now principal no_row).ends i no_set }
{
    rows.get(principal as usize)
        .map_or(WorldSet(0), |row| set_at(&row.ends, i))
}

// The place of a modality's arrows.
pub(super) fn place_of(modality: Modality) -> usize
    ensures { result ≡ modality_place modality }
{
    modality as usize
}

impl Rows {
    // How many worlds there are.
    pub fn worlds(&self) -> u16
        ensures count { result ≡ (frame_of self.now).worlds }
        ensures inhabited { 1 ≤ result }
        ensures few { result ≤ 32 }
    {
        self.worlds
    }

    // The worlds above a world.
    pub fn above(&self, world: World) -> WorldSet
        ensures { Mask (frame_of self.now).worlds result.0 ((frame_of self.now).above world.0) }
    {
        self.cut(set_at(&self.above, world.0))
    }

    // The ends of the arrows of a modality and a principal from a world.
    pub fn ends(&self, modality: Modality, principal: Principal, world: World) -> WorldSet
        ensures { Mask (frame_of self.now).worlds result.0 ((frame_of self.now).arrow modality principal.0 world.0) }
    {
        self.cut(end_at(&self.arrows[place_of(modality)].of, principal.0, world.0))
    }

    // The worlds where an atom holds.
    pub fn atom(&self, atom: AtomNumber) -> WorldSet
        ensures { Mask (frame_of self.now).worlds result.0 ((model_of self.now).row atom.0) }
    {
        self.cut(set_at(&self.atoms, atom.0))
    }

    // The worlds where a test answers true.
    pub fn worlds_where<F: Fn(World) -> bool>(&self, test: F) -> WorldSet
        requires { F.IsAlwaysCallable test }
        ensures { (p : ℕ → Bool) → ((x : World) (b : Bool) → x.0 < (frame_of self.now).worlds → F.post test x b → b ≡ p x.0) → Mask (frame_of self.now).worlds result.0 p }
    {
        // A loop, since each world adds to what is found: as a fold over a filter it would be no plainer.
        let mut found = WorldSet(0);
        for x in 0..self.worlds {
            if test(World(x)) {
                found = found | WorldSet(1 << x);
            }
        }
        found
    }

    // The worlds of the model that are in a set.
    fn cut(&self, set: WorldSet) -> WorldSet
        ensures { Mask (frame_of self.now).worlds result.0 (bit set.0) }
    {
        set & WorldSet::all_worlds(self.worlds)
    }
}
