// Where labels stand: the only way from a label to a world.
ghost use Rattle.std.specs.Prelude.{◌≡◌, ◌<◌, ◌≤◌, MatchResult};
ghost use Rattle.rows.specs.PlacesOf.{place_at, standing_of, Unplaced, Put};

use crate::slots::{NoPlace, put_at};
use records::numbers::{Label, World};

// The most labels that can be placed.
pub const MAX_LABELS: u16 = 8;

#[derive(Drop)]
pub struct Places {
    // By label: a fixed array, since the library keeps no heap.
    worlds: [Option<World>; 8],
}

impl Places {
    // No label is placed.
    pub fn new() -> Places
        ensures { Unplaced result }
    {
        Places { worlds: [None; 8] }
    }

    // Where a label stands, if it is placed.
    pub fn place(&self, label: Label) -> Option<World>
        ensures { result ≡ place_at self.now label }
    {
        self.worlds.get(label.0 as usize).copied().flatten()
    }

    // Where a label stands, or world 0 if it is not placed.
    pub fn world(&self, label: Label) -> World
        ensures { result ≡ standing_of self.now label }
    {
        self.place(label).unwrap_or(World(0))
    }

    // The label stands at the world from now on. Refused for a label from 8 on, and then nothing changes.
    pub fn put(&mut self, label: Label, world: World) -> Result<(), NoPlace>
        ensures answer { MatchResult result (λ _. label.0 < 8) (λ _. 8 ≤ label.0) }
        ensures after { Put label world self.old self.new }
    {
        put_at(&mut self.worlds, label.0, Some(world))
    }
}
