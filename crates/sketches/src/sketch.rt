// A model while it is read.
ghost use Rattle.std.specs.Prelude.{◌≡◌, ◌<◌, ◌⊎◌, [], MatchOption};
ghost use Rattle.records.specs.Chains.{record_of};
ghost use Rattle.sketches.specs.Entries.{worlds_at};
ghost use Rattle.sketches.specs.Sketches.{Shows, Begins, Takes, marked, Written};

use crate::entry::{Entry, Ranges, read_worlds};
use records::numbers::World;
use records::record::Numbered;
use records::refusal::Refusal;
use rows::masks::WorldSet;
use rows::places::Places;
use rows::rows::Rows;

// A second table of rows tells what was given, and not a flag beside each row: the reads and writes of rows then serve both.
// The rows and places read so far. In `given` a row has world 0 exactly where that row was given, be it empty.
#[derive(Drop)]
pub struct Sketch {
    pub rows: Rows,
    pub given: Rows,
    pub places: Places,
}

impl Sketch {
    // A sketch of 1 to 32 worlds with nothing given.
    fn new(worlds: u16) -> Option<Sketch>
        ensures { MatchOption result ((worlds ≡ 0) ⊎ (32 < worlds)) (λ s. Shows worlds [] s) }
    {
        let rows = Rows::new(worlds)?;
        let given = Rows::new(worlds)?;
        Some(Sketch {
            rows,
            given,
            places: Places::new(),
        })
    }

    // A sketch of as many worlds as a record says.
    pub fn begin(record: Numbered) -> Result<Sketch, Refusal>
        ensures { Begins (worlds_at «record».entry.raw.kind «record».entry.raw.body.now «record».entry.at) result }
    {
        let worlds = read_worlds(record)?;
        Sketch::new(worlds.0).ok_or(Refusal::OutOfRange(record.at))
    }

    // Whether the row or the place of an entry was given.
    fn has(&self, entry: Entry) -> bool
        ensures { result ≡ marked self.now entry }
    {
        let mark = World(0);
        match entry {
            Entry::Above(x, _) => self.given.above(x).has(mark),
            Entry::Ends(k, a, x, _) => self.given.ends(k, a, x).has(mark),
            Entry::Atom(a, _) => self.given.atom(a).has(mark),
            Entry::Place(x, _) => self.places.place(x).is_some(),
        }
    }

    // The entry's row or place, written down and marked.
    fn put(&mut self, entry: Entry)
        ensures { Written entry self.old self.new }
    {
        let mark = WorldSet(1);
        match entry {
            Entry::Above(x, set) => {
                self.rows.set_above(x, set);
                self.given.set_above(x, mark);
            }
            Entry::Ends(k, a, x, set) => {
                self.rows.set_ends(k, a, x, set);
                self.given.set_ends(k, a, x, mark);
            }
            Entry::Atom(a, set) => {
                self.rows.set_atom(a, set);
                self.given.set_atom(a, mark);
            }
            Entry::Place(x, w) => {
                let _ = self.places.put(x, w);
            }
        }
    }

    // A record, taken into the sketch.
    pub fn take(&mut self, record: Numbered, ranges: Ranges) -> Result<(), Refusal>
        ensures { Takes ranges.principals ranges.labels.0 «record».entry.at.0 (record_of «record».entry.raw) self.old result self.new }
    {
        let entry = Entry::read(record)?;
        if !entry.fits(self.rows.worlds(), ranges) {
            return Err(Refusal::OutOfRange(record.at));
        }
        if self.has(entry) {
            return Err(Refusal::GivenTwice(record.at));
        }
        self.put(entry);
        Ok(())
    }
}
