// What one record of a model file gives.
ghost use Rattle.std.specs.Prelude.{◌≡◌, ◌^◌, ◌≤◌, nat_lt};
ghost use Rattle.sketches.specs.Entries.{entry_of, fits_entry, count_of};

use kinds::kind::{Kind, kind_of};
use kinds::rows::*;
use logic::terms::Modality;
use records::numbers::{AtomNumber, Label, LabelCount, Principal, World, WorldCount};
use records::record::Numbered;
use records::refusal::Refusal;
use rows::masks::WorldSet;
use rows::places::MAX_LABELS;
use rows::rows::{MAX_ATOMS, MAX_PRINCIPALS};

#[derive(Clone, Copy)]
pub enum Entry {
    // the worlds above a world
    Above(World, WorldSet),
    // the ends of the arrows of a modality and a principal from a world
    Ends(Modality, Principal, World, WorldSet),
    // the worlds where an atom holds
    Atom(AtomNumber, WorldSet),
    // the world where a label stands
    Place(Label, World),
}

// How many there may be of what an entry names.
#[derive(Clone, Copy)]
pub struct Ranges {
    pub principals: u16,
    pub labels: LabelCount,
}

// Whether a set has only worlds below `worlds`.
fn set_fits(set: WorldSet, worlds: u16) -> bool
    requires { worlds ≤ 32 }
    ensures { result ≡ nat_lt set.0 (2 ^ worlds) }
{
    (set.0 as u64) < (1u64 << worlds)
}

impl Entry {
    // What a record gives.
    #[tactic(auto, using(crate::proofs::Unknown::no_entry))]
    pub fn read(record: Numbered) -> Result<Entry, Refusal>
        ensures { result ≡ entry_of «record».entry.raw.kind «record».entry.raw.body.now «record».entry.at }
    {
        match kind_of(record)? {
            Kind::WorldsAbove => {
                let row = record.decode::<Above>()?;
                Ok(Entry::Above(row.world, WorldSet(row.mask.0)))
            }
            Kind::ArrowEnds => {
                let row = record.decode::<Ends>()?;
                let modality = Modality::try_from(row.modality.0).map_err(|_| Refusal::OutOfRange(
                    record.at,
                ))?;
                Ok(Entry::Ends(modality, row.principal, row.world, WorldSet(row.mask.0)))
            }
            Kind::AtomRow => {
                let row = record.decode::<AtomHolds>()?;
                Ok(Entry::Atom(row.atom, WorldSet(row.mask.0)))
            }
            Kind::Place => {
                let place = record.decode::<Stands>()?;
                Ok(Entry::Place(place.label, place.world))
            }
            _ => Err(Refusal::Kind(record.at)),
        }
    }

    // Whether the entry's numbers are in range, in a model of `worlds` worlds.
    pub fn fits(self, worlds: u16, ranges: Ranges) -> bool
        requires { worlds ≤ 32 }
        ensures { result ≡ fits_entry worlds ranges.principals ranges.labels.0 self }
    {
        match self {
            Entry::Above(x, set) => x.0 < worlds && set_fits(set, worlds),
            Entry::Ends(_, a, x, set) => a.0 < ranges.principals
                && a.0 < MAX_PRINCIPALS
                && x.0 < worlds
                && set_fits(set, worlds),
            Entry::Atom(a, set) => a.0 < MAX_ATOMS && set_fits(set, worlds),
            Entry::Place(x, w) => x.0 < ranges.labels.0 && x.0 < MAX_LABELS && w.0 < worlds,
        }
    }
}

// The world count that a record gives.
#[tactic(auto, using(crate::proofs::Unknown::no_count))]
pub fn read_worlds(record: Numbered) -> Result<WorldCount, Refusal>
    ensures { result ≡ count_of «record».entry.raw.kind «record».entry.raw.body.now «record».entry.at }
{
    match kind_of(record)? {
        Kind::Worlds => record.decode::<Worlds>(),
        _ => Err(Refusal::Kind(record.at)),
    }
}
