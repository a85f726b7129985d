// The kinds of records that give a model: its worlds, its rows, and where labels stand.
ghost use Rattle.kinds.specs.Contents.{above_of, atom_row_of, ends_of, place_of, world_count_of};

use crate::facts::ModalityNumber;
use records::bytes::{long_at, word_at};
use records::kind::RecordKind;
use records::numbers::{AtomNumber, Label, Principal, World, WorldCount};

// A set of worlds: bit w stands for world w. What is read of a file alone; the sets of a model belong to `rows`, which lies above.
#[derive(Clone, Copy, PartialEq, Eq, Debug)]
pub struct WorldMask(pub u32);

// The worlds above a world.
#[derive(Clone, Copy, PartialEq, Eq, Debug)]
pub struct AboveRow {
    pub world: World,
    pub mask: WorldMask,
}

// The ends of a principal's arrows from a world.
#[derive(Clone, Copy, PartialEq, Eq, Debug)]
pub struct EndsRow {
    pub modality: ModalityNumber,
    pub principal: Principal,
    pub world: World,
    pub mask: WorldMask,
}

// The worlds where an atom holds.
#[derive(Clone, Copy, PartialEq, Eq, Debug)]
pub struct AtomRow {
    pub atom: AtomNumber,
    pub mask: WorldMask,
}

// The world where a label stands.
#[derive(Clone, Copy, PartialEq, Eq, Debug)]
pub struct Place {
    pub label: Label,
    pub world: World,
}

// The model has worlds 0 to W - 1.
pub struct Worlds;

impl RecordKind for Worlds {
    type Content = WorldCount;

    const KIND: u16 = 20;

    ghost KIND = { 20 };

    const SIZE: usize = 2;

    ghost SIZE = { 2 };

    ghost content = { world_count_of };

    fn read(body: &[u8]) -> WorldCount {
        WorldCount(word_at(body, 0))
    }
}

// The worlds above a world.
pub struct Above;

impl RecordKind for Above {
    type Content = AboveRow;

    const KIND: u16 = 21;

    ghost KIND = { 21 };

    const SIZE: usize = 6;

    ghost SIZE = { 6 };

    ghost content = { above_of };

    fn read(body: &[u8]) -> AboveRow {
        AboveRow {
            world: World(word_at(body, 0)),
            mask: WorldMask(long_at(body, 2)),
        }
    }
}

// The ends of a principal's arrows from a world.
pub struct Ends;

impl RecordKind for Ends {
    type Content = EndsRow;

    const KIND: u16 = 22;

    ghost KIND = { 22 };

    const SIZE: usize = 10;

    ghost SIZE = { 10 };

    ghost content = { ends_of };

    fn read(body: &[u8]) -> EndsRow {
        EndsRow {
            modality: ModalityNumber(word_at(body, 0)),
            principal: Principal(word_at(body, 2)),
            world: World(word_at(body, 4)),
            mask: WorldMask(long_at(body, 6)),
        }
    }
}

// The worlds where an atom holds.
pub struct AtomHolds;

impl RecordKind for AtomHolds {
    type Content = AtomRow;

    const KIND: u16 = 23;

    ghost KIND = { 23 };

    const SIZE: usize = 6;

    ghost SIZE = { 6 };

    ghost content = { atom_row_of };

    fn read(body: &[u8]) -> AtomRow {
        AtomRow {
            atom: AtomNumber(word_at(body, 0)),
            mask: WorldMask(long_at(body, 2)),
        }
    }
}

// The world where a label stands.
pub struct Stands;

impl RecordKind for Stands {
    type Content = Place;

    const KIND: u16 = 24;

    ghost KIND = { 24 };

    const SIZE: usize = 4;

    ghost SIZE = { 4 };

    ghost content = { place_of };

    fn read(body: &[u8]) -> Place {
        Place {
            label: Label(word_at(body, 0)),
            world: World(word_at(body, 2)),
        }
    }
}
