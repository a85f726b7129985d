// The rows of a finite model. Only the structs stand here; a row that is not there reads as the empty set.
mod reads;
mod writes;

ghost use Rattle.std.specs.Prelude.{◌≡◌, ◌≤◌, length};

use crate::masks::WorldSet;

// The most principals of a model.
pub const MAX_PRINCIPALS: u16 = 8;

// The most atoms of a model.
pub const MAX_ATOMS: u16 = 64;

// The ends of the arrows from each world.
#[derive(Clone, Copy)]
struct Row {
    ends: [WorldSet; 32],
}

// The rows of each principal.
#[derive(Clone, Copy)]
struct Arrows {
    of: [Row; 8],
}

// Fixed arrays, since the library keeps no heap; `worlds` says how many worlds there are.
#[derive(Drop)]
pub struct Rows {
    worlds: u16,
    // by world
    above: [WorldSet; 32],
    // by modality
    arrows: [Arrows; 4],
    // by atom
    atoms: [WorldSet; 64],
    ghost inhabited: { 1 ≤ worlds },
    ghost few: { worlds ≤ 32 },
    // An array's length is known to a proof only where the code touches the array, so it is stated here.
    ghost whole: { length atoms ≡ 64 },
}
