// Sets of worlds. Bit w of the number stands for world w, so a set tells of worlds 0 to 31.
ghost use Rattle.std.specs.Prelude.{◌≡◌, ℕ, ◌-◌, ◌^◌, ◌<◌, ◌≤◌, min, true, not, ◌&&◌, ◌||◌, ◌==◌, bit_and, bit_or, nat_lt, slice_index_or};
ghost use Rattle.logic.specs.Models.{every, any, ◌⊃◌};
ghost use Rattle.rows.specs.Masks.{bit, Mask, no_set};

use records::numbers::World;
use std::ops::{BitAnd, BitOr};

// The most worlds of a model.
pub const MAX_WORLDS: u16 = 32;

#[derive(Clone, Copy, PartialEq, Eq, Debug)]
pub struct WorldSet(pub u32);

// The worlds of both sets.
impl BitAnd for WorldSet {
    type Output = WorldSet;

    ghost bitand_gives = { λ a b r. r.0 ≡ bit_and a.0 b.0 };

    fn bitand(self, other: WorldSet) -> WorldSet {
        WorldSet(self.0 & other.0)
    }
}

// The worlds of either set.
impl BitOr for WorldSet {
    type Output = WorldSet;

    ghost bitor_gives = { λ a b r. r.0 ≡ bit_or a.0 b.0 };

    fn bitor(self, other: WorldSet) -> WorldSet {
        WorldSet(self.0 | other.0)
    }
}

impl WorldSet {
    // The worlds below `count`, or all 32 where `count` is larger.
    #[tactic(auto, using(crate::proofs::Bits::mask_ones))]
    pub fn all_worlds(count: u16) -> WorldSet
        ensures { Mask (min count 32) result.0 (λ _. true) }
    {
        WorldSet(ones(count.min(MAX_WORLDS)))
    }

    // Whether a world is one of the set.
    #[tactic(auto, using(crate::proofs::Bits::bit_beyond))]
    pub fn has(self, world: World) -> bool
        ensures { result ≡ bit self.0 world.0 }
    {
        world.0 < MAX_WORLDS && (self.0 >> world.0) % 2 == 1
    }

    // The set with a world added. World 32 and those beyond it are in no set, and change none.
    pub fn with_world(self, world: World) -> WorldSet
        ensures { (w : ℕ) → bit result.0 w ≡ (bit self.0 w || (w == world.0 && nat_lt w 32)) }
    {
        if world.0 < MAX_WORLDS {
            self | WorldSet(1 << world.0)
        } else {
            self
        }
    }

    // Whether every world of the set is one of `other`.
    pub fn within(self, other: WorldSet) -> bool
        ensures { (n : ℕ) → self.0 < 2 ^ n → result ≡ every n (λ w. bit self.0 w ⊃ bit other.0 w) }
    {
        self & other == self
    }

    // Whether some world of the set is one of `other`.
    pub fn meets(self, other: WorldSet) -> bool
        ensures { (n : ℕ) → self.0 < 2 ^ n → result ≡ any n (λ w. bit self.0 w && bit other.0 w) }
    {
        self & other != WorldSet(0)
    }
}

// The lowest bits.
fn ones(count: u16) -> u32
    requires { count ≤ 32 }
    ensures { result ≡ 2 ^ count - 1 }
{
    ((1u64 << count) - 1) as u32
}

// Set i of a list, or the empty set.
pub fn set_at(sets: &[WorldSet], i: u16) -> WorldSet
    ensures { result ≡ slice_index_or sets.now i no_set }
{
    sets.get(i as usize).copied().unwrap_or(WorldSet(0))
}
