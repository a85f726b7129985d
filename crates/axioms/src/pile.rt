// The published pile, shown to be what its words say.
ghost use Rattle.axioms.specs.InWords.{AsPublished};
ghost use Rattle.axioms.specs.Steps.{StepsInWords};
ghost use Rattle.axioms.specs.Written.{as_published};
ghost use Rattle.axioms.specs.WrittenSteps.{steps_in_words};

use packs::published::Published;
use piles::pack::Pack;

pub trait PublishedPile: Pack {
    ghost written: { (k : Self) → AsPublished (Self.Pack.conditions k) };

    ghost steps: { (k : Self) → StepsInWords (Self.Pack.layouts k) (Self.Pack.readings k) };
}

impl PublishedPile for Published {
    ghost written = { λ k. as_published };

    ghost steps = { λ k. steps_in_words };
}

// The pile admits the models that its words say, each condition fails alone somewhere, the axioms hold where the pile
// admits, and the turned axiom does not.
pub fn pile_stands<K: PublishedPile>(pile: &K)
    ensures { AsPublished (K.Pack.conditions pile.now) }
{}

// The pile has four kinds, with the bodies and steps that its words say.
pub fn steps_stand<K: PublishedPile>(pile: &K)
    ensures { StepsInWords (K.Pack.layouts pile.now) (K.Pack.readings pile.now) }
{}
