// The facts of a sequent: at most 16, none of them blank.
ghost use Rattle.std.specs.Prelude.{◌≡◌, true};
ghost use Rattle.lists.specs.Listed.{listed};
ghost use Rattle.sequents.specs.AsStored.{all_stored};

use lists::fixed::FixedList;
use logic::fact::Fact;

mod methods;

// How many facts a sequent may have.
pub const MAX_FACTS: usize = 16;

#[derive(Clone, Copy)]
pub struct FactList {
    facts: FixedList<Fact, MAX_FACTS>,
    ghost proper: { all_stored (listed facts) ≡ true },
}
