// A branch that waits, as it lies in a lent slice.
ghost use Rattle.std.specs.Prelude.{◌≡◌};
ghost use Rattle.steps.specs.Waits.{added_of, no_waiting};

use logic::fact::Fact;
use records::numbers::FormulaNumber;
use rules::outcome::Few;
use stack::blank::Blank;

// The facts that a premise adds, one to three; the places that are left are blank. Three fields: a clause sees an array as a list of
// any length, of which it isn't true that the blank one is the one whose numbers are all 0.
#[derive(Clone, Copy)]
pub struct Added {
    pub first: Fact,
    pub second: Fact,
    pub third: Fact,
}

impl Added {
    // These facts.
    pub fn of(facts: Few<FormulaNumber>) -> Added
        ensures { result ≡ added_of facts }
    {
        let blank: Fact = Blank::blank();
        match facts {
            Few::One(a) => Added {
                first: Fact::from(a),
                second: blank,
                third: blank,
            },
            Few::Two(a, b) => Added {
                first: Fact::from(a),
                second: Fact::from(b),
                third: blank,
            },
            Few::Three(a, b, c) => Added {
                first: Fact::from(a),
                second: Fact::from(b),
                third: Fact::from(c),
            },
        }
    }
}

// A branch that waits: how many facts of the trail were there at its step, its label count, and the facts that it adds.
#[derive(Clone, Copy)]
pub struct Waiting {
    pub trail: usize,
    pub labels: u16,
    pub facts: Added,
}

// What an unused place for a waiting branch holds.
impl Blank for Waiting {
    ghost empty = { no_waiting };

    fn blank() -> Waiting {
        Waiting {
            trail: 0,
            labels: 0,
            facts: Added {
                first: Blank::blank(),
                second: Blank::blank(),
                third: Blank::blank(),
            },
        }
    }
}
