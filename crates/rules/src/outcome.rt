// What a step does to a branch.
ghost use Rattle.std.specs.Prelude.{◌≡◌};
ghost use Rattle.rules.specs.Outcomes.{adds, opens_with};

use logic::terms::{FactView, Modality};
use records::numbers::{Label, Principal};

// One, two or three facts.
#[derive(Clone, Copy, PartialEq, Eq, Debug)]
pub enum Few<F> {
    One(FactView<F>),
    Two(FactView<F>, FactView<F>),
    Three(FactView<F>, FactView<F>, FactView<F>),
}

// What a premise adds, and whether it opens a label: the label count, used as a label.
#[derive(Clone, Copy, PartialEq, Eq, Debug)]
pub struct Growth<F> {
    pub facts: Few<F>,
    pub opens: bool,
}

// The branch closes, goes on, or forks: the first premise goes on, the second waits.
#[derive(Clone, Copy, PartialEq, Eq, Debug)]
pub enum Outcome<F> {
    Closes,
    Goes(Growth<F>),
    Forks(Growth<F>, Growth<F>),
}

impl<F: Copy> Growth<F> {
    // The facts, with no label opened.
    pub fn of(facts: Few<F>) -> Growth<F>
        ensures { result ≡ adds facts }
    {
        Growth {
            facts,
            opens: false,
        }
    }

    // The facts, and the label that they open.
    pub fn opening(facts: Few<F>) -> Growth<F>
        ensures { result ≡ opens_with facts }
    {
        Growth { facts, opens: true }
    }
}

// An arrow by its parts.
#[derive(Clone, Copy, PartialEq, Eq, Debug)]
pub struct ArrowParts {
    pub modality: Modality,
    pub principal: Principal,
    pub from: Label,
    pub to: Label,
}

// A formula under a modality.
#[derive(Clone, Copy, PartialEq, Eq, Debug)]
pub struct Boxed<F> {
    pub modality: Modality,
    pub principal: Principal,
    pub part: F,
}
