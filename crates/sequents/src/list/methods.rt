ghost use Rattle.std.specs.Prelude.{◌≡◌, ◌≤◌, [], map, length};
ghost use Rattle.stack.specs.Stacks.{Pushed};
ghost use Rattle.logic.specs.Stored.{stored};
ghost use Rattle.sequents.specs.Sequents.{facts_of};

use crate::list::FactList;
use lists::fixed::FixedList;
use logic::fact::Fact;
use logic::terms::FactView;
use records::numbers::FormulaNumber;
use stack::blank::Blank;
use stack::stack::NoRoom;

impl FactList {
    // No fact.
    pub fn new() -> FactList
        ensures { facts_of result ≡ [] }
    {
        FactList {
            facts: FixedList::new(Fact::blank()),
        }
    }

    // How many facts there are.
    #[tactic(auto, using(crate::proofs::Views::views_length))]
    pub fn len(&self) -> usize
        ensures count { result ≡ length (facts_of self.now) }
        ensures most { result ≤ 16 }
    {
        self.facts.len()
    }

    // The facts, by position.
    #[tactic(auto, using(crate::proofs::Views::restored))]
    pub fn facts(&self) -> &[Fact]
        ensures { result.now ≡ map stored (facts_of self.now) }
    {
        self.facts.as_slice()
    }

    // One fact more; refused, with no change, where there are 16.
    #[tactic(auto, using(crate::proofs::Views::push_stored, crate::proofs::Views::push_views))]
    pub fn push(&mut self, view: FactView<FormulaNumber>) -> Result<(), NoRoom>
        ensures { Pushed 16 view (facts_of self.old) result (facts_of self.new) }
    {
        self.facts.push(Fact::from(view))
    }
}
