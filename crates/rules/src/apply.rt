// What a step does to a branch.
ghost use Rattle.std.specs.Prelude.{◌≡◌};
ghost use Rattle.stack.specs.Stacks.{items};
ghost use Rattle.logic.specs.Tables.{nodes_of};
ghost use Rattle.rules.specs.Applying.{applied};
ghost use Rattle.rules.specs.Scenes.{scene_of};

use crate::branch::Branch;
use crate::connectives::*;
use crate::links::*;
use crate::modal::*;
use crate::outcome::Outcome;
use crate::packs::ask_pack;
use crate::setting::Setting;
use crate::step::Step;
use logic::fact::Fact;
use piles::pack::Pack;
use records::numbers::FormulaNumber;
use stack::stack::Stack;

impl<K: Pack> Setting<'_, K> {
    // What a step does in a branch whose facts lie on the trail; none where they are not as it needs them.
    pub fn apply(
        &self,
        trail: &Stack<Fact>,
        labels: u16,
        step: Step,
    ) -> Option<Outcome<FormulaNumber>>
        ensures { result ≡ applied (scene_of (nodes_of self.now.table.now) (items trail.now) labels (K.readings self.now.pile.now) self.now.principals) step }
    {
        let branch = &Branch {
            table: self.table,
            trail,
            labels,
        };
        // a match, not functions in a table: the steps are a closed enum, each with content of its own type
        match step {
            Step::AtomsClose(at) => close_atoms(branch, at),
            Step::FalsityCloses(l) => close_falsity(branch, l),
            Step::AndLeft(l) => left_and(branch, l),
            Step::AndRight(r) => right_and(branch, r),
            Step::OrLeft(l) => left_or(branch, l),
            Step::OrRight(r) => right_or(branch, r),
            Step::ImpliesLeft(at) => left_implies(branch, at),
            Step::ImpliesRight(r) => right_implies(branch, r),
            Step::ModalLeft(at) => left_modal(branch, at),
            Step::ModalRight(r) => right_modal(branch, r),
            Step::PermittedLeft(l) => left_permitted(branch, l),
            Step::PermittedRight(at) => right_permitted(branch, at),
            Step::Reflexive(x) => Some(order_itself(x)),
            Step::Transitive(at) => join_orders(branch, at),
            Step::Monotone(at) => shift_arrow(branch, at),
            Step::OfPack(step) => ask_pack(self, branch, step),
        }
    }
}
