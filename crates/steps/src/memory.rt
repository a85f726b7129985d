// The open branches of a derivation, as they lie in lent slices; what is done with them stands in `moves`.
ghost use Rattle.std.specs.Prelude.{length, reverse};
ghost use Rattle.stack.specs.Stacks.{items, room};
ghost use Rattle.steps.specs.Memory.{Kept, Kept-prop};

use crate::waiting::Waiting;
use logic::fact::Fact;
use stack::stack::Stack;

// The facts of the current branch, and the branches that wait, the latest on top. It borrows both stacks: where a struct holds a
// stack by value, the one who lent the places isn't told what comes back in them.
#[derive(Drop)]
pub(crate) struct Memory<'a, 'b> {
    pub(crate) trail: &'a mut Stack<'b, Fact>,
    pub(crate) waiting: &'a mut Stack<'b, Waiting>,
    // each branch that waits begins with a front of the trail, and fits
    ghost kept: { Kept (room trail.now) (length (items trail.now)) (reverse (items waiting.now)) } by { Kept-prop (room trail.now) (length (items trail.now)) (reverse (items waiting.now)) },
}
