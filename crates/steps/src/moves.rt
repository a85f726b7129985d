// What the outcome of a record makes of the open branches.
ghost use Rattle.std.specs.Prelude.{◌≡◌, ◌+◌, ◌≤◌, true, ◌++◌, length, Some};
ghost use Rattle.stack.specs.Stacks.{items, room, Same};
ghost use Rattle.logic.specs.Stored.{stored};
ghost use Rattle.rules.specs.Outcomes.{listed};
ghost use Rattle.steps.specs.Branches.{branch, fits, label_fits, labels_after, moved};
ghost use Rattle.steps.specs.Held.{open_in, waiting_in, rooms_of, shown, SamePlaces};
ghost use Rattle.steps.specs.Waits.{laid_one, laid};

use crate::memory::Memory;
use crate::waiting::{Added, Waiting};
use logic::fact::Fact;
use records::numbers::{FormulaNumber, RecordNumber};
use records::refusal::Refusal;
use rules::outcome::{Few, Growth, Outcome};
use stack::stack::Stack;

// How many labels a branch may have.
const MAX_LABELS: u16 = 32;

// How many facts these are.
fn size(facts: Few<FormulaNumber>) -> usize
    ensures { result ≡ length (listed facts) }
{
    match facts {
        Few::One(_) => 1,
        Few::Two(_, _) => 2,
        Few::Three(_, _, _) => 3,
    }
}

// Whether a label may be opened where a premise opens one.
fn has_label(labels: u16, opens: bool) -> bool
    ensures { result ≡ label_fits labels opens }
{
    !opens || labels < MAX_LABELS
}

// The label count after a premise.
fn count_after(labels: u16, opens: bool) -> u16
    requires { label_fits labels opens ≡ true }
    ensures { result ≡ labels_after labels opens }
{
    if opens { labels + 1 } else { labels }
}

// Lays a fact on the trail, unless it is blank.
fn lay_one(trail: &mut Stack<Fact>, fact: Fact)
    requires { length (items trail.old) + length (laid_one fact) ≤ room trail.old }
    ensures items { items trail.new ≡ items trail.old ++ laid_one fact }
    ensures same { Same trail.old trail.new }
{
    if fact.view().is_some() {
        let _ = trail.push(fact);
    }
}

// Lays a premise's facts on the trail.
fn lay(trail: &mut Stack<Fact>, facts: Added)
    requires { length (items trail.old) + length (laid facts) ≤ room trail.old }
    ensures items { items trail.new ≡ items trail.old ++ laid facts }
    ensures same { Same trail.old trail.new }
{
    lay_one(trail, facts.first);
    lay_one(trail, facts.second);
    lay_one(trail, facts.third);
}

impl Memory<'_, '_> {
    // Whether a premise fits the trail, and its label is one of 32.
    fn has_room(&self, labels: u16, p: Growth<FormulaNumber>) -> bool
        ensures { result ≡ fits (room self.now.trail.now) (length (items self.now.trail.now)) labels p }
    {
        let free = self.trail.room() - self.trail.len();
        size(p.facts) <= free && has_label(labels, p.opens)
    }

    // Takes up the latest waiting branch, if any, and answers its label count.
    fn take_up(&mut self) -> Option<u16>
        ensures shows { open_in self.new result ≡ waiting_in self.old }
        ensures same { SamePlaces self.old self.new }
    {
        let w = self.waiting.pop()?;
        self.trail.cut(w.trail);
        lay(self.trail, w.facts);
        Some(w.labels)
    }

    // The current branch goes on with one premise.
    fn go_on(
        &mut self,
        labels: u16,
        p: Growth<FormulaNumber>,
        at: RecordNumber,
    ) -> Result<Option<u16>, Refusal>
        ensures shows { shown self.new result ≡ moved stored (rooms_of self.old) at (Some (Outcome.Goes p)) (branch (items self.old.trail.now) labels) (waiting_in self.old) }
        ensures same { SamePlaces self.old self.new }
    {
        if !self.has_room(labels, p) {
            return Err(Refusal::NoRoom(at));
        }
        lay(self.trail, Added::of(p.facts));
        Ok(Some(count_after(labels, p.opens)))
    }

    // The current branch goes on with the first premise, and the second waits.
    fn fork(
        &mut self,
        labels: u16,
        p: Growth<FormulaNumber>,
        q: Growth<FormulaNumber>,
        at: RecordNumber,
    ) -> Result<Option<u16>, Refusal>
        ensures shows { shown self.new result ≡ moved stored (rooms_of self.old) at (Some (Outcome.Forks p q)) (branch (items self.old.trail.now) labels) (waiting_in self.old) }
        ensures same { SamePlaces self.old self.new }
    {
        if !self.has_room(labels, p) || !self.has_room(labels, q) {
            return Err(Refusal::NoRoom(at));
        }
        let second = Waiting {
            trail: self.trail.len(),
            labels: count_after(labels, q.opens),
            facts: Added::of(q.facts),
        };
        self.waiting.push(second).map_err(|_| Refusal::NoRoom(at))?;
        lay(self.trail, Added::of(p.facts));
        Ok(Some(count_after(labels, p.opens)))
    }

    // What the outcome of record `at` makes of the branches; the answer is the label count of the one that is current then, if any.
    pub(crate) fn proceed(
        &mut self,
        labels: u16,
        outcome: Option<Outcome<FormulaNumber>>,
        at: RecordNumber,
    ) -> Result<Option<u16>, Refusal>
        ensures shows { shown self.new result ≡ moved stored (rooms_of self.old) at outcome (branch (items self.old.trail.now) labels) (waiting_in self.old) }
        ensures same { SamePlaces self.old self.new }
    {
        match outcome.ok_or(Refusal::NotAsNeeded(at))? {
            Outcome::Closes => Ok(self.take_up()),
            Outcome::Goes(p) => self.go_on(labels, p, at),
            Outcome::Forks(p, q) => self.fork(labels, p, q, at),
        }
    }
}
