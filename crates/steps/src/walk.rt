// The walk over the records of a file.
ghost use Rattle.std.specs.Prelude.{◌≡◌, ◌≤◌, [], length, Some};
ghost use Rattle.stack.specs.Stacks.{items, room, Same};
ghost use Rattle.records.specs.Chains.{record_of};
ghost use Rattle.records.specs.Files.{bytes_of};
ghost use Rattle.records.specs.Readers.{read_bytes};
ghost use Rattle.steps.specs.Branches.{branch, stepped, reader, examined};
ghost use Rattle.logic.specs.Tables.{nodes_of};
ghost use Rattle.steps.specs.Memory.{stored_setting};
ghost use Rattle.steps.specs.Held.{open_in, waiting_in, shown, SamePlaces, setting_of};

use crate::memory::Memory;
use crate::waiting::Waiting;
use logic::fact::Fact;
use piles::pack::Pack;
use records::cursor::Cursor;
use records::file::File;
use records::numbers::RecordNumber;
use records::record::Numbered;
use records::refusal::Refusal;
use rules::setting::Setting;
use stack::stack::Stack;

// One record of a walk, in a branch with so many labels; the answer is the label count of the branch that is current then, if any.
fn advance<K: Pack>(
    setting: &Setting<K>,
    memory: &mut Memory,
    labels: u16,
    numbered: Numbered,
) -> Result<Option<u16>, Refusal>
    ensures shows { shown memory.new result ≡ stepped (setting_of K.layouts K.readings setting.now memory.old) numbered.entry.at (record_of numbered.entry.raw) (branch (items memory.old.trail.now) labels) (waiting_in memory.old) }
    ensures same { SamePlaces memory.old memory.new }
{
    let step = setting.decode(labels, numbered)?;
    let outcome = setting.apply(memory.trail, labels, step);
    memory.proceed(labels, outcome, numbered.at)
}

// The walk over all records of `file`, from the branch on the trail.
fn walk<K: Pack>(
    setting: &Setting<K>,
    memory: &mut Memory,
    labels: u16,
    file: File,
) -> Result<(), Refusal>
    ensures answer { result ≡ read_bytes (reader (setting_of K.layouts K.readings setting.now memory.old)) 0 (open_in memory.old (Some labels)) (bytes_of file.entry) }
    ensures same { SamePlaces memory.old memory.new }
{
    let mut cursor = Cursor::new(file);
    let mut current = Some(labels);
    while let Some(count) = current {
        let at = cursor.number();
        let numbered = cursor.next()?.ok_or(Refusal::EndsEarly(at))?;
        current = advance(setting, memory, count, numbered)?;
    }
    if cursor.left() > 0 {
        return Err(Refusal::AfterClosed(cursor.number()));
    }
    Ok(())
}

// Lays the facts of a sequent on an empty trail.
fn lay_sequent(trail: &mut Stack<Fact>, facts: &[Fact])
    requires empty { items trail.old ≡ [] }
    requires fit { length facts.now ≤ room trail.old }
    ensures items { items trail.new ≡ facts.now }
    ensures same { Same trail.old trail.new }
{
    for fact in facts {
        let _ = trail.push(*fact);
    }
}

// The walk from a sequent's facts, if they fit.
pub(crate) fn start<'a, K: Pack>(
    setting: &Setting<K>,
    trail: &mut Stack<'a, Fact>,
    waiting: &mut Stack<'a, Waiting>,
    labels: u16,
    facts: &[Fact],
    file: File,
) -> Result<(), Refusal>
    requires trail { items trail.old ≡ [] }
    requires waiting { items waiting.old ≡ [] }
    ensures answer { result ≡ examined (stored_setting (nodes_of setting.now.table.now) (K.layouts setting.now.pile.now) (K.readings setting.now.pile.now) setting.now.principals (room trail.old) (room waiting.old)) (branch facts.now labels) (bytes_of file.entry) }
    ensures trail { Same trail.old trail.new }
    ensures waiting { Same waiting.old waiting.new }
{
    if facts.len() > trail.room() {
        return Err(Refusal::NoRoom(RecordNumber(0)));
    }
    lay_sequent(trail, facts);
    let mut memory = Memory { trail, waiting };
    walk(setting, &mut memory, labels, file)
}
