// Whether a file is a closed derivation of a sequent.
ghost use Rattle.std.specs.Prelude.{◌≡◌, min, List, map, length};
ghost use Rattle.stack.specs.Places.{Cleared};
ghost use Rattle.records.specs.Files.{bytes_of};
ghost use Rattle.records.specs.declared.numbers.FormulaNumber.{FormulaNumber};
ghost use Rattle.logic.specs.declared.terms.FactView.{FactView};
ghost use Rattle.logic.specs.Stored.{stored, no_fact};
ghost use Rattle.logic.specs.Tables.{nodes_of};
ghost use Rattle.steps.specs.Verdicts.{sequent_of, tree_setting, Verdict};
ghost use Rattle.steps.specs.Waits.{no_waiting};

use crate::waiting::Waiting;
use crate::walk::start;
use logic::fact::Fact;
use piles::pack::Pack;
use records::file::File;
use records::refusal::Refusal;
use rules::setting::Setting;
use stack::stack::Stack;

// How many facts a branch may have.
pub const MAX_TRAIL: usize = 512;

// How many branches may wait.
pub const MAX_WAITING: usize = 64;

// Whether the file is a closed derivation of the sequent with these labels and facts, over the pile. Every place of both slices is
// blank afterwards, whatever the answer is. The two slices are lent apart, being of two kinds of elements, and inside are one memory; labels
// and facts come apart, since the steps know no ledger's sequents.
pub fn examine_derivation<K: Pack>(
    file: File,
    setting: &Setting<K>,
    labels: u16,
    facts: &[Fact],
    trail: &mut [Fact],
    waiting: &mut [Waiting],
) -> Result<(), Refusal>
    ensures verdict { (fs : List (FactView FormulaNumber)) → facts.now ≡ map stored fs → Verdict (K.conditions setting.now.pile.now) (tree_setting (K.layouts setting.now.pile.now) (K.readings setting.now.pile.now) setting.now.principals (min 512 (length trail.old)) (min 64 (length waiting.old))) (sequent_of (nodes_of setting.now.table.now) fs labels) (bytes_of file.entry) result }
    ensures trail { Cleared no_fact trail.old trail.new }
    ensures waiting { Cleared no_waiting waiting.old waiting.new }
{
    let mut own = Stack::over(trail, MAX_TRAIL);
    let mut later = Stack::over(waiting, MAX_WAITING);
    let answer = start(setting, &mut own, &mut later, labels, facts, file);
    own.blank_all();
    later.blank_all();
    answer
}
