// Theorems that the check asks for: each function's contract is one.
ghost use Rattle.logic.specs.Formulas.{TreesStand};
ghost use Rattle.logic.specs.Stored.{FactsStored};
ghost use Rattle.logic.specs.Truth.{TruthReads, Persistence, ExactlyOne, NumbersName};

// Truth at a world reads as its clauses say.
#[tactic(auto, using(crate::proofs::Truth::truth_reads))]
pub fn truth_reads()
    ensures { TruthReads }
{}

// A formula that holds at a world holds at each world above it.
#[tactic(auto, using(crate::proofs::Persistence::persistence))]
pub fn truth_persists()
    ensures { Persistence }
{}

// More nodes change no earlier tree.
#[tactic(auto, using(crate::proofs::Trees::trees_stand))]
pub fn trees_stand()
    ensures { TreesStand }
{}

// A sequent never both holds and fails, and does one of the two.
#[tactic(auto, using(crate::proofs::Standings::exactly_one))]
pub fn exactly_one()
    ensures { ExactlyOne }
{}

// Numbers and modalities name each other.
#[tactic(auto, using(crate::proofs::Numbers::numbers_name))]
pub fn numbers_name()
    ensures { NumbersName }
{}

// A stored fact says what was stored, and the blank one is the one whose numbers are all 0.
#[tactic(auto, using(crate::proofs::Facts::facts_stored))]
pub fn facts_stored()
    ensures { FactsStored }
{}
