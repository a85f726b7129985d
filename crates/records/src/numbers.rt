// Numbers, each wrapped by what it counts. A label and a world are two types, and nothing here turns one into the other.

// A label of a sequent or of a branch of a derivation.
#[derive(Clone, Copy, PartialEq, Eq, Debug)]
pub struct Label(pub u16);

// A world of a model.
#[derive(Clone, Copy, PartialEq, Eq, Debug)]
pub struct World(pub u16);

// A principal, one who says, controls, ratifies or is permitted.
#[derive(Clone, Copy, PartialEq, Eq, Debug)]
pub struct Principal(pub u16);

// The place of a formula in a ledger's formula table, from 0.
#[derive(Clone, Copy, PartialEq, Eq, Debug)]
pub struct FormulaNumber(pub u16);

// An atomic formula.
#[derive(Clone, Copy, PartialEq, Eq, Debug)]
pub struct AtomNumber(pub u16);

// A sequent of a ledger, from 0.
#[derive(Clone, Copy, PartialEq, Eq, Debug)]
pub struct SequentNumber(pub u16);

// The number of a record in its file, from 0.
#[derive(Clone, Copy, PartialEq, Eq, Debug)]
pub struct RecordNumber(pub u16);

// The place of a condition in a pile's list, from 0 at the top.
#[derive(Clone, Copy, PartialEq, Eq, Debug)]
pub struct ConditionPlace(pub u16);

// The position of a fact in its sequent, from 0.
#[derive(Clone, Copy, PartialEq, Eq, Debug)]
pub struct FactPosition(pub u16);

// How many labels a sequent or a branch has.
#[derive(Clone, Copy, PartialEq, Eq, Debug)]
pub struct LabelCount(pub u16);

// How many worlds a model has.
#[derive(Clone, Copy, PartialEq, Eq, Debug)]
pub struct WorldCount(pub u16);
