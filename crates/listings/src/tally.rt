// How many records of each sort there are: the type says that they add up to the number of records.
// Five named counters, and not an array by sort: the invariant adds them, and a line prints them, by name.
ghost use Rattle.std.specs.Prelude.{◌≡◌, ◌+◌, ◌≤◌};

pub mod methods;

#[derive(Clone, Copy)]
pub struct Tally {
    records: u16,
    formulas: u16,
    facts: u16,
    rows: u16,
    unknown: u16,
    wrong: u16,
    ghost whole: { formulas + facts + rows + unknown + wrong ≡ records },
    ghost few: { records ≤ 8192 },
}
