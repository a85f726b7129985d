ghost use Rattle.std.specs.Prelude.{◌≡◌, ◌+◌, ◌<◌};
ghost use Rattle.listings.specs.Tallies.{counts_of, nothing, one_more};

use crate::tally::Tally;
use kinds::kind::Sort;
use std::fmt;

impl Tally {
    // Of no record.
    pub fn new() -> Tally
        ensures { counts_of result ≡ nothing }
    {
        Tally {
            records: 0,
            formulas: 0,
            facts: 0,
            rows: 0,
            unknown: 0,
            wrong: 0,
        }
    }

    // Counts one more record of the sort.
    pub(crate) fn add(&mut self, sort: Sort)
        requires { self.old.records < 8192 }
        ensures { counts_of self.new ≡ one_more sort (counts_of self.old) }
    {
        match sort {
            Sort::Formula => self.formulas += 1,
            Sort::Fact => self.facts += 1,
            Sort::Row => self.rows += 1,
            Sort::Unknown => self.unknown += 1,
            Sort::WrongSize => self.wrong += 1,
        }
        self.records += 1;
    }

    // How many records there are.
    pub fn records(self) -> u16
        ensures { result ≡ self.records }
    {
        self.records
    }
}

// One line, with a number for each sort.
impl fmt::Display for Tally {
    fn fmt<W: fmt::Write>(&self, f: &mut fmt::Formatter<W>) -> fmt::Result {
        write!(f, "records {}  formulas {}", self.records, self.formulas)?;
        write!(f, "  facts {}  rows {}", self.facts, self.rows)?;
        write!(f, "  unknown {}  wrong size {}", self.unknown, self.wrong)
    }
}
