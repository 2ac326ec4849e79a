//! How the cases of the tables went.

use crate::report::Report;
use std::io;

/// The longest that is printed of what came.
const MOST_PRINTED: usize = 400;

/// How many cases there were, and of them those that failed and those that found no memory.
#[derive(Drop)]
pub struct Tally {
    pub cases: u64,
    pub failed: u64,
    pub refused: u64,
}

impl Tally {
    /// Before the first case.
    pub fn new() -> Tally {
        Tally {
            cases: 0,
            failed: 0,
            refused: 0,
        }
    }

    /// Counts a case of a file by what was said and what is wanted, and prints it where it fails.
    pub fn judge(&mut self, rt: &impl Print, file: &str, case: &str, said: &Report, wanted: &str) {
        if said.is_refused() {
            self.refuse();
        } else if said.as_str() == wanted {
            self.cases = self.cases.saturating_add(1);
        } else {
            let came = said.as_str();
            let came = came.get(..MOST_PRINTED).unwrap_or(came);
            let _ = println!(rt; "{file}: {case}: came {came}");
            self.fail();
        }
    }

    /// Counts a case that fails.
    pub fn fail(&mut self) {
        self.cases = self.cases.saturating_add(1);
        self.failed = self.failed.saturating_add(1);
    }

    /// Counts a case that found no memory.
    pub fn refuse(&mut self) {
        self.cases = self.cases.saturating_add(1);
        self.refused = self.refused.saturating_add(1);
    }

    /// Prints the counts.
    pub fn print(&self, rt: &impl Print) -> io::Result<()> {
        print!(rt; "{} cases, {} failed", self.cases, self.failed)?;
        if self.refused > 0 {
            print!(rt; ", {} out of memory", self.refused)?;
        }
        println!(rt; "")
    }
}
