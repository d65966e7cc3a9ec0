//! The count of rows.
use std::alloc::{AllocError, Global};

/// The rows that differ, each with what was found, and how many rows there are.
#[derive(Drop)]
pub struct Tally {
    differ: String,
    met: u64,
    all: u64,
}

impl Tally {
    pub fn new(alloc: Global) -> Tally {
        Tally {
            differ: String::new(alloc),
            met: 0,
            all: 0,
        }
    }

    /// Counts a row, of which this was found.
    pub fn count(&mut self, name: &str, is_met: bool, found: &str) -> Result<(), AllocError> {
        self.all = self.all.saturating_add(1);
        if is_met {
            self.met = self.met.saturating_add(1);
            return Ok(());
        }
        self.differ.push_str("differs: ")?;
        self.differ.push_str(name)?;
        self.differ.push_str(": ")?;
        self.differ.push_str(found)?;
        self.differ.push_str("\n")
    }

    /// The rows that differ, a line each, and a line that counts.
    pub fn told(&self, alloc: Global) -> Result<String, AllocError> {
        let differ = self.differ.as_str();
        let met = self.met;
        let all = self.all;
        format!(in alloc; "{differ}{met} of {all} rows are met\n")
    }
}
