//! After how many conflicts the search begins again with what it has learned.
//!
//! Luby's sequence is within a factor of the logarithm of the best sequence for any search whose times vary by luck.
//! The unit was measured on two kinds of problems alone.

/// The unit of the sequence, in conflicts: measured on timetables and quasigroups.
const UNIT: u64 = 64;

/// The sequence 1, 1, 2, 1, 1, 2, 4, .. of Luby, Sinclair and Zuckerman ("Optimal speedup of Las Vegas algorithms"), by
/// Knuth's pair of numbers (TAOCP 7.2.2.2, "reluctant doubling").
#[derive(Clone, Copy)]
pub struct Restarts {
    first: u64,
    second: u64,
    /// At how many conflicts the next restart is due.
    due: u64,
}

impl Restarts {
    /// The first part of a search.
    pub fn new() -> Restarts {
        Restarts {
            first: 1,
            second: 1,
            due: UNIT,
        }
    }

    /// Returns whether a restart is due after so many conflicts.
    pub fn is_due(&self, conflicts: u64) -> bool {
        conflicts >= self.due
    }

    /// Begins the next part of a search, after so many conflicts.
    pub fn begin(&mut self, conflicts: u64) {
        if self.first & self.first.wrapping_neg() == self.second {
            self.first = self.first.wrapping_add(1);
            self.second = 1;
        } else {
            self.second = self.second.wrapping_mul(2);
        }
        self.due = conflicts.wrapping_add(self.second.wrapping_mul(UNIT));
    }
}
