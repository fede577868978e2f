//! What a learner says of itself: numbers for a line of progress or an answer, and each clause for a certificate.
//! Nothing is proved of the numbers, and no answer depends on them. Who writes certificates hears of each clause with
//! its hints, in the order in which a checker needs them.

use implied_clauses::{Hint, Literal};

/// What a learner has done so far.
#[derive(Clone, Copy, Debug, PartialEq, Eq)]
pub struct Figures {
    /// How many conflicts it met.
    pub conflicts: u64,
    /// How many decisions it made.
    pub decisions: u64,
    /// How often it began again.
    pub restarts: u64,
    /// How many learned clauses of two or more literals it keeps.
    pub clauses: u64,
}

impl Figures {
    /// Nothing.
    pub fn new() -> Figures {
        Figures {
            conflicts: 0,
            decisions: 0,
            restarts: 0,
            clauses: 0,
        }
    }
}

/// What looks at a learner now and then, and may stop it. It hears of each clause, too.
pub trait LearnerWatch {
    /// Looks at what was done so far. Answers whether the learner is to stop.
    fn look(&mut self, figures: &Figures) -> bool;

    /// Hears that the kernel learned a clause along hints, and at which of its places the clause stands now.
    fn learned(&mut self, _place: u32, _clause: &[Literal], _hints: &[Hint]) {}

    /// Hears that the kernel forgot the clause at a place.
    fn forgot(&mut self, _place: u32) {}
}
