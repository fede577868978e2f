//! How far a learner has come, as a line of text.

use learner::Figures;
use std::fmt::{self, Display, Formatter, Write};

/// How far a learner has come.
#[derive(Clone, Copy, Debug, PartialEq, Eq)]
pub struct LearnProgress {
    /// How many whole seconds it has lasted.
    pub seconds: u64,
    /// What it has done.
    pub figures: Figures,
}

impl Display for LearnProgress {
    fn fmt<W: Write>(&self, f: &mut Formatter<W>) -> fmt::Result {
        write!(
            f,
            "{} s: {} conflicts, {} clauses, {} restarts",
            self.seconds, self.figures.conflicts, self.figures.clauses, self.figures.restarts
        )
    }
}
