//! What hears whether a watch stopped the learner.

use implied_clauses::{Hint, Literal};
use learner::{Figures, LearnerWatch};
use search_engines::Unanswered;

/// A watch that does what another one does, and knows whether that stopped the learner.
#[derive(Drop)]
pub(crate) struct HeardStop<'a, L: LearnerWatch> {
    inner: &'a mut L,
    has_stopped: bool,
}

impl<'a, L: LearnerWatch> HeardStop<'a, L> {
    /// Returns a watch over a learner that begins now.
    pub(crate) fn new(inner: &'a mut L) -> HeardStop<'a, L> {
        HeardStop {
            inner,
            has_stopped: false,
        }
    }

    /// Returns why a learner that has ended has no answer, if it has none.
    pub(crate) fn why(&self) -> Unanswered {
        // (a learner that nothing stops ends without an answer only where its clauses have no room)
        if self.has_stopped {
            Unanswered::Time
        } else {
            Unanswered::Room
        }
    }
}

impl<'a, L: LearnerWatch> LearnerWatch for HeardStop<'a, L> {
    fn look(&mut self, figures: &Figures) -> bool {
        self.has_stopped = self.inner.look(figures);
        self.has_stopped
    }

    fn learned(&mut self, place: u32, clause: &[Literal], hints: &[Hint]) {
        self.inner.learned(place, clause, hints);
    }

    fn forgot(&mut self, place: u32) {
        self.inner.forgot(place);
    }
}
