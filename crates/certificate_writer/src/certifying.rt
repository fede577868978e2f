//! A watch over a learner that writes a certificate, too.

use crate::clause_writer::ClauseWriter;
use dlx_reader::Sink;
use implied_clauses::{Hint, Literal};
use learner::{Figures, LearnerWatch};

/// A watch over a learner, and the writer of a certificate that hears of its clauses.
#[derive(Drop)]
pub struct CertifyingWatch<L: LearnerWatch + Drop, W: Sink + Drop> {
    /// What looks at the learner.
    pub watch: L,
    /// What hears of its clauses.
    pub writer: ClauseWriter<W>,
}

impl<L: LearnerWatch + Drop, W: Sink + Drop> LearnerWatch for CertifyingWatch<L, W> {
    fn look(&mut self, figures: &Figures) -> bool {
        self.watch.look(figures)
    }

    fn learned(&mut self, place: u32, clause: &[Literal], hints: &[Hint]) {
        self.writer.learned(place, clause, hints);
    }

    fn forgot(&mut self, place: u32) {
        self.writer.forgot(place);
    }
}
