//! What stops the lanes of a race: another one's answer, or the limit of time.

use crate::race::Race;
use brancher::Watch;
use cover_reasons::ReasonWatch;
use implied_clauses::{Hint, Literal};
use learner::{Figures, LearnerWatch};
use search_engines::{EndWatch, TimeLimit};
use std::time::Clock;

/// Whether a lane is to end.
fn is_over<C: Clock>(clock: &C, race: &Race, time: &Option<TimeLimit>) -> bool {
    match time {
        Some(time) => race.is_over() || time.is_over(clock),
        None => race.is_over(),
    }
}

/// Stops a lane once the race is over, or the time.
#[derive(Drop)]
pub(crate) struct LaneWatch<'a, 'b, C: Clock> {
    pub(crate) clock: &'a C,
    pub(crate) race: &'b Race,
    pub(crate) time: Option<TimeLimit>,
}

impl<'a, 'b, C: Clock> ReasonWatch for LaneWatch<'a, 'b, C> {
    fn look(&mut self) -> bool {
        is_over(self.clock, self.race, &self.time)
    }
}

impl<'a, 'b, C: Clock> LearnerWatch for LaneWatch<'a, 'b, C> {
    fn look(&mut self, _figures: &Figures) -> bool {
        is_over(self.clock, self.race, &self.time)
    }
}

/// Stops a learner once the race is over, or the time, and lets another watch hear of its clauses.
#[derive(Drop)]
pub(crate) struct HeardWatch<'a, 'b, 'c, C: Clock, L: LearnerWatch> {
    pub(crate) clock: &'a C,
    pub(crate) race: &'b Race,
    pub(crate) time: Option<TimeLimit>,
    pub(crate) listener: &'c mut L,
}

impl<'a, 'b, 'c, C: Clock, L: LearnerWatch> LearnerWatch for HeardWatch<'a, 'b, 'c, C, L> {
    fn look(&mut self, _figures: &Figures) -> bool {
        is_over(self.clock, self.race, &self.time)
    }

    fn learned(&mut self, place: u32, clause: &[Literal], hints: &[Hint]) {
        self.listener.learned(place, clause, hints);
    }

    fn forgot(&mut self, place: u32) {
        self.listener.forgot(place);
    }
}

/// Stops the search, counts the states that it comes to, and does what another watch does.
#[derive(Drop)]
pub(crate) struct SearchLaneWatch<'a, 'b, 'c, V: EndWatch, C: Clock> {
    pub(crate) clock: &'a C,
    pub(crate) race: &'b Race,
    pub(crate) time: Option<TimeLimit>,
    pub(crate) inner: &'c mut V,
    pub(crate) states: u64,
}

impl<'a, 'b, 'c, V: EndWatch, C: Clock> Watch for SearchLaneWatch<'a, 'b, 'c, V, C> {
    ghost use Rattle.std.specs.Prelude.{true};

    ghost may_stop = { true };

    fn look(&mut self, chosen: &[u16], left: u64) -> bool {
        // (the other one looks first, so that a search that is stopped has its last line)
        self.inner.look(chosen, left) || is_over(self.clock, self.race, &self.time)
    }

    #[inline(always)]
    fn made(&mut self, visits: u64, left: u64) {
        self.states = self.states.saturating_add(visits);
        self.inner.made(visits, left);
    }
}

impl<'a, 'b, 'c, V: EndWatch, C: Clock> ReasonWatch for SearchLaneWatch<'a, 'b, 'c, V, C> {
    fn look(&mut self) -> bool {
        // (while a reason is looked for no option is chosen)
        self.inner.look(&[], u64::MAX) || is_over(self.clock, self.race, &self.time)
    }
}

/// Counts the states that a search comes to, and stops nothing.
#[derive(Drop)]
pub(crate) struct CountingWatch {
    pub(crate) states: u64,
}

impl Watch for CountingWatch {
    ghost use Rattle.std.specs.Prelude.{false};

    ghost may_stop = { false };

    fn look(&mut self, _chosen: &[u16], _left: u64) -> bool {
        false
    }

    #[inline(always)]
    fn made(&mut self, visits: u64, _left: u64) {
        self.states = self.states.saturating_add(visits);
    }
}
