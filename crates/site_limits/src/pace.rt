//! How much a worker searches before it posts what came of it.
//!
//! This is control of granularity. Small jobs fill books with entries and queues with packets; large ones leave workers
//! idle at a run's end. So a job grows with what its worker has searched, is small while somebody asks in vain, and is
//! split at once where searches of prefixes as long as its own ran out before. Only speed depends on it.

ghost use Rattle.std.specs.Prelude.{◌≤◌, IfOk};

use crate::hunger::Hunger;
use brancher::Outcome;
use std::alloc::{AllocError, Global};

/// A job in plenty gets so many times the base at least, before it is taken eightfold: 240 times `--fuel` in all. In a
/// simulation of four workers these made `skewed` 3.90 times as fast as one thread, jobs half as long 3.89
/// (`bench/TRIED.md`).
const PLENTY: u64 = 30;

/// Where states are kept, the first search gets so many times as many visits: it is to see whether states repeat. By
/// default that is 24,000 visits, and the second trial is within them (`trials` of brancher).
const FIRST: u64 = 24;

/// A search that saves many visits by the states that are kept gets so many times the base at most: 16,000,000 by
/// default. Chosen, not measured.
const LONGEST: u64 = 16_000;

/// Of so many visits that a worker has made, a job in plenty gets one, taken eightfold then: a 128th. Chosen, not
/// measured by itself.
const SHARE: u64 = 1_024;

/// How many searches of the next length one of an unknown length is thought to take. Chosen, not measured.
const WIDTH: u64 = 8;

/// How many visits a search that keeps states may make.
#[derive(Clone, Copy, Debug, PartialEq, Eq)]
pub struct Quota {
    /// So many in any case.
    pub visits: u64,
    /// So many where the states that are kept save many.
    pub most: u64,
}

/// How many visits a worker's next search gets. Where work is short jobs are small, so that they are split; in plenty
/// they are large and grow with the work done, so that few visits are made twice. A search that runs out of visits is
/// lost, so a prefix that is thought to take far more is split at once: for each length of a prefix a worker keeps how
/// many visits a search without a cover takes, as the last ones show. It learns from long prefixes upwards: a length of
/// which it knows nothing is thought to take eight times the next one, and where that isn't known either, too much.
#[derive(Debug, Drop)]
pub struct Pace {
    /// How many visits a first search has, at least 1.
    base: u64,
    /// Nobody else waits for work.
    alone: bool,
    /// How many visits its searches have made.
    visits: u64,
    /// A search of more than a small job's visits was spent, and none has ended without a cover since then.
    is_wary: bool,
    /// By the prefix's length, how many visits a search is thought to take, once one has ended.
    expected: Vec<Option<u64>>,
}

impl Pace {
    /// The pace of a worker before its first search: a first search has so many visits (0 counts as 1), it is alone or
    /// not, and no prefix is longer than so many options. The only error is out of memory.
    pub fn new(alloc: Global, base: u64, alone: bool, longest: usize) -> Result<Pace, AllocError> {
        let mut expected = Vec::with_capacity(alloc, longest)?;
        for _ in 0..longest {
            expected.push(None)?;
        }
        Ok(Pace {
            base: base.max(1),
            alone,
            visits: 0,
            is_wary: false,
            expected,
        })
    }

    /// How many visits the search of a prefix of this length gets, at a site of this hunger.
    ///
    /// With a base of 1 each gets one visit. Else a worker that is alone has no limit; the prefix without an option
    /// gets the base; where hunger is felt, a fifth of it; and else eight times the greater of 30 times the base and a
    /// 1,024th of the visits made, unless it is thought to take more than that greater number, or nothing is known of
    /// its length and the next: then it gets a fifth of the base, and what was thought of its length is a tenth less
    /// the next time. After a search of more than that fifth was spent, each gets a fifth of the base until one ends
    /// without a cover: what is behind a spent prefix may take as long, at each length.
    pub fn visits(&mut self, length: usize, hunger: &Hunger) -> u64
        ensures { 1 ≤ result }
    {
        // (the empty prefix is the only job at first: until it is split all other workers wait)
        if self.base == 1 || (length == 0 && !self.alone) {
            return self.base.max(1);
        }
        if self.alone {
            return u64::MAX;
        }
        if hunger.is_felt() || self.deem_too_long(length) || self.is_wary {
            return self.small();
        }
        // (searches of one length differ, and one that is spent is lost: so it gets far more than it is thought to
        // take)
        self.plenty().saturating_mul(8).max(1)
    }

    /// The quota of a search of a prefix of this length that keeps states, where one that keeps none has so many
    /// visits.
    pub fn quota(&self, length: usize, visits: u64) -> Quota {
        // (a small job is there to be split, so its quota doesn't grow, however much its states save)
        if self.base == 1 || visits <= self.small() {
            return Quota {
                visits,
                most: visits,
            };
        }
        let visits = if length == 0 {
            visits.saturating_mul(FIRST)
        } else {
            visits
        };
        let most = visits.max(self.base.saturating_mul(LONGEST));
        Quota { visits, most }
    }

    /// A search of a prefix of this length ended so, after so many visits.
    ///
    /// One without a cover is a quarter of what is thought of such prefixes from now on, the first one all of it; one
    /// that was spent with more than a small job's visits is thought to take twice its visits at least.
    pub fn note(&mut self, length: usize, outcome: Outcome, visits: u64) {
        self.visits = self.visits.saturating_add(visits);
        let small = self.small();
        match outcome {
            Outcome::Barren => self.is_wary = false,
            // (a small job that is spent says nothing of how long its search is)
            Outcome::Spent if visits > small => self.is_wary = true,
            Outcome::Cover | Outcome::Spent => {}
        }
        let Some(expected) = self.expected.get_mut(length) else {
            return;
        };
        match outcome {
            Outcome::Barren => *expected = Some(mean(*expected, visits)),
            Outcome::Spent if visits > small => {
                let least = visits.saturating_mul(2);
                *expected = Some(expected.unwrap_or(0).max(least));
            }
            Outcome::Cover | Outcome::Spent => {}
        }
    }

    /// A small job's visits: a fifth of the base, at least one.
    fn small(&self) -> u64
        ensures { 1 ≤ result }
    {
        (self.base / 5).max(1)
    }

    /// What a job in plenty takes at most, as far as is known.
    fn plenty(&self) -> u64 {
        self.base.saturating_mul(PLENTY).max(self.visits / SHARE)
    }

    /// Whether a search of a prefix of this length is thought to take more than a job in plenty does; where searches of
    /// this length have told so, it is thought to take a tenth less the next time.
    fn deem_too_long(&mut self, length: usize) -> bool {
        let plenty = self.plenty();
        let next = self
            .expected
            .get(length.saturating_add(1))
            .copied()
            .flatten();
        match self.expected.get_mut(length) {
            Some(Some(expected)) if *expected > plenty => {
                // (divided first, so that no product can leave 64 bits)
                *expected = *expected / 10 * 9;
                true
            }
            Some(None) => match next {
                Some(next) => next.saturating_mul(WIDTH) > plenty,
                None => true,
            },
            Some(Some(_)) | None => false,
        }
    }
}

/// What is thought of searches, after one more of so many visits.
fn mean(thought: Option<u64>, visits: u64) -> u64 {
    match thought {
        Some(thought) => thought / 4 * 3 + visits / 4,
        None => visits,
    }
}
