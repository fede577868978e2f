//! Where a search looks for states that it keeps. No contract speaks of it: whatever is chosen, the search comes to the
//! same, and only how long that takes depends on it.
//!
//! A look costs some visits, so a search in which nothing repeats is not to look. In a trial it looks at all depths,
//! and counts for each how many looks there were and how many visits they saved. A state that is found at a depth saves
//! its visits if nothing is looked for below it; so the trial ends with the depth up to which the looks saved most,
//! less what they cost. Behind it nothing is looked for until the next trial, which comes after twice as many visits
//! each time.
//!
//! Before the first trial looks, some visits are made: a search that ends within them has no use for a table.

ghost use Rattle.std.specs.Prelude.{◌<◌};

use std::alloc::{AllocError, Global};

/// How many looks a trial has.
const TRIAL: u64 = 768;
// (a hard sudoku takes some dozens, by links, where a look takes as many instructions as five visits: each item's bit
// is asked for)
/// How many visits there are at first in which nothing is looked for or kept.
const EARLY: u64 = 128;
/// What a look costs, in visits.
const COST: u64 = 3;
/// Looks that cost so small a part of all visits are made in any case.
const FREE_PART: u64 = 64;
// (so the second trial is within the first job of a run, which has 24,000 visits by default)
/// The first trials come after so many times as many visits as a trial has looks.
const FIRST_PAUSE: u64 = 20;
/// The same where looks pay at almost all depths.
const PAUSE_WHERE_ALL_PAY: u64 = 64;
/// The most visits between two trials.
const LONGEST_PAUSE: u64 = 1 << 32;
/// The most visits that count as saved by one look, so that one lucky look doesn't decide.
const MOST_SAVED: u64 = 1 << 30;

/// How deep a search looks for states, by what the looks saved that it made.
#[derive(Drop)]
pub(crate) struct Trials {
    /// How many looks this trial made, at each depth.
    looks: Vec<u64>,
    /// How many visits these saved.
    saved: Vec<u64>,
    /// The greatest depth at which states are looked for.
    deepest: usize,
    /// Whether this is a trial.
    is_trial: bool,
    /// How many looks are left of the trial.
    left: u64,
    /// How many visits were made since the trial began, or since it ended.
    made: u64,
    /// How many visits there are to be until the next trial.
    pause: u64,
}

impl Trials {
    /// The first trial, for prefixes of fewer than so many options; none ever where there are no keys. The only error
    /// is out of memory.
    pub(crate) fn build(
        alloc: Global,
        depths: usize,
        has_keys: bool,
    ) -> Result<Trials, AllocError> {
        let looks = vec![in alloc; 0u64; depths]?;
        let saved = vec![in alloc; 0u64; depths]?;
        let (deepest, pause) = if has_keys {
            (usize::MAX, 0)
        } else {
            (0, u64::MAX)
        };
        Ok(Trials {
            looks,
            saved,
            deepest,
            is_trial: has_keys,
            left: TRIAL,
            made: 0,
            pause,
        })
    }

    /// Whether nothing is looked for at this depth and below.
    #[inline(always)]
    pub(crate) fn is_beyond(&self, depth: usize) -> bool {
        depth > self.deepest
    }

    /// Whether the search has made too few visits yet to look for anything, or to keep it.
    #[inline(always)]
    pub(crate) fn is_early(&self) -> bool {
        // (only the first trial has no pause before it)
        self.pause == 0 && self.made < EARLY
    }

    /// Lets the search look from now on.
    #[inline(always)]
    pub(crate) fn begin_looks(&mut self) {
        self.made = self.made.max(EARLY);
    }

    /// How many visits may be made until the next trial.
    pub(crate) fn until_trial(&self) -> u64
        ensures { 0 < result }
    {
        self.pause.saturating_sub(self.made).max(1)
    }

    /// Counts a look.
    #[inline(always)]
    pub(crate) fn looked(&mut self, depth: usize) {
        if let Some(looks) = self.looks.get_mut(depth) {
            *looks = looks.saturating_add(1);
        }
        self.left = self.left.saturating_sub(1);
    }

    /// Counts what a look saved that found a state of so many visits.
    #[inline(always)]
    pub(crate) fn found(&mut self, depth: usize, visits: u64) {
        if let Some(saved) = self.saved.get_mut(depth) {
            // (less one, since the visit of the state itself is made)
            *saved = saved.saturating_add(visits.saturating_sub(1).min(MOST_SAVED));
        }
    }

    /// Counts visits that were made, and begins or ends a trial where it is time.
    #[inline(always)]
    pub(crate) fn made(&mut self, visits: u64) {
        self.made = self.made.saturating_add(visits);
        if self.is_trial {
            if self.left == 0 {
                self.end_trial();
            }
        } else if self.made >= self.pause {
            self.begin_trial();
        }
    }

    /// Begins a trial: looks at all depths.
    fn begin_trial(&mut self) {
        self.is_trial = true;
        self.left = TRIAL;
        self.made = 0;
        self.deepest = usize::MAX;
        self.looks.as_mut_slice().fill(0);
        self.saved.as_mut_slice().fill(0);
    }

    /// Ends a trial: chooses the depth up to which states are looked for until the next one.
    fn end_trial(&mut self) {
        let worth = self.worth();
        self.deepest = match worth.depth() {
            Some(depth) if depth < worth.last => depth,
            // (looks paid, or cost little, as deep as there were any: nothing speaks for a bound)
            Some(_) => usize::MAX,
            None => 0,
        };
        self.pause = match self.pause {
            _ if worth.is_everywhere() => PAUSE_WHERE_ALL_PAY * TRIAL,
            0 => FIRST_PAUSE * TRIAL,
            pause => pause.saturating_mul(2).min(LONGEST_PAUSE),
        };
        self.is_trial = false;
        self.made = 0;
    }

    /// What the looks of this trial were worth.
    fn worth(&self) -> Worth {
        let mut worth = Worth::default();
        for (depth, looks) in self.looks.iter().enumerate() {
            let saved = self.saved.get(depth).copied().unwrap_or(0);
            worth.add(depth, *looks, saved, self.made);
        }
        worth
    }
}

/// What looks up to a depth were worth.
#[derive(Clone, Copy, Debug, Default)]
struct Worth {
    /// How many visits the looks up to this depth saved.
    saved: u64,
    /// How many visits they cost.
    cost: u64,
    /// The same up to the depth where the difference is greatest.
    best_saved: u64,
    best_cost: u64,
    /// That depth, if the looks up to it saved more than they cost.
    best: Option<usize>,
    /// The greatest depth up to which looks cost little.
    free: Option<usize>,
    /// The greatest depth at which there was a look.
    last: usize,
}

impl Worth {
    /// Adds the looks at the next depth, of a trial of so many visits.
    fn add(&mut self, depth: usize, looks: u64, saved: u64, made: u64) {
        if looks > 0 {
            self.last = depth;
        }
        self.saved = self.saved.saturating_add(saved);
        self.cost = self.cost.saturating_add(looks.saturating_mul(COST));
        // (sums in place of differences, which could be negative)
        if self.saved.saturating_add(self.best_cost) > self.best_saved.saturating_add(self.cost) {
            self.best_saved = self.saved;
            self.best_cost = self.cost;
            self.best = Some(depth);
        }
        if self.cost.saturating_mul(FREE_PART) <= made {
            self.free = Some(depth);
        }
    }

    /// The greatest depth at which a look pays, or costs little.
    fn depth(&self) -> Option<usize> {
        self.best.max(self.free)
    }

    /// Whether looks paid at almost all depths.
    fn is_everywhere(&self) -> bool {
        match self.best {
            Some(depth) => depth.saturating_add(2) >= self.last,
            None => false,
        }
    }
}
