//! Where a worker's search meets the clock and the run: it is asked now and then (`EVERY` of brancher), stops a search
//! whose site ends, and shows it to the follower for lines of progress.
//!
//! Without kept states fuel alone bounds a job. With them one visit may count for millions, so the job is bounded by
//! the visits that it makes (`Quota`). Where states save much the job goes on to twice its visits; at each limit behind
//! that they have to save twice as much.

use crate::follower::Follower;
use crate::pace::Quota;
use brancher::Watch;
use std::sync::atomic::{AtomicBool, Ordering};

/// A search that keeps states goes on at its limit, up to twice as many visits, if so many times as many are gone as it
/// has made; at each limit behind it has to be twice as many times. So it goes on where states repeat in all that it
/// searches, not where some do. Chosen, not measured.
const MANY: u64 = 2;

/// Stops a worker's search once its site is to end, or, if it keeps states, once it has made so many visits as it may;
/// shows it to the follower meanwhile.
#[derive(Drop)]
pub struct SearchWatch<'a, F: Follower> {
    /// The site is to end.
    stop_flag: &'a AtomicBool,
    follower: &'a F,
    /// How long the prefix is that is searched.
    length: usize,
    /// With how much fuel it is searched.
    fuel: u64,
    /// How many visits it may make if it keeps states.
    quota: Quota,
    /// At its limit it goes on if so many times as many visits are gone as it has made.
    many: u64,
    /// How many visits it said that it has made.
    made: u64,
    /// How much fuel was left then.
    left: u64,
    /// It was stopped because the site is to end.
    is_called_off: bool,
}

impl<'a, F: Follower> SearchWatch<'a, F> {
    /// The watch of the search of a prefix of this length, with so much fuel and this quota. It stops it once
    /// `stop_flag` is raised.
    pub fn new(
        stop_flag: &'a AtomicBool,
        follower: &'a F,
        length: usize,
        fuel: u64,
        quota: Quota,
    ) -> SearchWatch<'a, F> {
        SearchWatch {
            stop_flag,
            follower,
            length,
            fuel,
            quota,
            many: MANY,
            made: 0,
            left: fuel,
            is_called_off: false,
        }
    }

    /// How many visits the search said that it has made: once it has ended, all but one at which a kept state may have
    /// spent its fuel.
    pub fn made_visits(&self) -> u64 {
        self.made
    }

    /// How many visits are gone by those.
    pub fn gone(&self) -> u64 {
        self.fuel.saturating_sub(self.left)
    }

    /// Whether it was stopped because the site is to end.
    pub fn is_called_off(&self) -> bool {
        self.is_called_off
    }

    /// Returns whether the search may make no more visits, and doubles its quota first, if it saves many.
    fn grow_or_stop(&mut self, left: u64) -> bool {
        if self.wait() > 0 {
            return false;
        }
        let gone = self.fuel.saturating_sub(left);
        if self.quota.visits < self.quota.most && gone > self.made.saturating_mul(self.many) {
            self.quota.visits = self.quota.visits.saturating_mul(2).min(self.quota.most);
            self.many = self.many.saturating_mul(2);
            return false;
        }
        true
    }
}

impl<'a, F: Follower> Watch for SearchWatch<'a, F> {
    ghost use Rattle.std.specs.Prelude.{true};

    ghost may_stop = { true };

    fn look(&mut self, chosen: &[u16], left: u64) -> bool {
        // (stopped by its quota, not by its site: what it came to so far is posted, so is_called_off stays as it is)
        if self.grow_or_stop(left) {
            return true;
        }
        // (what went past a kept state is gone, but wasn't made; what is gone since the search last said so was made)
        let made = self.made.saturating_add(self.left.saturating_sub(left));
        self.follower.seen(self.length, chosen, made);
        // (nothing else is read by this flag, and one look more does no harm, so it needs no order)
        self.is_called_off = self.stop_flag.load(Ordering::Relaxed);
        self.is_called_off
    }

    #[inline(always)]
    fn wait(&self) -> u64 {
        self.quota.visits.saturating_sub(self.made)
    }

    #[inline(always)]
    fn made(&mut self, visits: u64, left: u64) {
        self.made = self.made.saturating_add(visits);
        self.left = left;
    }
}
