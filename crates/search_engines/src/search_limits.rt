//! The limits of a search by one thread.

ghost use Rattle.std.specs.Prelude.{◌≡◌, ◌≤◌};
ghost use Rattle.std.specs.Option.{ForSome};

use crate::stopwatch::Stopwatch;
use std::time::{Clock, Duration};

/// How long a search may last, from when this was made.
#[derive(Clone, Copy)]
pub struct TimeLimit {
    stopwatch: Stopwatch,
    time: Duration,
}

impl TimeLimit {
    /// Returns a limit that begins now.
    pub fn from_now<C: Clock>(clock: &C, time: Duration) -> TimeLimit {
        TimeLimit {
            stopwatch: Stopwatch::new(clock),
            time,
        }
    }

    /// Returns whether so much time has passed. Where the clock can't be read it has: else the search might never end.
    pub fn is_over<C: Clock>(&self, clock: &C) -> bool {
        match self.stopwatch.elapsed(clock) {
            Some(elapsed) => elapsed >= self.time,
            None => true,
        }
    }
}

/// How many prefixes a search may count, and how long it may last.
#[derive(Clone, Copy)]
pub struct SearchLimits {
    /// How many prefixes it may count, from 1: those that it visits, and those below a state that it skips. Any number
    /// where there is none.
    pub fuel: Option<u64>,
    /// How long it may last; as long as it takes where there is none.
    pub time: Option<TimeLimit>,
    pub ghost some_fuel: { ForSome fuel (λ fuel. 1 ≤ fuel) },
}

impl SearchLimits {
    /// Returns the limits of a search.
    pub fn new(fuel: Option<u64>, time: Option<TimeLimit>) -> SearchLimits
        requires { ForSome fuel (λ fuel. 1 ≤ fuel) }
        ensures fuel { result.fuel ≡ fuel }
        ensures time { result.time ≡ time }
    {
        SearchLimits { fuel, time }
    }

    /// Returns whether the search has lasted as long as it may.
    pub fn is_late<C: Clock>(&self, clock: &C) -> bool {
        match &self.time {
            Some(time) => time.is_over(clock),
            None => false,
        }
    }
}
