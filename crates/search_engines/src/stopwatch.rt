//! How long something has lasted.

use std::time::{Clock, Duration, Instant};

/// The time since it was made.
#[derive(Clone, Copy)]
pub struct Stopwatch {
    /// None where the clock couldn't be read.
    began: Option<Instant>,
}

impl Stopwatch {
    /// Returns one that starts now.
    pub fn new<C: Clock>(clock: &C) -> Stopwatch {
        Stopwatch {
            began: Instant::now(clock).ok(),
        }
    }

    /// Returns how much time has passed; none where the clock can't be read, or couldn't be at the start.
    pub fn elapsed<C: Clock>(&self, clock: &C) -> Option<Duration> {
        self.began?.elapsed(clock).ok()
    }
}
