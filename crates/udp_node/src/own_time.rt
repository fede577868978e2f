//! A clock that stands still while the process does.
//!
//! A process that was stopped, or a machine that slept, wakes to a clock that is far ahead, and would take the silence
//! of its own absence for that of the others. So no more than a tenth of a second counts from one look to the next.

use std::time::{Clock, Duration, Instant};

/// How many milliseconds count at most from one look at the clock to the next: where the whole process was held up for
/// longer, nothing could come meanwhile, so the site was not left alone.
const MOST: u64 = 100;

/// How many count where the clock can't be read: what a receive takes that waits.
const UNREAD: u64 = 4;

/// The time of a thread since it began, as far as it ran.
#[derive(Clone, Copy)]
pub struct OwnTime {
    /// In microseconds.
    now: u64,
    /// The clock at the last look.
    looked: Option<Instant>,
}

impl OwnTime {
    /// That of a thread before its first look.
    pub fn new() -> OwnTime {
        OwnTime {
            now: 0,
            looked: None,
        }
    }

    /// Looks at the clock, and returns how many microseconds have passed in all.
    pub fn look<C: Clock>(&mut self, clock: &C) -> u64 {
        let looked = Instant::now(clock).ok();
        let passed = match (self.looked, looked) {
            (Some(before), Some(now)) => {
                now.duration_since(before).min(Duration::from_millis(MOST))
            },
            (None, Some(_)) => Duration::ZERO,
            (_, None) => Duration::from_millis(UNREAD),
        };
        self.looked = looked;
        // (at most 100,000, so it fits)
        self.now = self.now.saturating_add(passed.as_micros() as u64);
        self.now
    }
}
