//! When lines of progress are due.

use crate::progress_log::LineStyle;
use crate::stopwatch::Stopwatch;
use std::time::{Clock, Duration};

/// How many seconds lie between two lines at least, and before the first.
const PAUSE: u64 = 1;

/// After so many seconds the pause between listed lines is longer, and after still more it is longer again: the log of
/// a night's search fills a page, and its first minute shows each second.
const LONG: u64 = 60;

/// How long the pause is then, in seconds. Chosen, not measured, as the next two.
const LONG_PAUSE: u64 = 10;

/// After how many seconds it is longest: an hour.
const LONGEST: u64 = 3_600;

/// How long it is then, in seconds.
const LONGEST_PAUSE: u64 = 60;

/// When the next line is due. Where the clock can't be read none is.
#[derive(Clone, Copy)]
pub struct LineTimer {
    stopwatch: Stopwatch,
    /// After how much time the next line is due.
    due: Duration,
}

impl LineTimer {
    /// Returns a timer of lines that starts now.
    pub fn new<C: Clock>(clock: &C) -> LineTimer {
        LineTimer {
            stopwatch: Stopwatch::new(clock),
            due: Duration::from_secs(PAUSE),
        }
    }

    /// Returns how many whole seconds have passed, if a line of this style is due; the next one is then due a pause
    /// later.
    pub fn due<C: Clock>(&mut self, clock: &C, style: LineStyle) -> Option<u64> {
        // (the clock is a call of the system, which a search that nobody follows does without)
        if style == LineStyle::Silent {
            return None;
        }
        let elapsed = self.stopwatch.elapsed(clock)?;
        if elapsed < self.due {
            return None;
        }
        let seconds = elapsed.as_secs();
        let pause = Duration::from_secs(pause_after(seconds, style));
        // (from now, not from when the line was due: after a long step of the search no lines are made up for)
        self.due = elapsed.saturating_add(pause);
        Some(seconds)
    }
}

/// Returns how many seconds lie between a line after so many seconds and the next.
fn pause_after(seconds: u64, style: LineStyle) -> u64 {
    match style {
        LineStyle::Listed if seconds >= LONGEST => LONGEST_PAUSE,
        LineStyle::Listed if seconds >= LONG => LONG_PAUSE,
        LineStyle::Listed | LineStyle::Overwritten | LineStyle::Silent => PAUSE,
    }
}
