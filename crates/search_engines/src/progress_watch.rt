//! Watches that learn when the search ends, and the one of them that writes progress.

use crate::line_timer::LineTimer;
use crate::progress::Progress;
use crate::progress_log::{LineStyle, ProgressLog};
use crate::tree_estimate::TreeEstimate;
use brancher::{Unwatched, Watch};
use cover_problem::Problem;
use dlx_reader::Sink;
use std::alloc::{AllocError, Global};
use std::time::Clock;

/// A watch that learns when the search ends.
pub trait EndWatch: Watch {
    /// Is called once, when the search has ended.
    fn end(&mut self);

    /// Hears something that is worth a line, once the search has ended.
    fn tell(&mut self, _words: &str) {}
}

impl EndWatch for Unwatched {
    fn end(&mut self) {}
}

/// A watch that stops nothing, and writes now and then how far a search of the empty prefix has come. Where the clock
/// can't be read it writes nothing.
#[derive(Drop)]
pub struct ProgressWatch<'a, E: Sink, C: Clock> {
    clock: &'a C,
    /// None where nobody sees it: at the limits of the format it takes megabytes.
    estimate: Option<TreeEstimate<'a>>,
    log: ProgressLog<'a, E>,
    /// How many visits the search said that it made.
    made: u64,
    /// What was left of its fuel then.
    left: u64,
    timer: LineTimer,
}

impl<'a, E: Sink, C: Clock> ProgressWatch<'a, E, C> {
    /// Returns a watch over a search that begins now and has so much fuel. The only error is out of memory.
    pub fn new(
        clock: &'a C,
        alloc: Global,
        problem: &'a Problem,
        fuel: u64,
        log: ProgressLog<'a, E>,
    ) -> Result<ProgressWatch<'a, E, C>, AllocError> {
        let estimate = match log.style() {
            LineStyle::Silent => None,
            LineStyle::Listed | LineStyle::Overwritten => Some(TreeEstimate::new(alloc, problem)?),
        };
        Ok(ProgressWatch {
            clock,
            estimate,
            log,
            made: 0,
            left: fuel,
            timer: LineTimer::new(clock),
        })
    }
}

impl<'a, E: Sink, C: Clock> EndWatch for ProgressWatch<'a, E, C> {
    /// Ends the last line before the answer is written, which on a terminal would else follow it on the same line.
    fn end(&mut self) {
        self.log.end();
    }

    fn tell(&mut self, words: &str) {
        self.log.tell(words);
    }
}

impl<'a, E: Sink, C: Clock> Watch for ProgressWatch<'a, E, C> {
    ghost use Rattle.std.specs.Prelude.{false};

    ghost may_stop = { false };

    fn look(&mut self, chosen: &[u16], left: u64) -> bool {
        let Some(estimate) = &mut self.estimate else {
            return false;
        };
        // (before the share, since the estimate chooses all these options once more, which only a line is worth)
        let Some(seconds) = self.timer.due(self.clock, self.log.style()) else {
            return false;
        };
        // (what went past a kept state is gone, but wasn't made; what is gone since the search last said so was made)
        let visits = self.made.saturating_add(self.left.saturating_sub(left));
        self.log.write(Progress {
            seconds,
            visits,
            share: estimate.share(chosen),
            jobs: None,
            fullest: None,
        });
        false
    }

    #[inline(always)]
    fn made(&mut self, visits: u64, left: u64) {
        self.made = self.made.saturating_add(visits);
        self.left = left;
    }
}
