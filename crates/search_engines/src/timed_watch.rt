//! A watch with a limit of time.

use crate::progress_watch::EndWatch;
use crate::search_limits::SearchLimits;
use brancher::Watch;
use std::time::Clock;

/// A watch that does what another one does, and stops the search once it has lasted as long as it may.
#[derive(Drop)]
pub struct TimedWatch<'a, V: EndWatch, C: Clock> {
    /// What tells the time.
    pub clock: &'a C,
    /// How long the search may last.
    pub limits: &'a SearchLimits,
    /// What looks first.
    pub inner: &'a mut V,
}

impl<'a, V: EndWatch, C: Clock> Watch for TimedWatch<'a, V, C> {
    ghost use Rattle.std.specs.Prelude.{true};

    ghost may_stop = { true };

    fn look(&mut self, chosen: &[u16], left: u64) -> bool {
        // (the other one looks first, so that a search that is stopped has its last line)
        self.inner.look(chosen, left) || self.limits.is_late(self.clock)
    }

    #[inline(always)]
    fn wait(&self) -> u64 {
        self.inner.wait()
    }

    #[inline(always)]
    fn made(&mut self, visits: u64, left: u64) {
        self.inner.made(visits, left);
    }
}

impl<'a, V: EndWatch, C: Clock> EndWatch for TimedWatch<'a, V, C> {
    fn end(&mut self) {
        self.inner.end();
    }
}
