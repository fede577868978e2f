//! What may stop a search before its fuel is spent, and when it looks.

ghost use Rattle.std.specs.Prelude.{◌≡◌, Bool, true, IsTrue};

use std::sync::atomic::{AtomicBool, Ordering};

/// What looks at a search now and then, and may stop it.
pub trait Watch {
    /// Whether it ever stops one.
    ghost may_stop: { Bool };

    /// Looks at a search that has chosen these options and has so many visits left. Answers whether the search is to
    /// stop.
    fn look(&mut self, chosen: &[u16], left: u64) -> bool
        ensures { IsTrue result → may_stop ≡ true };

    /// How many visits a search that keeps states may make before it looks, where that is to be sooner than after
    /// 1,024.
    #[inline(always)]
    fn wait(&self) -> u64 {
        u64::MAX
    }

    /// Hears that the search has made so many visits more, and how many are left: of each where it looks for states,
    /// else at the end of a stretch. Where it went past a state that was kept, only one of its visits is made, but all
    /// of them are gone.
    #[inline(always)]
    fn made(&mut self, _visits: u64, _left: u64) {}
}

/// A watch looks once in so many visits, or sooner where it asks for that.
pub(crate) const EVERY: u64 = 1_024;

/// When a watch is to look at a search that keeps states.
#[derive(Clone, Copy, Debug, Default)]
pub(crate) struct Lookout {
    /// How many visits were made since it last looked.
    made: u64,
}

impl Lookout {
    /// Whether the watch is to look now; then the count begins again.
    #[inline(always)]
    pub(crate) fn is_due<W: Watch>(&mut self, watch: &W) -> bool {
        if self.made < EVERY && watch.wait() > 0 {
            return false;
        }
        self.made = 0;
        true
    }

    /// Counts visits that were made.
    #[inline(always)]
    pub(crate) fn made(&mut self, visits: u64) {
        self.made = self.made.saturating_add(visits);
    }
}

/// The watch that stops nothing.
#[derive(Clone, Copy, Debug, PartialEq, Eq)]
pub struct Unwatched;

impl Watch for Unwatched {
    ghost use Rattle.std.specs.Prelude.{false};

    ghost may_stop = { false };

    fn look(&mut self, _chosen: &[u16], _left: u64) -> bool {
        false
    }
}

/// A flag that stops searches once it is raised.
impl Watch for &AtomicBool {
    ghost may_stop = { true };

    fn look(&mut self, _chosen: &[u16], _left: u64) -> bool {
        // (relaxed: the search reads nothing else that whoever raised the flag wrote)
        self.load(Ordering::Relaxed)
    }
}
