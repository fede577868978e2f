//! What the lanes of a race share.
//!
//! A portfolio, as in SAT competitions (plingeling, and Gomes and Selman, "Algorithm portfolios"): ways whose times
//! have little to do with each other run side by side, and the first answer ends the others. Search, learner and
//! reasons have a thread each, on any number of processors; workers of a run get what is more, so that two lanes that
//! take turns aren't slowed down by a third for longer than a reason is looked for. For a tenth of a second the search
//! is alone, since most files are decided by then, but for a reason that is looked for on a second processor.

ghost use Rattle.std.specs.Prelude.{◌≤◌};

use search_engines::TimeLimit;
use std::sync::Wait;
use std::sync::atomic::{AtomicBool, Ordering};
use std::thread::Parker;
use std::time::{Clock, Duration};

/// How many milliseconds the search has before other lanes begin: what it decides in them needs no second thread at
/// work.
const ALONE: u64 = 100;

/// How many milliseconds it has before a reason is looked for on a processor of its own. With a hundredth of a second
/// in place of a tenth, files that have a reason end up to 0.09 seconds earlier (docs/DECISIONS.md).
const FIRST: u64 = 10;

/// How many threads search and learner have: what is more works in a run.
const LANES: u64 = 2;

/// How many workers a node has at most.
const MOST_WORKERS: u64 = 8;

/// How many workers a run has where so many threads may work; none where search and learner need all.
pub(crate) fn workers_of(threads: u64) -> u8
    ensures { result ≤ 8 }
{
    threads.saturating_sub(LANES).min(MOST_WORKERS) as u8
}

/// The limit of a search that begins now and is over when other lanes begin.
pub(crate) fn short_limit<C: Clock>(clock: &C) -> TimeLimit {
    TimeLimit::from_now(clock, Duration::from_millis(ALONE))
}

/// What the lanes of a race tell each other. No answer depends on it: it says when the others begin, and when all end.
#[derive(Drop)]
pub(crate) struct Race {
    /// The search has begun.
    has_begun: AtomicBool,
    /// A lane has an answer, or the time is over, so all end.
    is_over: AtomicBool,
    /// Where the learner waits before it begins.
    learner: Parker,
    /// Where the lane of the reason and the run waits before either begins.
    run: Parker,
}

impl Race {
    /// A race that nobody has begun.
    pub(crate) fn new() -> Race {
        Race {
            has_begun: AtomicBool::new(false),
            is_over: AtomicBool::new(false),
            learner: Parker::new(),
            run: Parker::new(),
        }
    }

    /// The search begins.
    pub(crate) fn begin(&self) {
        self.has_begun.store(true, Ordering::SeqCst);
    }

    /// Waits, for the learner, as `await_start` does for any lane.
    pub(crate) fn await_learning<R: Wait>(&self, rt: &R) -> bool {
        self.await_start(rt, &self.learner, ALONE)
    }

    /// Waits, for the reason where so many threads search and learn, as `await_start` does for any lane.
    pub(crate) fn await_reason<R: Wait>(&self, rt: &R, threads: u64) -> bool {
        let wait = if threads > 1 { FIRST } else { ALONE };
        self.await_start(rt, &self.run, wait)
    }

    /// Waits, for the run behind its reason, as `await_start` does for any lane.
    pub(crate) fn await_run<R: Wait>(&self, rt: &R) -> bool {
        self.await_start(rt, &self.run, ALONE - FIRST)
    }

    /// Waits for so many milliseconds, after which the search has lasted long enough for a further lane, or until it
    /// has ended. Returns whether the lane is to begin: not where the race is over, nor where the search hasn't begun.
    /// (The lane of a thread that can't be started runs before the others.)
    fn await_start<R: Wait>(&self, rt: &R, start: &Parker, milliseconds: u64) -> bool {
        start.park_timeout(rt, Duration::from_millis(milliseconds));
        self.has_begun.load(Ordering::SeqCst) && !self.is_over()
    }

    /// All lanes end, and those that wait don't begin.
    pub(crate) fn end(&self) {
        self.is_over.store(true, Ordering::SeqCst);
        self.learner.unpark();
        self.run.unpark();
    }

    /// Whether all lanes are to end.
    pub(crate) fn is_over(&self) -> bool {
        self.is_over.load(Ordering::SeqCst)
    }

    /// The flag that says so.
    pub(crate) fn over(&self) -> &AtomicBool {
        &self.is_over
    }
}
