//! A watch that lets a search rest now and then, and looks for a reason meanwhile.
//!
//! So a reason of a small problem is found after a hundredth of a second, and one that takes long in a search that
//! takes far longer, and no search is begun again for it. What it costs is 0.6 thousandths of a second at first, and
//! then an 80th of the search's time at the most, each time it looks: with times four times as long from one to the
//! next, a 60th of all.

ghost use Rattle.std.specs.Prelude.{◌≡◌, [], true, None, IfSome};
ghost use Rattle.cover_problem.specs.Search.{first};
ghost use Rattle.dlx_reader.specs.Writing.{IsWritable};
ghost use Rattle.search_engines.specs.Alone.{answer_by};

use crate::stopwatch::Stopwatch;
use brancher::Watch;
use cover_problem::{Answer, Problem};
use cover_reasons::{
    Reason, ReasonWatch, find_fractional_reason_until, find_reason_until, find_short_reason_until,
    holds_of,
};
use std::alloc::{AllocError, Global};
use std::time::{Clock, Duration};

/// How many milliseconds a search has lasted when a reason is looked for first: any one.
pub(crate) const EARLY: u64 = 10;

/// The same for the first time that one by multipliers alone is looked for, after those of other kinds were.
pub(crate) const LATE: u64 = 640;

/// Which part of a search's time goes by at most while a reason is looked for, unless that is less than `LEAST`.
const PART: u64 = 80;

/// For how many microseconds a reason is looked for at most in a search that is young. With what is done between two
/// looks at the clock, a search that finds none then lasts less than a thousandth of a second longer.
const LEAST: u64 = 600;

/// How many options a problem has at most of which a reason is looked for at `EARLY`: of one with more, the first look
/// at all options takes longer than a thousandth of a second.
const MOST_OPTIONS: usize = 2_000;

/// How many items it has at most if multipliers are looked for then, too: with 1,000 their matrix takes 8 MB.
const MOST_ITEMS: usize = 300;

/// A watch that ends the search for a reason after so many microseconds.
#[derive(Drop)]
struct BriefWatch<'a, C: Clock> {
    clock: &'a C,
    stopwatch: Stopwatch,
    most: u64,
}

impl<'a, C: Clock> ReasonWatch for BriefWatch<'a, C> {
    fn look(&mut self) -> bool {
        match self.stopwatch.elapsed(self.clock) {
            Some(elapsed) => elapsed >= Duration::from_micros(self.most),
            None => true,
        }
    }
}

/// A reason of a problem that is small enough, if it is found before the watch ends that. The only error is out of
/// memory.
fn find_early_reason<W: ReasonWatch>(
    alloc: Global,
    problem: &Problem,
    watch: &mut W,
) -> Result<Option<Reason>, AllocError> {
    if problem.options() > MOST_OPTIONS {
        return Ok(None);
    }
    if problem.items() > MOST_ITEMS {
        return find_short_reason_until(alloc, problem, watch);
    }
    find_reason_until(alloc, problem, watch)
}

/// A watch that stops a search where another one does, or once it has found a reason. Where the clock can't be read it
/// looks for none.
#[derive(Drop)]
pub(crate) struct LookingWatch<'a, 'b, V: Watch, C: Clock> {
    clock: &'a C,
    alloc: Global,
    problem: &'a Problem,
    inner: &'b mut V,
    stopwatch: Stopwatch,
    /// How many milliseconds the search has lasted when a reason is looked for next.
    next: u64,
    reason: Option<Reason>,
}

impl<'a, 'b, V: Watch, C: Clock> LookingWatch<'a, 'b, V, C> {
    /// A watch over a search that begins now, which looks for a reason after so many milliseconds.
    pub(crate) fn new(
        clock: &'a C,
        alloc: Global,
        problem: &'a Problem,
        inner: &'b mut V,
        next: u64,
    ) -> LookingWatch<'a, 'b, V, C> {
        LookingWatch {
            clock,
            alloc,
            problem,
            inner,
            stopwatch: Stopwatch::new(clock),
            next,
            reason: None,
        }
    }

    /// Returns whether the reason that it has found, if any, is one why the problem has no cover.
    fn excludes(&self, problem: &Problem) -> bool
        ensures { result ≡ true → first problem.now [] ≡ None }
    {
        match &self.reason {
            // (for its clause, that a search finds nothing then: the finder has tested the reason already)
            Some(reason) => holds_of(problem, reason),
            None => false,
        }
    }

    /// Returns the answer that the problem has by the reason that it has found, if any: that there is no cover.
    pub(crate) fn answer(&self, problem: &Problem) -> Option<Answer>
        ensures answer { IfSome result (λ answer. answer ≡ answer_by problem.now (first problem.now [])) }
        ensures order { IfSome result (IsWritable problem.now) }
    {
        if self.excludes(problem) {
            Some(Answer::NoCover)
        } else {
            None
        }
    }

    /// Looks for a reason if it is time to do so. Returns whether there is one.
    fn look_for_reason(&mut self) -> bool {
        match self.stopwatch.elapsed(self.clock) {
            Some(elapsed) => {
                elapsed >= Duration::from_millis(self.next) && self.look_for_reason_within()
            }
            None => false,
        }
    }

    /// Looks for a reason, for a part of the time that the search has lasted. Returns whether there is one.
    fn look_for_reason_within(&mut self) -> bool {
        let now = self.next;
        self.next = now.max(LATE / 4).saturating_mul(4);
        let mut brief = BriefWatch {
            clock: self.clock,
            stopwatch: Stopwatch::new(self.clock),
            most: (now.saturating_mul(1_000) / PART).max(LEAST),
        };
        let found = if now >= LATE {
            find_fractional_reason_until(self.alloc, self.problem, &mut brief)
        } else {
            find_early_reason(self.alloc, self.problem, &mut brief)
        };
        // (where memory runs out there is none, and that is no error: a search may need less)
        self.reason = found.unwrap_or(None);
        self.reason.is_some()
    }
}

impl<'a, 'b, V: Watch, C: Clock> Watch for LookingWatch<'a, 'b, V, C> {
    ghost use Rattle.std.specs.Prelude.{true};

    ghost may_stop = { true };

    fn look(&mut self, chosen: &[u16], left: u64) -> bool {
        self.inner.look(chosen, left) || self.look_for_reason()
    }

    #[inline(always)]
    fn wait(&self) -> u64 {
        self.inner.wait()
    }

    #[inline(always)]
    fn made(&mut self, visits: u64, left: u64) {
        self.inner.made(visits, left);
    }
}
