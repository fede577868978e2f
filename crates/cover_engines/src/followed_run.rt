//! How far a run of sites has come, and why it ended.

use crate::first_cause::FirstCause;
use crate::overcounts::Overcounts;
use brancher::{Finding, Outcome};
use cover_problem::Problem;
use dlx_reader::Sink;
use search_engines::{LineTimer, Progress, ProgressLog, TreeEstimate};
use std::alloc::{AllocError, Global};
use std::sync::atomic::{AtomicU64, Ordering};
use std::sync::{Mutex, Wait};
use std::time::Clock;
use udp_node::{Follower, Gate, SiteEnd};

/// Follows a run, and writes now and then how far it has come: of the tree, what is below prefixes that were searched
/// without a cover, and what the search that reports has left behind it. Where the clock can't be read it writes
/// nothing of that. It writes that many jobs count more prefixes than a job can, once that is so.
#[derive(Drop)]
pub struct FollowedRun<'a, E: Sink, R: Wait + Clock> {
    rt: &'a R,
    overcounts: Overcounts,
    /// How full the fullest book is, in percent: of the entries that it may have, or of the bytes that the books of all
    /// sites may take.
    fullest: AtomicU64,
    state: Mutex<State<'a, E>>,
}

/// What is known of a run so far.
#[derive(Drop)]
struct State<'a, E: Sink> {
    estimate: TreeEstimate<'a>,
    log: ProgressLog<'a, E>,
    timer: LineTimer,
    visits: u64,
    share: u64,
    jobs: u64,
    /// A site has ended with which the run ends: no line follows.
    is_ended: bool,
    /// Why there is no answer, if the run ends without one.
    cause: FirstCause,
}

impl<'a, E: Sink, R: Wait + Clock> FollowedRun<'a, E, R> {
    /// The follower of a run that begins now. The only error is out of memory.
    pub fn new(
        rt: &'a R,
        alloc: Global,
        problem: &'a Problem,
        log: ProgressLog<'a, E>,
    ) -> Result<FollowedRun<'a, E, R>, AllocError> {
        let estimate = TreeEstimate::new(alloc, problem)?;
        let state = State {
            estimate,
            log,
            timer: LineTimer::new(rt),
            visits: 0,
            share: 0,
            jobs: 0,
            is_ended: false,
            cause: FirstCause::new(),
        };
        Ok(FollowedRun {
            rt,
            overcounts: Overcounts::new(),
            fullest: AtomicU64::new(0),
            state: Mutex::new(state),
        })
    }

    /// Notes that a book has so much of what it may have at most.
    fn fill(&self, part: u64, most: u64) {
        let percent = part.saturating_mul(100) / most.max(1);
        // (beside the lock, since each event of the threads of all nodes comes here)
        self.fullest.fetch_max(percent, Ordering::SeqCst);
    }

    /// Writes how far the run has come, and how full the fullest book is.
    fn write(&self, state: &mut State<'a, E>, progress: Progress) {
        let fullest = Some(self.fullest.load(Ordering::SeqCst));
        state.log.write(Progress {
            fullest,
            ..progress
        });
    }
}

impl<'a, E: Sink> State<'a, E> {
    /// Counts a prefix that a worker has searched. Visits of a search that found a cover aren't counted, since the run
    /// ends with it.
    fn note(&mut self, finding: &Finding, visits: u64) {
        self.jobs = self.jobs.saturating_sub(1);
        if finding.outcome() != Outcome::Cover {
            self.visits = self.visits.saturating_add(visits);
        }
        if finding.outcome() == Outcome::Barren {
            let part = self.estimate.part(finding.prefix());
            // (what was redone for a restarted node counts twice, so the sum might pass the whole)
            self.share = self.share.saturating_add(part).min(TreeEstimate::WHOLE);
        }
    }

    /// How many seconds are over, where a line is due.
    fn due<C: Clock>(&mut self, clock: &C) -> Option<u64> {
        if self.is_ended {
            return None;
        }
        self.timer.due(clock, self.log.style())
    }

    /// Ends the last line, so that the answer is on one of its own. No line follows.
    fn end(&mut self) {
        self.is_ended = true;
        self.log.end();
    }

    /// How far the run has come after so many seconds: so many visits and so much of the tree more than was noted.
    fn progress(&self, seconds: u64, visits: u64, share: u64) -> Progress {
        Progress {
            seconds,
            visits: self.visits.saturating_add(visits),
            share: self.share.saturating_add(share).min(TreeEstimate::WHOLE),
            jobs: Some(self.jobs),
            fullest: None,
        }
    }
}

impl<'a, E: Sink, R: Wait + Clock> Gate for FollowedRun<'a, E, R> {}

impl<'a, E: Sink, R: Wait + Clock> Follower for FollowedRun<'a, E, R> {
    fn begun(&self) {
        let mut state = self.state.lock(self.rt);
        state.jobs = state.jobs.saturating_add(1);
    }

    fn seen(&self, length: usize, chosen: &[u16], made: u64) {
        let mut state = self.state.lock(self.rt);
        if let Some(seconds) = state.due(self.rt) {
            let share = state.estimate.share_below(length, chosen);
            let progress = state.progress(seconds, made, share);
            self.write(&mut state, progress);
        }
    }

    fn searched(&self, finding: &Finding, made: u64) {
        let mut state = self.state.lock(self.rt);
        state.note(finding, made);
        if self.overcounts.hear(finding) {
            state.log.tell(Overcounts::LINE);
        }
        if let Some(seconds) = state.due(self.rt) {
            let progress = state.progress(seconds, 0, 0);
            self.write(&mut state, progress);
        }
    }

    fn recorded(&self, entries: u64, most: u64) {
        self.fill(entries, most);
    }

    fn grown(&self, bytes: u64, most: u64) {
        self.fill(bytes.min(most), most);
    }

    fn ended(&self, _node: u8, end: &SiteEnd) {
        let mut state = self.state.lock(self.rt);
        state.end();
        state.cause.hear(end);
    }

    /// Where there is no answer, the reason is written.
    fn finished(&self, is_answered: bool) {
        let mut state = self.state.lock(self.rt);
        state.end();
        if !is_answered {
            let reason = state.cause.why();
            state.log.write_reason(reason);
        }
    }
}
