//! A run that is not followed.

use crate::first_cause::FirstCause;
use crate::overcounts::Overcounts;
use brancher::Finding;
use dlx_reader::Sink;
use std::sync::{Mutex, Wait};
use udp_node::{Follower, Gate, SiteEnd};

/// Follows a run, and keeps why it ended without an answer. Before that it writes nothing, but that many jobs count
/// more prefixes than a job can, once that is so: such a run may come to nothing. A fault of the sink is passed over.
#[derive(Drop)]
pub struct QuietRun<'a, E: Sink, R: Wait> {
    rt: &'a R,
    overcounts: Overcounts,
    state: Mutex<Heard<'a, E>>,
}

/// What is known of a run so far.
#[derive(Drop)]
struct Heard<'a, E: Sink> {
    sink: &'a mut E,
    cause: FirstCause,
    /// Why there is no answer, once the run is over without one.
    unanswered: Option<&'static str>,
}

impl<'a, E: Sink, R: Wait> QuietRun<'a, E, R> {
    /// The follower of a run that hasn't begun.
    pub fn new(rt: &'a R, sink: &'a mut E) -> QuietRun<'a, E, R> {
        let heard = Heard {
            sink,
            cause: FirstCause::new(),
            unanswered: None,
        };
        QuietRun {
            rt,
            overcounts: Overcounts::new(),
            state: Mutex::new(heard),
        }
    }

    /// Why there is no answer, if the run ended without one.
    pub fn reason(&self) -> Option<&'static str> {
        self.state.lock(self.rt).unanswered
    }
}

impl<'a, E: Sink, R: Wait> Gate for QuietRun<'a, E, R> {}

impl<'a, E: Sink, R: Wait> Follower for QuietRun<'a, E, R> {
    fn searched(&self, finding: &Finding, _made: u64) {
        // (beside the lock, since each job comes here)
        if self.overcounts.hear(finding) {
            let mut state = self.state.lock(self.rt);
            let _ = writeln!(state.sink, "{}", Overcounts::LINE);
        }
    }

    fn ended(&self, _node: u8, end: &SiteEnd) {
        self.state.lock(self.rt).cause.hear(end);
    }

    fn finished(&self, is_answered: bool) {
        let mut state = self.state.lock(self.rt);
        if !is_answered {
            state.unanswered = Some(state.cause.why());
        }
    }
}
