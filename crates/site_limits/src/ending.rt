//! How a run ends in one process: flags and counts that all sites read, beside the protocol. The protocol knows when
//! the search is over; this is for ends that it doesn't know, a site that failed, a limit of time, the last node that
//! left. So there is no distributed termination detection (as by Dijkstra and Scholten): the root's result is that, and
//! all else is local.
//!
//! All loads and stores are sequentially consistent: they are read between receives, not in a search.

use crate::end_cause::EndCause;
use std::sync::atomic::{AtomicBool, AtomicU64, Ordering};
use std::thread;
use std::time::{Clock, Duration, Instant};

/// How often a node looks whether the registry's threads have begun, before it gives up: for some two seconds.
const LOOKS: u32 = 25_000;

/// How long it waits between two looks, in microseconds. The system adds some fifty.
const NAP: u64 = 20;

/// What ends a run whose sites don't end by themselves. No answer depends on it.
#[derive(Drop)]
pub struct Ending {
    /// The run can't go on.
    raised: AtomicBool,
    /// The registry's threads have begun, or they aren't of this process.
    has_registry: AtomicBool,
    /// How many nodes have not left yet.
    nodes: AtomicU64,
    /// How long the run may last, if it is limited.
    timer: Option<Timer>,
}

impl Ending {
    /// Returns the ending of a run without a limit, for one of its sites alone.
    pub fn unlimited() -> Ending {
        Ending {
            raised: AtomicBool::new(false),
            has_registry: AtomicBool::new(true),
            nodes: AtomicU64::new(1),
            timer: None,
        }
    }

    /// Returns the ending of a run of so many nodes that begins now and lasts so long at most, if it is limited. A
    /// limited run whose clock can't be read ends at once.
    pub fn within<R: Clock>(rt: &R, limit: Option<Duration>, nodes: u8) -> Ending {
        Ending {
            raised: AtomicBool::new(false),
            has_registry: AtomicBool::new(false),
            nodes: AtomicU64::new(u64::from(nodes)),
            timer: limit.map(|limit| Timer {
                began: Instant::now(rt).ok(),
                limit,
            }),
        }
    }

    /// A thread of each kind has begun at the registry's site.
    pub fn begin_registry(&self) {
        self.has_registry.store(true, Ordering::SeqCst);
    }

    /// Waits until the registry's threads have begun, or the run is over, for some two seconds, and returns whether
    /// they have begun.
    ///
    /// The wait has a limit because work that can't be started on a thread of its own runs after the others: without
    /// one, they would wait for it for ever.
    pub fn await_registry<R: Clock>(&self, rt: &R) -> bool {
        for _look in 0..LOOKS {
            if self.has_registry.load(Ordering::SeqCst) || self.has_come(rt) {
                break;
            }
            thread::sleep(rt, Duration::from_micros(NAP));
        }
        self.has_registry.load(Ordering::SeqCst)
    }

    /// Counts a node that leaves the run for good, and returns whether it was the last one.
    pub fn leave(&self) -> bool {
        self.nodes.fetch_sub(1, Ordering::SeqCst) <= 1
    }

    /// Ends the run, which can't go on.
    pub fn raise(&self) {
        self.raised.store(true, Ordering::SeqCst);
    }

    /// Whether the run has ended, by a site that can't go on or by its limit.
    pub fn has_come<R: Clock>(&self, rt: &R) -> bool {
        self.raised.load(Ordering::SeqCst) || self.is_late(rt)
    }

    /// Why a site ends with the run that ends now: its time is over, or another site has ended it.
    pub fn cause<R: Clock>(&self, rt: &R) -> EndCause {
        if self.is_late(rt) {
            EndCause::Time
        } else {
            EndCause::Stopped
        }
    }

    /// Whether the run has lasted as long as it may. The clock is read only in a limited run.
    pub fn is_late<R: Clock>(&self, rt: &R) -> bool {
        match &self.timer {
            Some(timer) => timer.has_passed(rt),
            None => false,
        }
    }
}

/// A time limit, and when it began to count, if the clock could be read then.
#[derive(Clone, Copy)]
struct Timer {
    began: Option<Instant>,
    limit: Duration,
}

impl Timer {
    /// Whether the limit has passed, or the clock can't be read.
    fn has_passed<R: Clock>(&self, rt: &R) -> bool {
        match self.elapsed(rt) {
            Some(elapsed) => elapsed >= self.limit,
            // (else a run that was to be limited would have no limit)
            None => true,
        }
    }

    /// How much of it has gone by, unless the clock can't be read, or couldn't be when it began to count.
    fn elapsed<R: Clock>(&self, rt: &R) -> Option<Duration> {
        self.began?.elapsed(rt).ok()
    }
}
