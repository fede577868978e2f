//! Jobs that count more prefixes than a job can.

use brancher::{Finding, Outcome};
use std::sync::atomic::{AtomicU64, Ordering};

/// After how many such jobs it is told: on the way to smaller jobs there are some in many runs.
const MANY: u64 = 1_000;

/// Counts the jobs of a run that are split since they count more prefixes than 64 bits can, although they visit few of
/// them.
#[derive(Drop)]
pub(crate) struct Overcounts {
    jobs: AtomicU64,
}

impl Overcounts {
    /// What is told once there are many.
    pub(crate) const LINE: &'static str =
        "many jobs count more than 2^64 - 1 prefixes, and are split without a result: try answer, which has no such limit";

    /// None so far.
    pub(crate) fn new() -> Overcounts {
        Overcounts {
            jobs: AtomicU64::new(0),
        }
    }

    /// Hears what a job came to. Returns whether there are many now, once in a run.
    pub(crate) fn hear(&self, finding: &Finding) -> bool {
        // (a job that its visits stop has only the fuel that is gone by then, so the greatest fuel is spent by its
        // count alone)
        finding.outcome() == Outcome::Spent
            && finding.fuel() == u64::MAX
            && self.jobs.fetch_add(1, Ordering::SeqCst) == MANY - 1
    }
}
