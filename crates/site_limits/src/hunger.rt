//! Whether work is short at a site.

use std::sync::atomic::{AtomicU64, Ordering};

/// How many jobs of a site should be split yet, so that it has work for its own workers and for others. Its threads
/// share it without a lock, since no answer depends on it.
#[derive(Drop)]
pub struct Hunger {
    jobs: AtomicU64,
}

impl Hunger {
    /// That of a site at which nobody has asked for work so far.
    pub fn new() -> Hunger {
        Hunger {
            jobs: AtomicU64::new(0),
        }
    }

    /// Asks for so many jobs to be split, as there was no work for someone who asked.
    pub fn starve(&self, jobs: u64) {
        self.jobs.store(jobs, Ordering::Relaxed);
    }

    /// Counts a job that was split. Two at once may count as one, since the load and the store are apart: then a few
    /// jobs more are small.
    pub fn feed(&self) {
        let jobs = self.jobs.load(Ordering::Relaxed);
        self.jobs.store(jobs.saturating_sub(1), Ordering::Relaxed);
    }

    /// Returns whether jobs should be small, as work is short.
    pub fn is_felt(&self) -> bool {
        self.jobs.load(Ordering::Relaxed) > 0
    }
}
