//! A gate that holds one worker back until another has posted.

use site_limits::{Follower, Gate};
use spawn_frame::{Job, Unit};
use std::sync::atomic::{AtomicBool, AtomicU64, Ordering};
use std::thread;

/// Whose post the worker that is held back waits for.
#[derive(Clone, Copy)]
pub enum Awaited {
    /// That of another own child.
    OtherChild,
    /// That of a guest which a node named, and not the registry.
    Guest,
}

/// A gate that lets all pass but the first job of an own child: that waits in it until the awaited post, or for so many
/// turns. From that post on the jobs of other own children wait in it until the first one is posted, or for so many
/// turns.
#[derive(Drop)]
pub struct HeldGate {
    awaited: Awaited,
    turns: u64,
    /// Which own child is held back: one more than its serial number, and 0 before.
    held: AtomicU64,
    has_come: AtomicBool,
    is_released: AtomicBool,
    is_posted: AtomicBool,
}

impl HeldGate {
    /// A gate that nobody has come to.
    pub fn new(awaited: Awaited, turns: u64) -> HeldGate {
        HeldGate {
            awaited,
            turns,
            held: AtomicU64::new(0),
            has_come: AtomicBool::new(false),
            is_released: AtomicBool::new(false),
            is_posted: AtomicBool::new(false),
        }
    }

    /// Whether a job was held back, passed since the awaited post had come, and was posted.
    pub fn is_through(&self) -> bool {
        self.is_released.load(Ordering::SeqCst) && self.is_posted.load(Ordering::SeqCst)
    }

    /// Waits until the flag is raised. False where it wasn't within the turns.
    fn waits_for(&self, flag: &AtomicBool) -> bool {
        for _turn in 0..self.turns {
            if flag.load(Ordering::SeqCst) {
                return true;
            }
            thread::yield_now();
        }
        false
    }

    /// Lets the job of this own child pass.
    fn pass_own(&self, serial: u32) {
        let mine = u64::from(serial) + 1;
        let first = self
            .held
            .compare_exchange(0, mine, Ordering::SeqCst, Ordering::SeqCst);
        if first.is_ok() {
            let is_released = self.waits_for(&self.has_come);
            self.is_released.store(is_released, Ordering::SeqCst);
        } else if self.has_come.load(Ordering::SeqCst) && !self.is_held(serial) {
            self.waits_for(&self.is_posted);
        }
    }

    /// Whether this own child is the one that was held back.
    fn is_held(&self, serial: u32) -> bool {
        self.held.load(Ordering::SeqCst) == u64::from(serial) + 1
    }

    /// Whether the post of this unit is awaited.
    fn is_awaited(&self, unit: Unit) -> bool {
        match (self.awaited, unit) {
            (Awaited::OtherChild, Unit::Own(serial)) => {
                let is_any_held = self.held.load(Ordering::SeqCst) != 0;
                is_any_held && !self.is_held(serial)
            }
            (Awaited::Guest, Unit::Guest(name, _)) => name.site.node != 0,
            _ => false,
        }
    }
}

impl Gate for HeldGate {
    fn pass(&self, _worker: u8, job: &Job) -> bool {
        if let Unit::Own(serial) = job.unit {
            self.pass_own(serial);
        }
        true
    }

    fn posted(&self, _worker: u8, job: &Job) {
        if let Unit::Own(serial) = job.unit
            && self.is_held(serial)
        {
            self.is_posted.store(true, Ordering::SeqCst);
        }
        if self.is_awaited(job.unit) {
            self.has_come.store(true, Ordering::SeqCst);
        }
    }
}

impl Follower for HeldGate {}
