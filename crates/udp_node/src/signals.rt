//! What the threads of a site tell one another beside the lock of its core.
//!
//! Counts and flags in atomics, and a parker for each thread that waits: a rousing leaves a token, so none is lost
//! between a look and a wait. All of it is hints. A stale one costs a look at the core, or a wait, and never an answer.

use site_limits::Hunger;
use std::sync::Wait;
use std::sync::atomic::{AtomicBool, AtomicU64, Ordering};
use std::thread::{self, Parker};
use std::time::{Clock, Duration};

/// How often a thread looks whether the others of its site have begun, before it gives up: for some two seconds.
const LOOKS: u32 = 10_000;

/// How long it waits between two looks, in microseconds.
const NAP: u64 = 100;

/// How long a thread that waits to be roused waits at most, in seconds. Nobody relies on it, since each rousing leaves
/// a token. Chosen: once a minute costs nothing.
const DOZE: u64 = 60;

/// How many workers a node has at most, as `--workers` allows.
const WORKERS: usize = 8;

/// What the threads of a site signal to one another without the lock of the core. No answer depends on it: it says when
/// a look at the core is worth its entry in the book, how small a worker's job should be, which worker works alone,
/// which threads have begun, and that all are to end.
#[derive(Drop)]
pub struct Signals {
    /// The thread that receives has begun.
    receives: AtomicBool,
    /// The thread that sends has begun.
    sends: AtomicBool,
    /// A worker has begun, or there is to be none.
    works: AtomicBool,
    /// How many threads are at work that put parcels into the outbox.
    running: AtomicU64,
    /// How many events may have left an idle worker something to do.
    stirs: AtomicU64,
    /// Whether work is short.
    hunger: Hunger,
    /// The worker, counted from 1, to which the others leave all jobs; 0 for none.
    sole: AtomicU64,
    /// How often something was said that may be lost on its way.
    said: AtomicU64,
    /// The site is to end.
    stopped: AtomicBool,
    /// Where the thread that sends waits.
    sender: Parker,
    /// Where each worker waits that leaves all jobs to another, or found nothing to do.
    workers: [Parker; WORKERS],
}

impl Signals {
    /// Returns the signals of a site at which so many threads are to act, workers among them or not, before any has
    /// begun.
    pub fn new(running: u64, has_workers: bool) -> Signals {
        Signals {
            receives: AtomicBool::new(false),
            sends: AtomicBool::new(false),
            works: AtomicBool::new(!has_workers),
            running: AtomicU64::new(running),
            stirs: AtomicU64::new(0),
            hunger: Hunger::new(),
            sole: AtomicU64::new(0),
            said: AtomicU64::new(0),
            stopped: AtomicBool::new(false),
            sender: Parker::new(),
            workers: [
                Parker::new(),
                Parker::new(),
                Parker::new(),
                Parker::new(),
                Parker::new(),
                Parker::new(),
                Parker::new(),
                Parker::new(),
            ],
        }
    }

    /// The thread that receives has begun.
    pub fn begin_receiving(&self) {
        self.receives.store(true, Ordering::SeqCst);
    }

    /// The thread that sends has begun.
    pub fn begin_sending(&self) {
        self.sends.store(true, Ordering::SeqCst);
    }

    /// A worker has begun.
    pub fn begin_working(&self) {
        self.works.store(true, Ordering::SeqCst);
    }

    /// Whether a thread of each kind has begun.
    pub fn is_manned(&self) -> bool {
        self.receives.load(Ordering::SeqCst)
            && self.sends.load(Ordering::SeqCst)
            && self.works.load(Ordering::SeqCst)
    }

    /// Waits until a thread of each kind has begun, or the site is to end. After some two seconds it ends the site.
    ///
    /// The wait has a limit because a thread that can't be started runs after the others: without one, they would wait
    /// for it for ever.
    pub fn muster<R: Clock>(&self, rt: &R) {
        for _look in 0..LOOKS {
            if self.is_manned() || self.is_stopped() {
                return;
            }
            thread::sleep(rt, Duration::from_micros(NAP));
        }
        self.stop();
    }

    /// A thread that put parcels into the outbox puts no more.
    pub fn leave(&self) {
        self.running.fetch_sub(1, Ordering::SeqCst);
        // (the thread that sends may doze, and ends once it sees that all have left)
        self.rouse();
    }

    /// Rouses the thread that sends, as a parcel was put into the outbox.
    pub fn rouse(&self) {
        self.sender.unpark();
    }

    /// Waits, in the thread that sends, until it is roused. A parcel that came since its last look has left a token at
    /// the parker, so that it doesn't wait at all.
    pub fn doze<R: Wait>(&self, rt: &R) {
        self.sender.park_timeout(rt, Duration::from_secs(DOZE));
    }

    /// Something was said that may be lost on its way, for the first time.
    pub fn say(&self) {
        self.said.fetch_add(1, Ordering::SeqCst);
    }

    /// Returns how often that was so: while it stays the same, whatever may be lost was said again each time.
    pub fn said(&self) -> u64 {
        self.said.load(Ordering::SeqCst)
    }

    /// Whether no thread puts parcels into the outbox any more.
    pub fn all_have_left(&self) -> bool {
        self.running.load(Ordering::SeqCst) == 0
    }

    /// Whether one thread alone is left that may put parcels into the outbox.
    pub fn is_deserted(&self) -> bool {
        self.running.load(Ordering::SeqCst) <= 1
    }

    /// An event may have left an idle worker something to do.
    pub fn stir(&self) {
        self.stirs.fetch_add(1, Ordering::SeqCst);
    }

    /// Returns how often `stir` was called: while that stays the same an idle worker finds nothing new at the core.
    pub fn stirs(&self) -> u64 {
        self.stirs.load(Ordering::SeqCst)
    }

    /// What says whether work is short at the site.
    pub fn hunger(&self) -> &Hunger {
        &self.hunger
    }

    /// The states that this worker keeps save so much that the others only found them once more: they leave it all
    /// jobs.
    pub fn work_alone(&self, worker: u8) {
        self.sole.store(u64::from(worker) + 1, Ordering::SeqCst);
    }

    /// This worker leaves the others work again, if they left it all.
    pub fn work_together(&self, worker: u8) {
        let own = u64::from(worker) + 1;
        let released = self
            .sole
            .compare_exchange(own, 0, Ordering::SeqCst, Ordering::SeqCst);
        // (where it fails, the others are at work already or have left all jobs to another worker)
        if released.is_ok() {
            self.rouse_workers();
        }
    }

    /// Whether this worker leaves all jobs to another.
    pub fn is_spared(&self, worker: u8) -> bool {
        let sole = self.sole.load(Ordering::SeqCst);
        sole != 0 && sole != u64::from(worker) + 1
    }

    /// Waits, in a worker that leaves all jobs to another, until it is roused: there is work for it again, or the site
    /// is to end.
    pub fn wait_spared<R: Wait>(&self, rt: &R, worker: u8) {
        self.wait_idle(rt, worker, Duration::from_secs(DOZE));
    }

    /// Waits so long, in a worker that found nothing to do, or until it is roused: at the end of the site none is
    /// waited for.
    pub fn wait_idle<R: Wait>(&self, rt: &R, worker: u8, nap: Duration) {
        if let Some(parker) = self.workers.get(usize::from(worker)) {
            parker.park_timeout(rt, nap);
        }
    }

    /// Rouses the workers that wait.
    fn rouse_workers(&self) {
        for parker in &self.workers {
            parker.unpark();
        }
    }

    /// Ends the site: its searches are stopped, and no thread of it goes on.
    pub fn stop(&self) {
        self.stopped.store(true, Ordering::SeqCst);
        self.rouse_workers();
    }

    /// Whether that is so.
    pub fn is_stopped(&self) -> bool {
        self.stopped.load(Ordering::SeqCst)
    }

    /// The flag that is raised then.
    pub fn stop_flag(&self) -> &AtomicBool {
        &self.stopped
    }
}
