//! A node that hears the end of the search late: only after the registry, which has told it, has left and ended the
//! run.
//!
//! Of the bugs of `udp_node` that are kept outside the gate, `the_end_is_heard_late` finds
//! `the_end_is_looked_at_after_a_receive`.

ghost use Rattle.std.specs.Prelude.{◌≡◌, ◌≤◌, ℕ, length, vec_len, IfOk, IfSome};

use super::ends::wires;
use super::runs::{COVERED, Told, run_whole};
use super::timings::SOON;
use spawn_frame::Job;
use std::alloc::{AllocError, Global};
use std::sync::atomic::{AtomicBool, Ordering};
use std::sync::{Arc, Wait};
use std::test::Fail;
use std::thread;
use udp_node::{EndCause, Follower, Gate, Link, LinkFault, MemoryLink, Plan, SiteEnd};

/// One node of one worker, whose first job is the whole search.
const PLAN: Plan = Plan {
    workers: 1,
    nodes: 1,
    fuel: 1_000,
    seed: 1,
    turns: 1_000_000,
    timing: SOON,
    entries: 1_000_000,
    book_bytes: 1_000_000_000,
    restarts: 0,
    limit: None,
};

/// How far the run has come.
#[derive(Drop)]
struct Stages {
    /// The worker has posted what it found.
    is_posted: AtomicBool,
    /// A receive waits for the registry to leave.
    is_awaited: AtomicBool,
    /// It has left.
    is_left: AtomicBool,
}

impl Stages {
    /// Nothing has happened.
    fn new() -> Stages {
        Stages {
            is_posted: AtomicBool::new(false),
            is_awaited: AtomicBool::new(false),
            is_left: AtomicBool::new(false),
        }
    }

    /// Whether this is the first receive since the Post, and the registry is still there: no other receive waits then.
    fn is_to_wait(&self) -> bool {
        self.is_posted.load(Ordering::SeqCst)
            && !self.is_left.load(Ordering::SeqCst)
            && !self.is_awaited.swap(true, Ordering::SeqCst)
    }

    /// Waits until the registry has left, and a little longer: the run ends right after it.
    fn await_the_end(&self) {
        for _turn in 0..10_000_000 {
            if self.is_left.load(Ordering::SeqCst) {
                break;
            }
            thread::yield_now();
        }
        for _turn in 0..10_000 {
            thread::yield_now();
        }
    }
}

/// Lets all pass, and notes the stages.
#[derive(Drop)]
struct Notes {
    stages: Arc<Stages, Global>,
}

impl Gate for Notes {
    fn posted(&self, _worker: u8, _job: &Job) {
        self.stages.is_posted.store(true, Ordering::SeqCst);
    }
}

impl Follower for Notes {
    fn ended(&self, node: u8, _end: &SiteEnd) {
        if node == 0 {
            self.stages.is_left.store(true, Ordering::SeqCst);
        }
    }
}

/// A link of which one receive, the first one after the Post, is empty and lasts until the registry has left.
#[derive(Drop)]
struct Late<L: Link> {
    inner: L,
    /// None at the registry.
    stages: Option<Arc<Stages, Global>>,
}

impl<L: Link> Link for Late<L> {
    ghost failed = { λ late. L.failed late.inner };

    fn failures(&self) -> u64 {
        self.inner.failures()
    }

    fn send<R: Wait>(&mut self, rt: &R, to: u8, bytes: &[u8]) -> Result<(), LinkFault> {
        self.inner.send(rt, to, bytes)
    }

    fn receive<R: Wait>(&mut self, rt: &R, into: &mut [u8]) -> Result<Option<usize>, LinkFault> {
        if let Some(stages) = &self.stages
            && stages.is_to_wait()
        {
            stages.await_the_end();
            return Ok(None);
        }
        self.inner.receive(rt, into)
    }

    fn twin(&self) -> Result<Late<L>, AllocError> {
        let stages = match &self.stages {
            Some(stages) => Some(Arc::try_clone(stages)?),
            None => None,
        };
        Ok(Late {
            inner: self.inner.twin()?,
            stages,
        })
    }
}

/// The links of the registry and one node, which is late.
fn late_links(
    alloc: Global,
    stages: &Arc<Stages, Global>,
) -> Result<Vec<Late<MemoryLink>>, AllocError>
    ensures { IfOk result (λ links. vec_len links ≡ 2) }
{
    let mut links = Vec::new(alloc);
    for inner in wires(alloc, 1)? {
        let stages = if links.is_empty() {
            None
        } else {
            Some(Arc::try_clone(stages)?)
        };
        links.push(Late { inner, stages })?;
    }
    Ok(links)
}

#[test]
fn the_end_is_heard_late(rt: HostRuntime) -> Result<(), Fail> {
    let alloc = rt.alloc();
    let stages = Arc::new(alloc, Stages::new())?;
    let links = late_links(alloc, &stages)?;
    let gate = Notes {
        stages: Arc::try_clone(&stages)?,
    };
    let Some(ran) = run_whole(&rt, alloc, &COVERED, PLAN, links, &gate) else {
        return Err(Fail::new("memory ran out"));
    };
    assert_eq!(rt; ran.came.told, Told::Right);
    assert_eq!(rt; ran.sites.get(1).map(|end| end.cause), Some(EndCause::Over));
    // (else the receive that was to be late was never made)
    assert!(rt; stages.is_awaited.load(Ordering::SeqCst));
    Ok(())
}
