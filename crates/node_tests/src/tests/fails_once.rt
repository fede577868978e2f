//! A link in memory that fails once and counts its failures, and a gate that waits for one.

ghost use Rattle.std.specs.Prelude.{◌≡◌, ◌+◌, ◌≤◌, ℕ, length, vec_len, IfOk, IfSome};
ghost use Rattle.site_network.specs.Links.{failed_once};

use super::ends::wires;
use spawn_frame::Job;
use std::alloc::{AllocError, Global};
use std::sync::atomic::{AtomicU64, Ordering};
use std::sync::{Arc, Wait};
use std::thread;
use udp_node::{Follower, Gate, Link, LinkFault, MemoryLink};

/// Which call of a link fails, counted from 1.
#[derive(Clone, Copy, Debug, PartialEq, Eq)]
pub enum Fault {
    /// None.
    Never,
    /// This send.
    Send(u64),
    /// This receive.
    Receive(u64),
}

/// How many calls of a site's link, over all its twins, have failed.
pub type Failed = Arc<AtomicU64, Global>;

/// A link in memory of which one call fails.
#[derive(Drop)]
pub struct FailsOnce {
    inner: MemoryLink,
    fault: Fault,
    failed: Failed,
    failures: u64,
}

impl FailsOnce {
    /// This link, of which this call fails.
    fn new(inner: MemoryLink, fault: Fault, failed: Failed) -> FailsOnce
        ensures { result.failures ≡ 0 }
    {
        FailsOnce {
            inner,
            fault,
            failed,
            failures: 0,
        }
    }

    /// Counts a failure.
    fn fail(&mut self) -> LinkFault
        ensures { self.new.failures ≡ failed_once self.old.failures }
    {
        self.failed.fetch_add(1, Ordering::SeqCst);
        self.failures = self.failures.saturating_add(1);
        LinkFault
    }
}

impl Link for FailsOnce {
    ghost failed = { λ b. b.failures };

    fn failures(&self) -> u64 {
        self.failures
    }

    fn send<R: Wait>(&mut self, rt: &R, to: u8, bytes: &[u8]) -> Result<(), LinkFault> {
        match self.fault {
            Fault::Send(1) => {
                self.fault = Fault::Never;
                return Err(self.fail());
            }
            Fault::Send(left) => self.fault = Fault::Send(left.saturating_sub(1)),
            Fault::Never | Fault::Receive(_) => {}
        }
        match self.inner.send(rt, to, bytes) {
            Ok(()) => Ok(()),
            Err(_) => Err(self.fail()),
        }
    }

    fn receive<R: Wait>(&mut self, rt: &R, into: &mut [u8]) -> Result<Option<usize>, LinkFault> {
        match self.fault {
            Fault::Receive(1) => {
                self.fault = Fault::Never;
                return Err(self.fail());
            }
            Fault::Receive(left) => self.fault = Fault::Receive(left.saturating_sub(1)),
            Fault::Never | Fault::Send(_) => {}
        }
        match self.inner.receive(rt, into) {
            Ok(came) => Ok(came),
            Err(_) => Err(self.fail()),
        }
    }

    fn twin(&self) -> Result<FailsOnce, AllocError> {
        let failed = Arc::try_clone(&self.failed)?;
        Ok(FailsOnce::new(self.inner.twin()?, self.fault, failed))
    }
}

/// Links for so many nodes and the registry, of which that of this site fails so, and counts it.
pub fn links_that_fail(
    alloc: Global,
    nodes: u8,
    site: usize,
    fault: Fault,
    failed: &Failed,
) -> Result<Vec<FailsOnce>, AllocError>
    requires { nodes ≤ 16 }
    ensures { IfOk result (λ links. vec_len links ≡ nodes + 1) }
{
    let mut links = Vec::new(alloc);
    let wires = wires(alloc, nodes)?;
    for link in wires {
        let (fault, failed) = if links.len() == site {
            (fault, Arc::try_clone(failed)?)
        } else {
            (Fault::Never, Arc::new(alloc, AtomicU64::new(0))?)
        };
        links.push(FailsOnce::new(link, fault, failed))?;
    }
    Ok(links)
}

/// A gate that lets nobody pass before a link has failed.
#[derive(Drop)]
pub struct AfterFault {
    failed: Failed,
}

impl AfterFault {
    /// The gate that looks at this count.
    pub fn new(failed: Failed) -> AfterFault {
        AfterFault { failed }
    }
}

impl Gate for AfterFault {
    fn pass(&self, _worker: u8, _job: &Job) -> bool {
        for _turn in 0..10_000_000 {
            if self.failed.load(Ordering::SeqCst) > 0 {
                return true;
            }
            thread::yield_now();
        }
        false
    }
}

impl Follower for AfterFault {}
