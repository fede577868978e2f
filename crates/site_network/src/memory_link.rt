//! A network in memory: for the run of `answer`, and for tests.

ghost use Rattle.std.specs.Prelude.{◌≡◌, ℕ, IfOk};
ghost use Rattle.site_network.specs.Links.{failed_once};

use crate::link::{Link, LinkFault};
use std::alloc::{AllocError, Global};
use std::collections::VecDeque;
use std::sync::{Arc, Mutex, Wait};
use std::thread;

/// What is on its way to each site, by node: a queue of datagrams each.
#[derive(Drop)]
pub struct Wires {
    queues: Vec<Mutex<VecDeque<Vec<u8>>>>,
    alloc: Global,
}

impl Wires {
    /// Returns the wires of so many sites, with nothing on its way. The only error is out of memory.
    pub fn new(alloc: Global, sites: u8) -> Result<Wires, AllocError> {
        let mut queues = Vec::new(alloc);
        for _ in 0..sites {
            queues.push(Mutex::new(VecDeque::new(alloc)))?;
        }
        Ok(Wires { queues, alloc })
    }

    /// Puts a datagram on its way, and returns whether there was such a site, and memory for it.
    fn put<R: Wait>(&self, rt: &R, to: u8, bytes: &[u8]) -> bool {
        let Some(queue) = self.queues.get(usize::from(to)) else {
            return false;
        };
        // (copied before the queue is locked, so that no receiver waits for the copy)
        match Vec::from_slice(self.alloc, bytes) {
            Ok(copy) => queue.lock(rt).push_back(copy).is_ok(),
            Err(_) => false,
        }
    }

    /// The datagram that has been on its way to the site for longest.
    fn take<R: Wait>(&self, rt: &R, site: u8) -> Option<Vec<u8>> {
        self.queues.get(usize::from(site))?.lock(rt).pop_front()
    }
}

/// The endpoint of a site on wires in memory. A receive does not wait.
#[derive(Drop)]
pub struct MemoryLink {
    wires: Arc<Wires, Global>,
    site: u8,
    failures: u64,
}

impl MemoryLink {
    /// The endpoint of this site.
    pub fn new(wires: Arc<Wires, Global>, site: u8) -> MemoryLink
        ensures { result.failures ≡ 0 }
    {
        MemoryLink {
            wires,
            site,
            failures: 0,
        }
    }
}

impl Link for MemoryLink {
    ghost failed = { λ l. l.failures };

    fn failures(&self) -> u64 {
        self.failures
    }

    fn send<R: Wait>(&mut self, rt: &R, to: u8, bytes: &[u8]) -> Result<(), LinkFault> {
        if self.wires.put(rt, to, bytes) {
            return Ok(());
        }
        self.failures = self.failures.saturating_add(1);
        Err(LinkFault)
    }

    fn receive<R: Wait>(&mut self, rt: &R, into: &mut [u8]) -> Result<Option<usize>, LinkFault> {
        let Some(datagram) = self.wires.take(rt, self.site) else {
            // (nothing waits here, so an empty receive gives the processor to a thread that may send)
            thread::yield_now();
            return Ok(None);
        };
        // (what doesn't fit is cut off, as a socket does)
        let bytes = datagram.len().min(into.len());
        into[..bytes].copy_from_slice(&datagram[..bytes]);
        Ok(Some(bytes))
    }

    fn twin(&self) -> Result<MemoryLink, AllocError> {
        Ok(MemoryLink::new(Arc::try_clone(&self.wires)?, self.site))
    }
}
