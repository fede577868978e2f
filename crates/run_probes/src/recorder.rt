//! Links that keep what is sent.

ghost use Rattle.std.specs.Prelude.{◌≡◌, ℕ, vec_len, IfOk};

use packet_wire::{Packet, read_packet};
use site_network::{Link, LinkFault};
use std::alloc::{AllocError, Global};
use std::sync::{Arc, Mutex, Wait};

/// What was sent by several links.
pub type Sent = Arc<Mutex<Vec<Packet>>, Global>;

/// A link which keeps the packets that are sent by it and by its twins.
#[derive(Drop)]
pub struct Recorder<L: Link> {
    inner: L,
    alloc: Global,
    sent: Sent,
}

impl<L: Link> Recorder<L> {
    /// A link that sends by this one, and keeps what it sends among these.
    pub fn new(alloc: Global, inner: L, sent: Sent) -> Recorder<L>
        ensures { result.inner ≡ inner }
    {
        Recorder { inner, alloc, sent }
    }
}

impl<L: Link> Link for Recorder<L> {
    ghost failed = { λ r. L.failed r.inner };

    fn failures(&self) -> u64 {
        self.inner.failures()
    }

    fn send<R: Wait>(&mut self, rt: &R, to: u8, bytes: &[u8]) -> Result<(), LinkFault> {
        if let Ok(packet) = read_packet(self.alloc, bytes) {
            // (what is not kept because memory ran out is missed by the test)
            let _ = self.sent.lock(rt).push(packet);
        }
        self.inner.send(rt, to, bytes)
    }

    fn receive<R: Wait>(&mut self, rt: &R, into: &mut [u8]) -> Result<Option<usize>, LinkFault> {
        self.inner.receive(rt, into)
    }

    fn hasten(&mut self) {
        self.inner.hasten();
    }

    fn twin(&self) -> Result<Recorder<L>, AllocError> {
        let sent = Arc::try_clone(&self.sent)?;
        Ok(Recorder::new(self.alloc, self.inner.twin()?, sent))
    }
}

/// The same links, each of which keeps here what is sent.
pub fn recorded<L: Link>(
    alloc: Global,
    links: Vec<L>,
    sent: &Sent,
) -> Result<Vec<Recorder<L>>, AllocError>
    ensures { IfOk result (λ all. vec_len all ≡ vec_len links) }
{
    let mut all = Vec::new(alloc);
    for link in links {
        all.push(Recorder::new(alloc, link, Arc::try_clone(sent)?))?;
    }
    Ok(all)
}
