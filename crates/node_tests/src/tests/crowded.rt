//! A link that a crowd of equal datagrams reaches before anything else.

ghost use Rattle.std.specs.Prelude.{◌≡◌, ◌+◌, ◌≤◌, ℕ, length, vec_len, IfOk, IfSome};

use super::ends::wires;
use std::alloc::{AllocError, Global};
use std::sync::{Arc, Wait};
use udp_node::{Link, LinkFault, MemoryLink};

/// A link in memory whose first receives bring the same datagram each. One without bytes is a stranger's.
#[derive(Drop)]
pub struct Crowded {
    inner: MemoryLink,
    datagram: Arc<Vec<u8>, Global>,
    /// How often it comes yet.
    left: u32,
}

impl Link for Crowded {
    ghost failed = { λ l. l.inner.failures };

    fn failures(&self) -> u64 {
        self.inner.failures()
    }

    fn send<R: Wait>(&mut self, rt: &R, to: u8, bytes: &[u8]) -> Result<(), LinkFault> {
        self.inner.send(rt, to, bytes)
    }

    fn receive<R: Wait>(&mut self, rt: &R, into: &mut [u8]) -> Result<Option<usize>, LinkFault> {
        if self.left == 0 {
            return self.inner.receive(rt, into);
        }
        self.left -= 1;
        let bytes = self.datagram.len().min(into.len());
        into[..bytes].copy_from_slice(&self.datagram[..bytes]);
        Ok(Some(bytes))
    }

    fn twin(&self) -> Result<Crowded, AllocError> {
        Ok(Crowded {
            inner: self.inner.twin()?,
            datagram: Arc::try_clone(&self.datagram)?,
            left: self.left,
        })
    }
}

/// Links for so many nodes and the registry, of which the registry's brings this datagram so often first.
pub fn crowded_registry(
    alloc: Global,
    nodes: u8,
    datagram: Vec<u8>,
    times: u32,
) -> Result<Vec<Crowded>, AllocError>
    requires { nodes ≤ 16 }
    ensures { IfOk result (λ links. vec_len links ≡ nodes + 1) }
{
    let datagram = Arc::new(alloc, datagram)?;
    let mut links = Vec::new(alloc);
    for inner in wires(alloc, nodes)? {
        let left = if links.is_empty() { times } else { 0 };
        let datagram = Arc::try_clone(&datagram)?;
        links.push(Crowded {
            inner,
            datagram,
            left,
        })?;
    }
    Ok(links)
}
