//! The sockets of a run.

ghost use Rattle.std.specs.Prelude.{◌≡◌, ◌+◌, vec_len, IfOk};

use run_key::RunKey;
use std::alloc::Global;
use std::io;
use std::net::{Net, UdpSocket};
use std::sync::Arc;
use udp_node::{Sockets, UdpLink, bound};

/// The ends of the registry and of so many nodes, each with a socket of its own on 127.0.0.1. The errors are the
/// system's, and `OutOfMemory`.
pub fn links<R: Net>(rt: &R, alloc: Global, nodes: u8, key: RunKey) -> io::Result<Vec<UdpLink>>
    ensures { IfOk result (λ links. vec_len links ≡ nodes + 1) }
{
    let count = usize::from(nodes) + 1;
    let sockets = sockets(rt, alloc, count)?;
    let sockets = Arc::new(alloc, Sockets::new(alloc, sockets, key)?)?;
    let mut links = Vec::with_capacity(alloc, count)?;
    for site in 0..count {
        // (no site has a number above that of the nodes, which has eight bits)
        links.push(UdpLink::new(Arc::try_clone(&sockets)?, site as u8))?;
    }
    Ok(links)
}

/// So many sockets.
fn sockets<R: Net>(rt: &R, alloc: Global, count: usize) -> io::Result<Vec<UdpSocket>>
    ensures { IfOk result (λ sockets. vec_len sockets ≡ count) }
{
    let mut sockets = Vec::with_capacity(alloc, count)?;
    for _ in 0..count {
        sockets.push(bound(rt)?)?;
    }
    Ok(sockets)
}
