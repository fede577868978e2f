//! The links of all sites of a run.

ghost use Rattle.std.specs.Prelude.{◌≡◌, ◌+◌, ◌≤◌, vec_len, IfOk};

use super::wild::Wild;
use run_key::RunKey;
use std::alloc::{AllocError, Global};
use std::net::Net;
use std::random::RandomSource;
use std::sync::Arc;
use std::test::Fail;
use udp_node::{Link, MemoryLink, Sockets, UdpLink, Wires, bound};

/// Links in memory, for so many nodes and the registry.
pub fn wires(alloc: Global, nodes: u8) -> Result<Vec<MemoryLink>, AllocError>
    requires { nodes ≤ 16 }
    ensures { IfOk result (λ links. vec_len links ≡ nodes + 1) }
{
    let wires = Arc::new(alloc, Wires::new(alloc, nodes + 1)?)?;
    let mut links = Vec::new(alloc);
    for site in 0..nodes + 1 {
        links.push(MemoryLink::new(Arc::try_clone(&wires)?, site))?;
    }
    Ok(links)
}

/// The sockets of so many nodes and the registry.
pub fn bound_sockets<R: Net + RandomSource>(
    rt: &R,
    alloc: Global,
    nodes: u8,
) -> Result<Arc<Sockets, Global>, Fail>
    requires { nodes ≤ 16 }
{
    let mut sockets = Vec::new(alloc);
    for _site in 0..nodes + 1 {
        sockets.push(bound(rt)?)?;
    }
    Ok(Arc::new(alloc, Sockets::new(alloc, sockets, RunKey::draw(rt)?)?)?)
}

/// Links over these sockets, for so many nodes and the registry.
pub fn links_over(
    alloc: Global,
    sockets: &Arc<Sockets, Global>,
    nodes: u8,
) -> Result<Vec<UdpLink>, AllocError>
    requires { nodes ≤ 16 }
    ensures { IfOk result (λ links. vec_len links ≡ nodes + 1) }
{
    let mut links = Vec::new(alloc);
    for node in 0..nodes + 1 {
        links.push(UdpLink::new(Arc::try_clone(sockets)?, node))?;
    }
    Ok(links)
}

/// Links over sockets of their own, for so many nodes and the registry.
pub fn sockets<R: Net + RandomSource>(
    rt: &R,
    alloc: Global,
    nodes: u8,
) -> Result<Vec<UdpLink>, Fail>
    requires { nodes ≤ 16 }
    ensures { IfOk result (λ links. vec_len links ≡ nodes + 1) }
{
    let sockets = bound_sockets(rt, alloc, nodes)?;
    Ok(links_over(alloc, &sockets, nodes)?)
}

/// The same links, wild: each by a seed of its own.
pub fn wild<L: Link>(alloc: Global, links: Vec<L>, seed: u64) -> Result<Vec<Wild<L>>, AllocError>
    ensures { IfOk result (λ wild. vec_len wild ≡ vec_len links) }
{
    let mut all = Vec::new(alloc);
    for link in links {
        let own = seed.wrapping_mul(32).wrapping_add(all.len() as u64);
        all.push(Wild::new(alloc, link, own))?;
    }
    Ok(all)
}
