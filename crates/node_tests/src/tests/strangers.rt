//! A stranger's packets, which are well formed and name sites of the run, are not heard, however many there are.
//!
//! No contract says that a link asks for the key. Of the bugs of `site_network` that are kept outside the gate,
//! `a_strangers_result_is_not_taken` finds `opens_nothing`, as `network_tests` does. Of the bugs of `udp_node` that are
//! kept outside the gate, `a_flood_is_no_packet` finds `strangers_use_up_turns`.

use super::crowded::crowded_registry;
use super::ends::{bound_sockets, links_over};
use super::runs::{COVERED, Came, Told, run, run_whole};
use super::timings::SOON;
use packet_wire::{Body, Packet, write_packet};
use spawn_frame::{ChildResult, Site};
use std::alloc::Global;
use std::net::{Net, SocketAddr};
use std::test::Fail;
use udp_node::{Open, Plan, bound};

/// Two nodes of one worker each.
const PLAN: Plan = Plan {
    workers: 1,
    nodes: 2,
    fuel: 1000,
    seed: 1,
    turns: 1_000_000,
    timing: SOON,
    entries: 1_000_000,
    book_bytes: 1_000_000_000,
    restarts: 0,
    limit: None,
};

/// Sends the registry, from a socket that is none of the run's, what its first node would: that it asks for work, and
/// that the root has no cover.
fn deceive<R: Net>(rt: &R, alloc: Global, registry: SocketAddr) -> Result<(), Fail> {
    let stranger = bound(rt)?;
    let from = Site {
        node: 1,
        incarnation: 1,
    };
    let to = Site {
        node: 0,
        incarnation: 1,
    };
    let empty = Body::Return {
        serial: 0,
        attempt: 1,
        result: ChildResult::Empty,
    };
    for body in [Body::Steal, empty] {
        let mut bytes = Vec::new(alloc);
        write_packet(alloc, &Packet { from, to, body }, &mut bytes)?;
        stranger.send_to(&bytes, registry)?;
    }
    Ok(())
}

#[test]
fn a_strangers_result_is_not_taken(rt: HostRuntime) -> Result<(), Fail> {
    let alloc = rt.alloc();
    let sockets = bound_sockets(&rt, alloc, PLAN.nodes)?;
    let Some(registry) = sockets.address(0) else {
        return Err(Fail::new("the registry has no socket"));
    };
    deceive(&rt, alloc, registry)?;
    let links = links_over(alloc, &sockets, PLAN.nodes)?;
    let came = run(&rt, alloc, &COVERED, PLAN, links, &Open);
    let (told, books) = (Told::Right, 3);
    assert_eq!(rt; came, Some(Came { told, books }));
    Ok(())
}

/// More datagrams than the registry has turns.
static FLOOD: u32 = 5_000;

#[test]
fn a_flood_is_no_packet(rt: HostRuntime) -> Result<(), Fail> {
    let alloc = rt.alloc();
    let plan = Plan {
        turns: 1_000,
        ..PLAN
    };
    let links = crowded_registry(alloc, PLAN.nodes, Vec::new(alloc), FLOOD)?;
    let Some(ran) = run_whole(&rt, alloc, &COVERED, plan, links, &Open) else {
        return Err(Fail::new("memory ran out"));
    };
    assert_eq!(rt; ran.came.told, Told::Right);
    let dropped = ran.sites.first().map(|end| end.dropped);
    assert_eq!(rt; dropped, Some(u64::from(FLOOD)));
    Ok(())
}
