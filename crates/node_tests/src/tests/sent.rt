//! What the sites of a run send one another, over links that keep it.
//!
//! Of the bugs of `udp_node` that are kept outside the gate, `a_node_greets_again` finds `a_node_greets_once`,
//! `victims_are_drawn` finds `the_victim_is_node_1_at_most`, and `each_packet_of_an_event_is_sent` finds
//! `the_first_packet_alone_is_sent`.

ghost use Rattle.std.specs.Prelude.{◌≡◌, ◌+◌, ◌≤◌, vec_len};

use super::ends::wires;
use super::runs::{COVERED, Came, Told, run};
use super::timings::SOON;
use packet_wire::{Body, Packet};
use run_probes::{Expected, Sent, SentGate, first_victim, recorded};
use std::alloc::Global;
use std::sync::{Arc, Mutex, Wait};
use std::test::Fail;
use std::thread::Threads;
use std::time::Clock;
use udp_node::Plan;

/// One node with one worker, which is never thought silent.
const PLAN: Plan = Plan {
    workers: 1,
    nodes: 1,
    fuel: 1,
    seed: 1,
    turns: 10_000_000,
    timing: SOON,
    entries: 1_000_000,
    book_bytes: 1_000_000_000,
    restarts: 0,
    limit: None,
};

/// What a run comes to whose workers post nothing until this was sent, and all that was sent in it.
fn run_recorded<R: Threads + Wait + Clock + Sync>(
    rt: &R,
    alloc: Global,
    plan: Plan,
    expected: Expected,
) -> Result<(Option<Came>, Sent), Fail>
    requires some { 1 ≤ plan.nodes }
    requires most { plan.nodes ≤ 16 }
{
    let sent = Arc::new(alloc, Mutex::new(Vec::new(alloc)))?;
    let links = recorded(alloc, wires(alloc, plan.nodes)?, &sent)?;
    let gate = SentGate::new(rt, Arc::try_clone(&sent)?, expected);
    Ok((run(rt, alloc, &COVERED, plan, links, &gate), sent))
}

/// Where the registry is silent as long as nobody greets it, a search of any length goes on.
#[test]
fn a_node_greets_again(rt: HostRuntime) -> Result<(), Fail> {
    let (came, _sent) = run_recorded(&rt, rt.alloc(), PLAN, Expected::Hellos(3))?;
    let (told, books) = (Told::Right, 2);
    assert_eq!(rt; came, Some(Came { told, books }));
    Ok(())
}

/// Seeds, and whom the first worker of each of four nodes asks first: the first word that PCG draws by the seed, with
/// the stream 16 times the node, modulo 5, and 0 in place of the node itself. (Drawn by a program of ours in Python.)
static VICTIMS: [(u64, [u8; 4]); 3] = [(3, [4, 3, 1, 2]), (6, [2, 0, 1, 2]), (13, [4, 3, 2, 3])];

/// Whether the nodes asked these first.
fn asked_first(sent: &[Packet], victims: [u8; 4]) -> bool {
    let mut nodes = 1u8..;
    victims.iter().all(|victim| nodes.next().and_then(|node| first_victim(sent, node))
        == Some(*victim))
}

#[test]
fn victims_are_drawn(rt: HostRuntime) -> Result<(), Fail> {
    for (seed, victims) in VICTIMS {
        let plan = Plan {
            nodes: 4,
            seed,
            ..PLAN
        };
        let (_came, sent) = run_recorded(&rt, rt.alloc(), plan, Expected::Steals(4))?;
        assert!(rt; asked_first(&sent.lock(&rt), victims), "seed {seed}");
    }
    Ok(())
}

/// Whether the registry has sent a node which incarnations it knows: it sends so to all nodes at each Hello.
fn is_told_members(sent: &[Packet], node: u8) -> bool {
    sent.iter().any(|it| it.to.node == node && matches!(it.body, Body::Members(_)))
}

#[test]
fn each_packet_of_an_event_is_sent(rt: HostRuntime) -> Result<(), Fail> {
    let plan = Plan { nodes: 3, ..PLAN };
    let (_came, sent) = run_recorded(&rt, rt.alloc(), plan, Expected::Hellos(1))?;
    let sent = sent.lock(&rt);
    for node in 1..4 {
        assert!(rt; is_told_members(&sent, node), "node {node}");
    }
    Ok(())
}
