//! Packets of each kind, delivered over and over.

ghost use Rattle.std.specs.Prelude.{◌≡◌};

use crate::cores::cycle::{NODE, REGISTRY};
use crate::cores::fault::BenchFault;
use cover_problem::{Numbers, Problem};
use node_core::{Core, Event, NodeCore};
use packet_wire::{Body, Incarnations, Packet, is_well_formed};
use root_registry::Registry;
use spawn_frame::{Cause, ChildResult, Site};
use std::alloc::{AllocError, Global};

/// The node whose packets the other hears.
const OTHER: Site = Site {
    node: 2,
    incarnation: 1,
};

/// The body of a packet of this kind; none for another word.
fn body_of(alloc: Global, kind: &str) -> Result<Option<Body>, AllocError> {
    let (serial, attempt) = (0, 1);
    Ok(match kind {
        "hello" => Some(Body::Hello),
        "members" => Some(Body::Members(Incarnations::from_vec(vec![in alloc; 1, 1]?))),
        "steal" => Some(Body::Steal),
        "give" => Some(Body::Give {
            serial,
            attempt,
            prefix: Numbers::from_vec(Vec::new(alloc)),
        }),
        "no-work" => Some(Body::NoWork),
        "return" => Some(Body::Return {
            serial,
            attempt,
            result: ChildResult::Empty,
        }),
        "accept" => Some(Body::Accept {
            serial,
            attempt,
            result: ChildResult::Empty,
        }),
        "refuse" => Some(Body::Refuse {
            serial,
            attempt,
            cause: Cause::Aborted,
        }),
        "abort" => Some(Body::Abort { serial, attempt }),
        _ => None,
    })
}

/// A packet of this kind: a Hello goes to the registry, Members come from there, the others are between nodes.
pub fn packet_of(alloc: Global, kind: &str) -> Result<Packet, BenchFault> {
    let Some(body) = body_of(alloc, kind)? else {
        return Err(BenchFault::Unexpected);
    };
    let (from, to) = match body {
        Body::Hello => (NODE, REGISTRY),
        Body::Members(_) => (REGISTRY, NODE),
        _ => (OTHER, NODE),
    };
    Ok(Packet { from, to, body })
}

/// Delivers copies of the packet to the core so many times.
fn deliver<C: Core>(
    alloc: Global,
    core: &mut C,
    packet: &Packet,
    times: u64,
) -> Result<(), BenchFault> {
    let mut out = Vec::new(alloc);
    for _ in 0..times {
        let copy = packet.clone()?;
        if !is_well_formed(&copy) {
            return Err(BenchFault::Unexpected);
        }
        core.act(Event::Deliver(copy), &mut out)?;
        out.clear();
    }
    Ok(())
}

/// Delivers a packet of this kind so many times.
pub fn act_deliveries(
    alloc: Global,
    problem: &Problem,
    kind: &str,
    times: u64,
) -> Result<(), BenchFault> {
    let packet = packet_of(alloc, kind)?;
    if packet.to.node == 0 {
        deliver_to_registry(alloc, problem, &packet, times)
    } else {
        deliver_to_node(alloc, problem, &packet, times)
    }
}

/// Delivers the packet to a registry that begins, so many times.
fn deliver_to_registry(
    alloc: Global,
    problem: &Problem,
    packet: &Packet,
    times: u64,
) -> Result<(), BenchFault> {
    let mut registry = Registry::start(alloc, problem, 2)?;
    deliver(alloc, &mut registry, packet, times)
}

/// The same of a node.
fn deliver_to_node(
    alloc: Global,
    problem: &Problem,
    packet: &Packet,
    times: u64,
) -> Result<(), BenchFault> {
    let mut node = NodeCore::start(alloc, problem, NODE, 2, 1)?;
    deliver(alloc, &mut node, packet, times)
}
