//! A steal from the first packet to the last: the root is asked for, given, searched, returned too late, and refused.

ghost use Rattle.std.specs.Prelude.{◌≡◌, true, IfOk};
ghost use Rattle.packet_wire.specs.WellFormed.{is_well_formed};

use crate::cores::fault::BenchFault;
use brancher::Searcher;
use cover_problem::{Numbers, Problem, is_prefix};
use node_core::{Core, Event, NodeCore, Reply};
use packet_wire::{Body, Packet, is_well_formed};
use root_registry::Registry;
use spawn_frame::{Cause, ChildResult, Site};
use std::alloc::{AllocError, Global};

/// The registry.
pub const REGISTRY: Site = Site {
    node: 0,
    incarnation: 1,
};

/// The first node in its first incarnation.
pub const NODE: Site = Site {
    node: 1,
    incarnation: 1,
};

/// How many events a cycle has.
pub const EVENTS: u64 = 8;

/// How many packets its events send.
pub const PACKETS: u64 = 4;

/// The registry and its one node.
#[derive(Drop)]
pub struct Pair<'a> {
    registry: Registry<'a>,
    node: NodeCore<'a>,
    searcher: Searcher<'a>,
    problem: &'a Problem,
    out: Vec<Packet>,
    alloc: Global,
    ghost one: { node.problem ≡ problem.now },
    ghost same: { searcher.problem ≡ problem.now },
}

impl<'a> Pair<'a> {
    /// Both before their first event. The only error is out of memory.
    pub fn new(alloc: Global, problem: &'a Problem) -> Result<Pair<'a>, AllocError> {
        Ok(Pair {
            registry: Registry::start(alloc, problem, 1)?,
            node: NodeCore::start(alloc, problem, NODE, 1, 1)?,
            searcher: Searcher::new(alloc, problem)?,
            problem,
            out: Vec::new(alloc),
            alloc,
        })
    }

    /// The packet that was put out last.
    fn last(&mut self) -> Result<Packet, BenchFault>
        ensures { IfOk result (λ packet. is_well_formed packet ≡ true) }
    {
        match self.out.pop() {
            Some(packet) if is_well_formed(&packet) => Ok(packet),
            _ => Err(BenchFault::Unexpected),
        }
    }

    /// So many cycles.
    fn cycles(&mut self, times: u64) -> Result<(), BenchFault> {
        for _ in 0..times {
            self.cycle()?;
        }
        Ok(())
    }

    /// A whole cycle.
    fn cycle(&mut self) -> Result<(), BenchFault> {
        self.steal()?;
        self.search()?;
        self.refuse()
    }

    /// The node asks for work, and gets the root.
    fn steal(&mut self) -> Result<(), BenchFault> {
        self.node.act(Event::Ask(0), &mut self.out)?;
        let steal = self.last()?;
        self.registry.act(Event::Deliver(steal), &mut self.out)?;
        let give = self.last()?;
        self.node.act(Event::Deliver(give), &mut self.out)?;
        Ok(())
    }

    /// The node takes the root up, searches it with one visit, and returns what comes of it.
    fn search(&mut self) -> Result<(), BenchFault> {
        let Reply::Taken(job, prefix) = self.node.act(Event::Take, &mut self.out)? else {
            return Err(BenchFault::Unexpected);
        };
        let prefix = prefix.into_vec();
        if !is_prefix(self.problem, &prefix) {
            return Err(BenchFault::Unexpected);
        }
        let Ok(finding) = self.searcher.find(prefix, 1) else {
            return Err(BenchFault::Memory);
        };
        self.node.act(Event::Post(job, finding), &mut self.out)?;
        Ok(())
    }

    /// The root is given up before its result arrives, which is refused; so the node drops it.
    fn refuse(&mut self) -> Result<(), BenchFault> {
        let returned = self.last()?;
        self.registry.act(Event::Redo(0), &mut self.out)?;
        self.registry.act(Event::Deliver(returned), &mut self.out)?;
        let refusal = self.last()?;
        self.node.act(Event::Deliver(refusal), &mut self.out)?;
        Ok(())
    }
}

/// So many cycles.
pub fn act_cycles(alloc: Global, problem: &Problem, times: u64) -> Result<(), BenchFault> {
    Pair::new(alloc, problem)?.cycles(times)
}

/// The packets of the first cycle.
pub fn packets(alloc: Global) -> [Packet; 4] {
    let (serial, attempt) = (0, 1);
    let give = Body::Give {
        serial,
        attempt,
        prefix: Numbers::from_vec(Vec::new(alloc)),
    };
    let returned = Body::Return {
        serial,
        attempt,
        result: ChildResult::Empty,
    };
    let refuse = Body::Refuse {
        serial,
        attempt,
        cause: Cause::Superseded,
    };
    [
        from_node(Body::Steal),
        from_registry(give),
        from_node(returned),
        from_registry(refuse),
    ]
}

/// A packet of the node to the registry.
fn from_node(body: Body) -> Packet {
    Packet {
        from: NODE,
        to: REGISTRY,
        body,
    }
}

/// A packet of the registry to the node.
fn from_registry(body: Body) -> Packet {
    Packet {
        from: REGISTRY,
        to: NODE,
        body,
    }
}

/// Copies the packets so many times over.
pub fn copy_packets(alloc: Global, packets: &[Packet], times: u64) -> Result<(), BenchFault> {
    let mut out = Vec::new(alloc);
    for _ in 0..times {
        copy_all(packets, &mut out)?;
        out.clear();
    }
    Ok(())
}

/// Appends copies of the packets.
fn copy_all(packets: &[Packet], out: &mut Vec<Packet>) -> Result<(), AllocError> {
    for packet in packets {
        out.push(packet.clone()?)?;
    }
    Ok(())
}
