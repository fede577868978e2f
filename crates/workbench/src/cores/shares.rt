//! A Steal with the Give that answers it, of one child or of several, over and over.

ghost use Rattle.std.specs.Prelude.{◌≡◌, ◌≤◌, true, IfOk, IfSome};
ghost use Rattle.packet_wire.specs.WellFormed.{is_well_formed};

use crate::cores::cycle::{NODE, REGISTRY};
use crate::cores::fault::BenchFault;
use brancher::Searcher;
use cover_problem::{Numbers, Problem, is_prefix};
use dlx_reader::read_problem;
use node_core::{Core, Event, NodeCore, Reply};
use packet_wire::{Body, Packet, is_well_formed};
use spawn_frame::Site;
use std::alloc::{AllocError, Global};

/// The thief.
const THIEF: Site = Site {
    node: 2,
    incarnation: 1,
};

/// A node whose frame has as many children as make a share.
#[derive(Drop)]
struct Victim<'a> {
    node: NodeCore<'a>,
    searcher: Searcher<'a>,
    problem: &'a Problem,
    out: Vec<Packet>,
    ghost one: { node.problem ≡ problem.now },
    ghost same: { searcher.problem ≡ problem.now },
}

impl<'a> Victim<'a> {
    /// The node before its first event.
    fn start(alloc: Global, problem: &'a Problem) -> Result<Victim<'a>, AllocError> {
        Ok(Victim {
            node: NodeCore::start(alloc, problem, NODE, 2, problem.options() as u32)?,
            searcher: Searcher::new(alloc, problem)?,
            problem,
            out: Vec::new(alloc),
        })
    }

    /// The node, once it has the root and has split it.
    fn new(alloc: Global, problem: &'a Problem) -> Result<Victim<'a>, BenchFault> {
        let mut victim = Victim::start(alloc, problem)?;
        victim.open(alloc)?;
        Ok(victim)
    }

    /// The node gets the root and splits it.
    fn open(&mut self, alloc: Global) -> Result<(), BenchFault> {
        self.hear_of_root(alloc)?;
        self.split_root()
    }

    /// The registry gives the root.
    fn hear_of_root(&mut self, alloc: Global) -> Result<(), BenchFault> {
        let root = root(alloc);
        if !is_well_formed(&root) {
            return Err(BenchFault::Unexpected);
        }
        self.node.act(Event::Deliver(root), &mut self.out)?;
        Ok(())
    }

    /// The node takes the root up, searches it with one visit, and splits it.
    fn split_root(&mut self) -> Result<(), BenchFault> {
        let Reply::Taken(job, prefix) = self.node.act(Event::Take, &mut self.out)? else {
            return Err(BenchFault::Unexpected);
        };
        let prefix = prefix.into_vec();
        if !is_prefix(self.problem, &prefix) {
            return Err(BenchFault::Unexpected);
        }
        let Ok(finding) = self.searcher.find(prefix, 1) else {
            return Err(BenchFault::Memory);
        };
        self.node.act(Event::Post(job, finding), &mut self.out)?;
        Ok(())
    }

    /// The thief asks, and gets its share.
    fn give(&mut self) -> Result<Packet, BenchFault>
        ensures { IfOk result (λ packet. is_well_formed packet ≡ true) }
    {
        self.node.act(Event::Deliver(steal()), &mut self.out)?;
        match self.out.pop() {
            Some(packet) if is_well_formed(&packet) => Ok(packet),
            _ => Err(BenchFault::Unexpected),
        }
    }

    /// A thief that begins gets so many children, which are ready again after that.
    fn share(&mut self, alloc: Global, share: u32) -> Result<(), BenchFault> {
        let give = self.give()?;
        hear(alloc, self.problem, give)?;
        self.redo(share)
    }

    /// The same so many times.
    fn share_often(&mut self, alloc: Global, share: u32, times: u64) -> Result<(), BenchFault> {
        for _ in 0..times {
            self.share(alloc, share)?;
        }
        Ok(())
    }

    /// The children that were given are ready again.
    fn redo(&mut self, share: u32) -> Result<(), BenchFault> {
        for serial in 0..share {
            self.node.act(Event::Redo(serial), &mut self.out)?;
        }
        Ok(())
    }
}

/// The packet by which the thief asks.
fn steal() -> Packet
    ensures { is_well_formed result ≡ true }
{
    Packet {
        from: THIEF,
        to: NODE,
        body: Body::Steal,
    }
}

/// The packet that gives the root.
fn root(alloc: Global) -> Packet {
    Packet {
        from: REGISTRY,
        to: NODE,
        body: Body::Give {
            serial: 0,
            attempt: 1,
            prefix: Numbers::from_vec(Vec::new(alloc)),
        },
    }
}

/// The problem of one item and so many options that name it.
pub fn one_item(alloc: Global, options: u32) -> Result<Problem, BenchFault> {
    let text = "a\n".repeat(alloc, options as usize + 1)?;
    match read_problem(alloc, text.as_bytes()) {
        Ok(read) => Ok(read.problem),
        Err(_) => Err(BenchFault::Memory),
    }
}

/// A thief that begins hears the packet.
fn hear(alloc: Global, problem: &Problem, packet: Packet) -> Result<(), BenchFault>
    requires { is_well_formed packet ≡ true }
{
    let mut thief = NodeCore::start(alloc, problem, THIEF, 2, 1)?;
    deliver(alloc, &mut thief, packet)
}

/// The core hears the packet; what it puts out is let go.
fn deliver<C: Core>(alloc: Global, core: &mut C, packet: Packet) -> Result<(), BenchFault>
    requires { is_well_formed packet ≡ true }
{
    core.act(Event::Deliver(packet), &mut Vec::new(alloc))?;
    Ok(())
}

/// How many children are given at once in counts of this kind; none for another word.
pub fn share_in(kind: &str) -> Option<u32>
    ensures { IfSome result (λ share. (1 ≤ share) × (share ≤ 8)) }
{
    match kind {
        "share-1" => Some(1),
        "share-2" => Some(2),
        "share-8" => Some(8),
        _ => None,
    }
}

/// The problem whose frame has as many children as make this share.
fn problem_of(alloc: Global, share: u32) -> Result<Problem, BenchFault>
    requires some { 1 ≤ share }
    requires most { share ≤ 8 }
{
    one_item(alloc, 2 * share - 1)
}

/// A thief that begins gets so many children of a frame, which are ready again after that; all this so many times. A
/// round has two deliveries, and a redo of each child.
pub fn act_shares(alloc: Global, share: u32, times: u64) -> Result<(), BenchFault>
    requires some { 1 ≤ share }
    requires most { share ≤ 8 }
{
    let problem = problem_of(alloc, share)?;
    Victim::new(alloc, &problem)?.share_often(alloc, share, times)
}

/// The Give of a victim's share.
fn given(alloc: Global, problem: &Problem) -> Result<Packet, BenchFault> {
    Victim::new(alloc, problem)?.give()
}

/// The packets of a round.
pub fn share_packets(alloc: Global, share: u32) -> Result<[Packet; 2], BenchFault>
    requires some { 1 ≤ share }
    requires most { share ≤ 8 }
{
    let problem = problem_of(alloc, share)?;
    let give = given(alloc, &problem)?;
    Ok([steal(), give])
}
