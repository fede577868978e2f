//! A node by itself, and a link that brings it what a test has put there.

ghost use Rattle.std.specs.Prelude.{◌≡◌, ◌≤◌, ℕ, length, true, IfOk, IfSome};
ghost use Rattle.packet_wire.specs.WellFormed.{is_well_formed};
ghost use Rattle.run_book.specs.Sites.{opening_of, IsRun, MayBeginIn};
ghost use Rattle.site_network.specs.Links.{failed_once};

use super::runs::{COVERED, Row};
use super::timings::SOON;
use brancher::Finding;
use cover_problem::Problem;
use dlx_reader::read_problem;
use node_core::{Event, NodeCore};
use packet_wire::{Body, Packet, write_packet};
use run_book::{CellName, CellParts, Entry, Run, SiteCell, cores_step_as_their_sites};
use spawn_frame::Site;
use std::alloc::{AllocError, Global};
use std::marker::Brand;
use std::sync::atomic::{AtomicU64, Ordering};
use std::sync::{Arc, Wait};
use std::test::Fail;
use std::thread::{self, Threads};
use std::time::Clock;
use udp_node::{EndCause, Follower, Gate, Link, LinkFault, Plan, Timing, run_node};

/// How many turns a send waits at most.
const TURNS: u64 = 100_000_000;

/// What comes to a node, and when.
#[derive(Drop)]
pub struct Script {
    /// How many receives bring nothing before.
    pub late: u64,
    /// What comes then, one datagram at each receive.
    pub datagrams: Vec<Vec<u8>>,
    /// Nothing is sent until all has come.
    pub is_jammed: bool,
    /// How often it was to receive.
    pub receives: AtomicU64,
}

impl Script {
    /// Nothing comes.
    pub fn new(alloc: Global) -> Script {
        Script {
            late: 0,
            datagrams: Vec::new(alloc),
            is_jammed: false,
            receives: AtomicU64::new(0),
        }
    }

    /// A packet comes behind the others.
    pub fn add(&mut self, alloc: Global, packet: &Packet) -> Result<(), AllocError>
        requires { is_well_formed packet.now ≡ true }
    {
        let mut bytes = Vec::new(alloc);
        write_packet(alloc, packet, &mut bytes)?;
        self.datagrams.push(bytes)?;
        Ok(())
    }

    /// The registry says behind all others that the search is over, so that the node ends.
    pub fn end(&mut self, alloc: Global) -> Result<(), AllocError> {
        let (from, to, body) = (REGISTRY, HERE, Body::Over);
        self.add(alloc, &Packet { from, to, body })
    }

    /// The datagram that comes at this receive.
    fn datagram(&self) -> Option<&Vec<u8>> {
        let number = self.receives.fetch_add(1, Ordering::SeqCst);
        let place = number.checked_sub(self.late)?;
        self.datagrams.get(place as usize)
    }

    /// Waits until all has come, for some time at most.
    fn wait(&self) {
        let last = self.late.saturating_add(self.datagrams.len() as u64);
        for _turn in 0..TURNS {
            if self.receives.load(Ordering::SeqCst) >= last {
                break;
            }
            thread::yield_now();
        }
    }
}

/// A link that brings what a script has, and loses what is sent.
#[derive(Drop)]
pub struct ScriptLink {
    script: Arc<Script, Global>,
    failures: u64,
}

impl ScriptLink {
    /// A link that brings what this script has. The only error is out of memory.
    pub fn new(alloc: Global, script: Script) -> Result<ScriptLink, AllocError> {
        Ok(ScriptLink {
            script: Arc::new(alloc, script)?,
            failures: 0,
        })
    }
}

impl Link for ScriptLink {
    ghost failed = { λ l. l.failures };

    fn failures(&self) -> u64 {
        self.failures
    }

    fn send<R: Wait>(&mut self, _rt: &R, _to: u8, _bytes: &[u8]) -> Result<(), LinkFault> {
        if self.script.is_jammed {
            self.script.wait();
        }
        Ok(())
    }

    fn receive<R: Wait>(&mut self, _rt: &R, into: &mut [u8]) -> Result<Option<usize>, LinkFault> {
        let Some(datagram) = self.script.datagram() else {
            return Ok(None);
        };
        let bytes = datagram.len().min(into.len());
        into[..bytes].copy_from_slice(&datagram[..bytes]);
        Ok(Some(bytes))
    }

    fn twin(&self) -> Result<ScriptLink, AllocError> {
        Ok(ScriptLink {
            script: Arc::try_clone(&self.script)?,
            failures: 0,
        })
    }
}

/// The node's site.
pub const HERE: Site = Site {
    node: 1,
    incarnation: 1,
};

/// The registry's.
pub const REGISTRY: Site = Site {
    node: 0,
    incarnation: 1,
};

/// The site of the other node.
pub const OTHER: Site = Site {
    node: 2,
    incarnation: 1,
};

/// One worker, whose searches make one visit, and one node beside this one, which is not there.
const PLAN: Plan = Plan {
    workers: 1,
    nodes: 2,
    fuel: 1,
    seed: 1,
    turns: 100_000,
    timing: SOON,
    entries: 1_000_000,
    book_bytes: 1_000_000_000,
    restarts: 0,
    limit: None,
};

/// What a node has room for.
#[derive(Clone, Copy)]
pub struct Room {
    /// How many turns each of its threads may take.
    pub turns: u64,
    /// How many entries its book may have.
    pub entries: u64,
    /// When it acts although nothing came.
    pub timing: Timing,
    /// How many children it may name.
    pub names: u32,
    /// How many visits a search has at first.
    pub fuel: u64,
}

/// What a node came to.
#[derive(Clone, Copy, Debug, PartialEq, Eq)]
pub struct Ended {
    /// Why its threads ended.
    pub cause: EndCause,
    /// How many came back.
    pub threads: usize,
    /// How many parcels were lost.
    pub losses: u64,
    /// How many entries its book has.
    pub entries: usize,
    /// In how many of them a packet is delivered.
    pub delivered: usize,
    /// In how many it says again what may be lost.
    pub agains: usize,
    /// How many searches it has begun.
    pub searches: u64,
    /// How many visits the longest of them made.
    pub visits: u64,
    /// How many the longest one of a prefix with an option made.
    pub visits_below: u64,
}

/// Lets all pass, and counts searches and the visits that they make.
#[derive(Drop)]
struct Counting {
    begun: AtomicU64,
    most: AtomicU64,
    most_below: AtomicU64,
}

impl Gate for Counting {}

impl Follower for Counting {
    fn begun(&self) {
        self.begun.fetch_add(1, Ordering::SeqCst);
    }

    fn searched(&self, finding: &Finding, made: u64) {
        self.most.fetch_max(made, Ordering::SeqCst);
        if !finding.prefix().is_empty() {
            self.most_below.fetch_max(made, Ordering::SeqCst);
        }
    }
}

/// In how many entries a packet is delivered.
pub fn delivered(entries: &[Entry]) -> usize {
    entries
        .iter()
        .filter(|entry| matches!(entry.event(), Event::Deliver(_)))
        .count()
}

/// In how many entries it is said again what may be lost.
pub fn agains(entries: &[Entry]) -> usize {
    entries
        .iter()
        .filter(|entry| matches!(entry.event(), Event::Again))
        .count()
}

/// What a node runs in: what comes to it, and how far it may go.
#[derive(Drop)]
struct Surroundings {
    link: ScriptLink,
    room: Room,
}

/// Runs a node at a cell.
fn play<J: Run + Send + Sync, N: CellName + Send + Sync, R: Threads + Wait + Clock + Sync>(
    rt: &R,
    alloc: Global,
    cell_parts: CellParts,
    core: NodeCore,
    problem: &Problem,
    surroundings: Surroundings,
) -> Option<Ended>
    requires here { cell_parts ≡ record { table = N.table; name = N.name } }
    requires parts { N.parts ≡ 18446744073709551615 }
    requires run { IsRun J.run }
    requires begins { MayBeginIn J.run N.site N.limit }
    requires node { 1 ≤ N.site.node }
    requires core { core ≡ record { problem = J.run.problem; view = opening_of J.run N.site N.limit } }
    requires problem { problem.now ≡ J.run.problem }
{
    cores_step_as_their_sites();
    let Surroundings { link, room } = surroundings;
    let cell: SiteCell<J, NodeCore, N> = SiteCell::new(cell_parts, core, room.entries);
    let plan = Plan {
        turns: room.turns,
        fuel: room.fuel,
        timing: room.timing,
        ..PLAN
    };
    let gate = Counting {
        begun: AtomicU64::new(0),
        most: AtomicU64::new(0),
        most_below: AtomicU64::new(0),
    };
    let end = run_node(rt, alloc, &cell, problem, link, plan, &gate);
    let (cause, losses) = (end.end.cause, end.end.losses);
    let (seats, tokens) = end.into_lists(alloc).ok()?;
    let threads = seats.len();
    let book = cell.settle(seats, tokens).ok()?;
    let entries = book.entries();
    Some(Ended {
        cause,
        threads,
        losses,
        entries: entries.len(),
        delivered: delivered(entries),
        agains: agains(entries),
        searches: gate.begun.load(Ordering::SeqCst),
        visits: gate.most.load(Ordering::SeqCst),
        visits_below: gate.most_below.load(Ordering::SeqCst),
    })
}

/// What a node comes to in a run of this problem.
fn run_at<R: Threads + Wait + Clock + Sync>(
    rt: &R,
    alloc: Global,
    problem: &Problem,
    script: Script,
    room: Room,
) -> Result<Option<Ended>, Fail> {
    problem.recall_rules();
    let link = ScriptLink::new(alloc, script)?;
    let surroundings = Surroundings { link, room };
    let cell_parts = CellParts::new(alloc)?;
    let core = NodeCore::start(alloc, problem, HERE, 2, room.names)?;
    let ended = play::<Brand, Brand, _>(rt, alloc, cell_parts, core, problem, surroundings);
    Ok(ended)
}

/// What a node comes to in a run of a problem with a cover; a fault where memory ran out.
pub fn run_alone<R: Threads + Wait + Clock + Sync>(
    rt: &R,
    alloc: Global,
    script: Script,
    room: Room,
) -> Result<Ended, Fail> {
    run_alone_on(rt, alloc, &COVERED, script, room)
}

/// The same of this problem.
pub fn run_alone_on<R: Threads + Wait + Clock + Sync>(
    rt: &R,
    alloc: Global,
    row: &Row,
    script: Script,
    room: Room,
) -> Result<Ended, Fail> {
    let read = read_problem(alloc, row.0.as_bytes())?;
    match run_at(rt, alloc, &read.problem, script, room)? {
        Some(ended) => Ok(ended),
        None => Err(Fail::new("memory ran out")),
    }
}
