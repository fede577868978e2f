//! A node whose link takes its time: what is sent holds up neither the core nor what is received. And no packet is too
//! long to be sent.
//!
//! Of the bugs of `udp_node` that are kept outside the gate, `send_holds_no_lock` finds `send_holds_up_receive`.

ghost use Rattle.std.specs.Prelude.{◌≡◌, ◌≤◌, ℕ, IfOk};
ghost use Rattle.run_book.specs.Sites.{opening_of, IsRun, MayBeginIn};

use super::timings::SOON;
use cover_problem::Problem;
use dlx_reader::read_problem;
use node_core::{Core, Event, NodeCore};
use packet_wire::LONGEST_PACKET;
use run_book::{CellName, CellParts, Run, SiteCell, cores_step_as_their_sites};
use site_network::LONGEST_DATAGRAM;
use spawn_frame::Site;
use std::alloc::{AllocError, Global};
use std::marker::Brand;
use std::sync::atomic::{AtomicBool, AtomicU64, Ordering};
use std::sync::{Arc, Wait};
use std::test::Fail;
use std::thread::{self, Threads};
use std::time::Clock;
use udp_node::{Link, LinkFault, MemoryLink, Open, Plan, SeatReceipts, Timing, Wires, run_node};

/// How many turns a send waits at most.
const TURNS: u64 = 1_000_000;

/// How the node works: it ends soon, since nobody answers.
const PLAN: Plan = Plan {
    workers: 1,
    nodes: 1,
    fuel: 1,
    seed: 1,
    turns: 500,
    timing: Timing {
        silence_ms: 2_000,
        ..SOON
    },
    entries: 1_000_000,
    book_bytes: 1_000_000_000,
    restarts: 0,
    limit: None,
};

/// What a slow link and a second thread tell each other.
#[derive(Drop)]
struct Meeting {
    /// How many sends have asked for an act.
    asked: AtomicU64,
    /// How many acts were answered.
    answered: AtomicU64,
    /// How often it was to receive.
    receives: AtomicU64,
    /// A send waited in vain.
    is_late: AtomicBool,
    /// The node has ended.
    is_over: AtomicBool,
}

impl Meeting {
    /// Nothing has happened.
    fn new() -> Meeting {
        Meeting {
            asked: AtomicU64::new(0),
            answered: AtomicU64::new(0),
            receives: AtomicU64::new(0),
            is_late: AtomicBool::new(false),
            is_over: AtomicBool::new(false),
        }
    }

    /// A send: asks for an act, and waits for it; the first one also waits for a receive that begins after it.
    fn send(&self) {
        let receives = self.receives.load(Ordering::SeqCst);
        let before = self.asked.fetch_add(1, Ordering::SeqCst);
        let is_answered = comes_above(&self.answered, before);
        let is_received = before > 0 || comes_above(&self.receives, receives);
        if !is_answered || !is_received {
            self.is_late.store(true, Ordering::SeqCst);
        }
    }

    /// Whether a send waits for an act.
    fn is_asked(&self) -> bool {
        self.answered.load(Ordering::SeqCst) < self.asked.load(Ordering::SeqCst)
    }

    /// Whether there were sends, and none waited in vain.
    fn is_kept(&self) -> bool {
        self.asked.load(Ordering::SeqCst) > 0 && !self.is_late.load(Ordering::SeqCst)
    }
}

/// Waits until a count is above this one; whether it was in time.
fn comes_above(count: &AtomicU64, before: u64) -> bool {
    for _turn in 0..TURNS {
        if count.load(Ordering::SeqCst) > before {
            return true;
        }
        thread::yield_now();
    }
    false
}

/// A link in memory whose sends wait for a second thread.
#[derive(Drop)]
struct SlowLink {
    inner: MemoryLink,
    meeting: Arc<Meeting, Global>,
}

impl Link for SlowLink {
    ghost failed = { λ l. l.inner.failures };

    fn failures(&self) -> u64 {
        self.inner.failures()
    }

    fn send<R: Wait>(&mut self, rt: &R, to: u8, bytes: &[u8]) -> Result<(), LinkFault> {
        self.meeting.send();
        self.inner.send(rt, to, bytes)
    }

    fn receive<R: Wait>(&mut self, rt: &R, into: &mut [u8]) -> Result<Option<usize>, LinkFault> {
        self.meeting.receives.fetch_add(1, Ordering::SeqCst);
        self.inner.receive(rt, into)
    }

    fn twin(&self) -> Result<SlowLink, AllocError> {
        let meeting = Arc::try_clone(&self.meeting)?;
        Ok(SlowLink {
            inner: self.inner.twin()?,
            meeting,
        })
    }
}

/// Acts at the cell whenever a send asks for it, until the node has ended.
fn act_when_asked<J: Run, C: Core + Drop, N: CellName, R: Wait>(
    rt: &R,
    cell: &SiteCell<J, C, N>,
    receipts: SeatReceipts<N>,
    meeting: &Meeting,
) {
    let mut receipts = receipts;
    for _turn in 0..1_000 * TURNS {
        if meeting.is_over.load(Ordering::SeqCst) {
            break;
        }
        if meeting.is_asked() {
            let _ = receipts.act(rt, cell, Event::Greet);
            meeting.answered.fetch_add(1, Ordering::SeqCst);
        } else {
            thread::yield_now();
        }
    }
}

/// Runs a node at the cell while a second thread acts there.
fn run_beside<
    J: Run + Send + Sync,
    C: Core + Drop + Send,
    N: CellName + Send + Sync,
    R: Threads + Wait + Clock + Sync,
>(
    rt: &R,
    alloc: Global,
    cell: &SiteCell<J, C, N>,
    problem: &Problem,
    link: SlowLink,
    meeting: &Meeting,
) -> Option<usize>
    requires { problem.now ≡ J.run.problem }
{
    let receipts = SeatReceipts::new(rt, alloc, cell).ok()?;
    let run = move || -> usize
        requires { problem.now ≡ J.run.problem }
    {
        let end = run_node(rt, alloc, cell, problem, link, PLAN, &Open);
        meeting.is_over.store(true, Ordering::SeqCst);
        end.seats.len()
    };
    let (seats, ()) = thread::join(rt, run, move || act_when_asked(rt, cell, receipts, meeting));
    Some(seats)
}

/// Opens the cell, and runs a node there; how many of its threads have come back.
fn play<J: Run + Send + Sync, N: CellName + Send + Sync, R: Threads + Wait + Clock + Sync>(
    rt: &R,
    alloc: Global,
    cell_parts: CellParts,
    core: NodeCore,
    problem: &Problem,
    link: SlowLink,
) -> Option<usize>
    requires here { cell_parts ≡ record { table = N.table; name = N.name } }
    requires parts { N.parts ≡ 18446744073709551615 }
    requires run { IsRun J.run }
    requires begins { MayBeginIn J.run N.site N.limit }
    requires node { 1 ≤ N.site.node }
    requires core { core ≡ record { problem = J.run.problem; view = opening_of J.run N.site N.limit } }
    requires problem { problem.now ≡ J.run.problem }
{
    cores_step_as_their_sites();
    let cell: SiteCell<J, NodeCore, N> = SiteCell::new(cell_parts, core, 10_000);
    let meeting = Arc::try_clone(&link.meeting).ok()?;
    run_beside(rt, alloc, &cell, problem, link, &meeting)
}

/// The node's link, which is slow.
fn slow_link(alloc: Global, meeting: &Arc<Meeting, Global>) -> Result<SlowLink, AllocError> {
    Ok(SlowLink {
        inner: MemoryLink::new(Arc::new(alloc, Wires::new(alloc, 2)?)?, 1),
        meeting: Arc::try_clone(meeting)?,
    })
}

/// The node's site.
const HERE: Site = Site {
    node: 1,
    incarnation: 1,
};

/// Runs a node whose link is slow; how many of its threads have come back.
fn run_slow<R: Threads + Wait + Clock + Sync>(
    rt: &R,
    alloc: Global,
    problem: &Problem,
    meeting: &Arc<Meeting, Global>,
) -> Result<Option<usize>, Fail> {
    problem.recall_rules();
    let link = slow_link(alloc, meeting)?;
    let cell_parts = CellParts::new(alloc)?;
    let core = NodeCore::start(alloc, problem, HERE, 1, 1000)?;
    let came = play::<Brand, Brand, _>(rt, alloc, cell_parts, core, problem, link);
    Ok(came)
}

#[test]
fn send_holds_no_lock(rt: HostRuntime) -> Result<(), Fail> {
    let read = read_problem(rt.alloc(), b"a\na\n")?;
    let meeting = Arc::new(rt.alloc(), Meeting::new())?;
    let came = run_slow(&rt, rt.alloc(), &read.problem, &meeting)?;
    assert_eq!(rt; (came, meeting.is_kept()), (Some(2), true));
    Ok(())
}

#[test]
fn the_longest_packet_fits_into_a_datagram(rt: HostRuntime) {
    assert_eq!(rt; LONGEST_DATAGRAM, LONGEST_PACKET + 1);
}
