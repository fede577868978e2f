//! Runs over links that lose the first packets of a kind and bring all others twice: what was lost is said again, and
//! what came twice does no harm.

ghost use Rattle.std.specs.Prelude.{◌≡◌, ◌+◌, ◌≤◌, ℕ, length, vec_len, IfOk, IfSome};

use super::ends::wires;
use super::runs::{BARE, COVERED, Told, run_whole};
use super::timings::SOON;
use packet_wire::{Body, read_packet};
use std::alloc::{AllocError, Global};
use std::sync::atomic::{AtomicU64, Ordering};
use std::sync::{Arc, Wait};
use std::test::Fail;
use udp_node::{Link, LinkFault, MemoryLink, Open, Plan};

/// How many packets of the kind are lost.
static LOST: u64 = 3;

/// A kind of packet.
#[derive(Clone, Copy, Debug, PartialEq, Eq)]
enum Kind {
    /// The incarnations that the registry knows.
    Members,
    /// A request for work.
    Steal,
    /// One child, or several of one frame.
    Give,
    /// A result.
    Return,
    /// The result that counts.
    Accept,
}

/// The kinds, each lost in runs of its own.
static KINDS: [Kind; 5] = [
    Kind::Members,
    Kind::Steal,
    Kind::Give,
    Kind::Return,
    Kind::Accept,
];

/// The kind of this packet, if it is one of these.
fn kind_of(body: &Body) -> Option<Kind> {
    match body {
        Body::Members(_) => Some(Kind::Members),
        Body::Steal => Some(Kind::Steal),
        Body::Give { .. } | Body::GiveMany { .. } => Some(Kind::Give),
        Body::Return { .. } => Some(Kind::Return),
        Body::Accept { .. } => Some(Kind::Accept),
        _ => None,
    }
}

/// A link that loses the first packets of a kind that the run sends, and sends all others twice.
#[derive(Drop)]
struct Forgetful<L: Link> {
    inner: L,
    alloc: Global,
    kind: Kind,
    /// How many packets of the kind the run has sent.
    sent: Arc<AtomicU64, Global>,
}

impl<L: Link> Forgetful<L> {
    /// A link that sends by this one, but loses the first packets of the kind that this counter counts.
    fn new(inner: L, alloc: Global, kind: Kind, sent: Arc<AtomicU64, Global>) -> Forgetful<L>
        ensures { result.inner ≡ inner }
    {
        Forgetful {
            inner,
            alloc,
            kind,
            sent,
        }
    }

    /// Whether these bytes are a packet that is lost.
    fn is_lost(&self, bytes: &[u8]) -> bool {
        match read_packet(self.alloc, bytes) {
            Ok(packet) if kind_of(&packet.body) == Some(self.kind) => {
                self.sent.fetch_add(1, Ordering::SeqCst) < LOST
            }
            _ => false,
        }
    }
}

impl<L: Link> Link for Forgetful<L> {
    ghost failed = { λ f. L.failed f.inner };

    fn failures(&self) -> u64 {
        self.inner.failures()
    }

    fn send<R: Wait>(&mut self, rt: &R, to: u8, bytes: &[u8]) -> Result<(), LinkFault> {
        if self.is_lost(bytes) {
            return Ok(());
        }
        self.inner.send(rt, to, bytes)?;
        self.inner.send(rt, to, bytes)
    }

    fn receive<R: Wait>(&mut self, rt: &R, into: &mut [u8]) -> Result<Option<usize>, LinkFault> {
        self.inner.receive(rt, into)
    }

    fn hasten(&mut self) {
        self.inner.hasten();
    }

    fn twin(&self) -> Result<Forgetful<L>, AllocError> {
        let sent = Arc::try_clone(&self.sent)?;
        Ok(Forgetful::new(self.inner.twin()?, self.alloc, self.kind, sent))
    }
}

/// Links for so many nodes and the registry that together lose the first packets of this kind.
fn links_that_lose(
    alloc: Global,
    nodes: u8,
    kind: Kind,
    sent: &Arc<AtomicU64, Global>,
) -> Result<Vec<Forgetful<MemoryLink>>, AllocError>
    requires { nodes ≤ 16 }
    ensures { IfOk result (λ links. vec_len links ≡ nodes + 1) }
{
    let mut links = Vec::new(alloc);
    for inner in wires(alloc, nodes)? {
        let sent = Arc::try_clone(sent)?;
        links.push(Forgetful::new(inner, alloc, kind, sent))?;
    }
    Ok(links)
}

/// Two nodes with one worker each; a search makes one visit.
const PLAN: Plan = Plan {
    workers: 1,
    nodes: 2,
    fuel: 1,
    seed: 1,
    turns: 1_000_000,
    timing: SOON,
    entries: 1_000_000,
    book_bytes: 1_000_000_000,
    restarts: 0,
    limit: None,
};

#[test]
fn what_was_lost_is_said_again(rt: HostRuntime) -> Result<(), Fail> {
    let alloc = rt.alloc();
    for kind in KINDS {
        // (where node 1 restarts its guests are lost, and their owners redo them at a later attempt)
        for (row, restarts) in [(&COVERED, 0), (&BARE, 0), (&COVERED, 2), (&BARE, 2)] {
            let sent = Arc::new(alloc, AtomicU64::new(0))?;
            let links = links_that_lose(alloc, PLAN.nodes, kind, &sent)?;
            let plan = Plan { restarts, ..PLAN };
            let Some(ran) = run_whole(&rt, alloc, row, plan, links, &Open) else {
                return Err(Fail::new("memory ran out"));
            };
            assert_eq!(rt; ran.came.told, Told::Right, "{kind:?}, {restarts} restarts");
            // (where the search ends no Accept is waited for, so fewer may be lost than there could be)
            assert!(rt;
                sent.load(Ordering::SeqCst) > 0,
                "{kind:?}, {restarts} restarts: none was lost"
            );
        }
    }
    Ok(())
}
