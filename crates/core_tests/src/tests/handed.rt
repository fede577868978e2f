//! A whole search, each packet handed from core to core: a node steals the root, finds nothing, and none is published.

ghost use Rattle.std.specs.Prelude.{◌≡◌};

use self::Hand::{Ask, Node, Post, Root, Take};
use super::said::Comes::{Ignored, Moved, Taken};
use super::said::{Comes, Said, are_sent, has_come};
use brancher::Searcher;
use cover_problem::{Answer, Problem, is_prefix};
use dlx_reader::read_problem;
use node_core::{ActFault, Core, Event, NodeCore, Reply};
use packet_wire::{Packet, is_well_formed};
use root_registry::Registry;
use spawn_frame::{ChildName, Job, Site, Unit};
use std::alloc::Global;
use std::process::Abort;

/// One item and no option: there is no cover.
const ONE_ITEM: &str = "a\n";

const REGISTRY: Site = Site {
    node: 0,
    incarnation: 1,
};

const NODE_1: Site = Site {
    node: 1,
    incarnation: 1,
};

const NODE_2: Site = Site {
    node: 2,
    incarnation: 1,
};

/// The node's search of the root.
const ROOT_JOB: Job = Job {
    unit: Unit::Guest(
        ChildName {
            site: REGISTRY,
            serial: 0,
        },
        1,
    ),
    attempt: 1,
};

/// What happens: at the node by itself, or with the packet of this number, at the registry or at the node.
#[derive(Clone, Copy)]
enum Hand {
    Ask,
    Take,
    Post,
    Root(usize),
    Node(usize),
}

/// What happens, what it comes to, and the packets that are put out, with their receivers.
type Row = (Hand, Comes, &'static [(Site, Said)]);

/// The registry of two nodes, the first of them, and all packets in the order of sending.
#[derive(Drop)]
struct Stage<'a> {
    registry: Registry<'a>,
    node: NodeCore<'a>,
    searcher: Searcher<'a>,
    problem: &'a Problem,
    packets: Vec<Packet>,
    alloc: Global,
    ghost one: { node.problem ≡ problem.now },
    ghost same: { searcher.problem ≡ problem.now },
}

impl<'a> Stage<'a> {
    fn new<R: Abort>(rt: &R, alloc: Global, problem: &'a Problem) -> Stage<'a> {
        Stage {
            registry: Registry::start(alloc, problem, 2).expect(rt, "memory"),
            node: NodeCore::start(alloc, problem, NODE_1, 2, 9).expect(rt, "memory"),
            searcher: Searcher::new(alloc, problem).expect(rt, "memory"),
            problem,
            packets: Vec::new(alloc),
            alloc,
        }
    }

    /// The root is searched at the node with one visit, and posted.
    fn post<R: Abort>(&mut self, rt: &R) -> Result<Reply, ActFault> {
        let prefix = Vec::new(self.alloc);
        assert!(rt; is_prefix(self.problem, &prefix));
        let finding = self.searcher.find(prefix, 1).expect(rt, "memory");
        self.node
            .act(Event::Post(ROOT_JOB, finding), &mut self.packets)
    }

    /// Lets it happen.
    fn act<R: Abort>(&mut self, rt: &R, hand: Hand) -> Result<Reply, ActFault> {
        match hand {
            Ask => self.node.act(Event::Ask(0), &mut self.packets),
            Take => self.node.act(Event::Take, &mut self.packets),
            Post => self.post(rt),
            Root(number) => deliver(rt, &mut self.registry, number, &mut self.packets),
            Node(number) => deliver(rt, &mut self.node, number, &mut self.packets),
        }
    }

    /// Lets one row of a script happen; whether all is as it says.
    fn plays<R: Abort>(&mut self, rt: &R, row: Row) -> bool {
        let (hand, comes, sent) = row;
        let before = self.packets.len();
        let answer = self.act(rt, hand);
        let from = match hand {
            Root(_) => REGISTRY,
            Ask | Take | Post | Node(_) => NODE_1,
        };
        let out = self.packets.get(before..).expect(rt, "packets");
        has_come(&answer, comes) && are_sent(rt, self.alloc, from, out, sent)
    }

    /// Plays a script; the first row that isn't as it says ends it.
    fn play<R: Abort>(&mut self, rt: &R, rows: &[Row]) {
        for (number, row) in rows.iter().enumerate() {
            let right = self.plays(rt, *row);
            assert!(rt; right, "row {number}");
        }
    }
}

/// The packet of this number arrives at the core.
fn deliver<C: Core, R: Abort>(
    rt: &R,
    core: &mut C,
    number: usize,
    packets: &mut Vec<Packet>,
) -> Result<Reply, ActFault>
    ensures { C.problem core.new ≡ C.problem core.old }
{
    let packet = packets.get(number).expect(rt, "a packet");
    let copy = packet.clone().expect(rt, "memory");
    assert!(rt; is_well_formed(&copy));
    core.act(Event::Deliver(copy), packets)
}

/// The result is returned twice and accepted once: the second is answered by an equal packet.
static NONE_IS_FOUND: [Row; 9] = [
    (Ask, Moved, &[(REGISTRY, Said::Steal)]),
    (Root(0), Moved, &[(NODE_1, Said::Give(0, 1, &[]))]),
    (Node(1), Moved, &[]),
    (Take, Taken(&[]), &[]),
    (Post, Moved, &[(REGISTRY, Said::Return(0, 1, None))]),
    (
        Root(2),
        Moved,
        &[
            (NODE_1, Said::Accept(0, 1, None)),
            (NODE_1, Said::Over),
            (NODE_2, Said::Over),
        ],
    ),
    (Root(2), Moved, &[(NODE_1, Said::Accept(0, 1, None))]),
    (Node(3), Moved, &[]),
    (Node(6), Ignored, &[]),
];

#[test]
fn a_search_from_core_to_core(rt: HostRuntime) {
    let alloc = rt.alloc();
    let read = read_problem(alloc, ONE_ITEM.as_bytes()).expect(&rt, "a problem");
    let mut stage = Stage::new(&rt, alloc, &read.problem);
    assert!(rt; stage.registry.published().is_none());
    stage.play(&rt, &NONE_IS_FOUND);
    assert!(rt; matches!(stage.registry.published(), Some(Answer::NoCover)));
}
