//! Packets that are offered to all sites at each moment of runs of two nodes. What comes of them was worked out by a
//! model of the protocol in `trials/try_packets.py`, which shares no code with the crates.

ghost use Rattle.std.specs.Prelude.{◌≡◌};

use self::Move::{Ask, Deliver, Finish, Greet, Post, Redo, Restart, Take};
use super::said::{FOUR_WAYS, LETTERS, Said, packet_of};
use brancher::Searcher;
use cover_problem::{Problem, is_prefix};
use dlx_reader::read_problem;
use node_core::{ActFault, Core, Event, NodeCore, Reply};
use packet_wire::{Packet, is_well_formed};
use root_registry::Registry;
use spawn_frame::{Cause, ChildName, Job, Site, Unit};
use std::alloc::Global;
use std::process::Abort;

/// The registry, and nodes in incarnations of theirs, some of which never start.
const REGISTRY: Site = Site {
    node: 0,
    incarnation: 1,
};

const ONE: Site = Site {
    node: 1,
    incarnation: 1,
};

const TWO: Site = Site {
    node: 2,
    incarnation: 1,
};

const TWO_AGAIN: Site = Site {
    node: 2,
    incarnation: 2,
};

const LATER_ONE: Site = Site {
    node: 1,
    incarnation: 5,
};

const LAST_ONE: Site = Site {
    node: 1,
    incarnation: 9,
};

const LATER_TWO: Site = Site {
    node: 2,
    incarnation: 3,
};

const SIXTEEN: Site = Site {
    node: 16,
    incarnation: 0x0102_0304,
};

/// The root as a guest, at its first and its second attempt, and the first child of node 1 as one.
const ROOT: Unit = Unit::Guest(
    ChildName {
        site: REGISTRY,
        serial: 0,
    },
    1,
);

const ROOT_REDONE: Unit = Unit::Guest(
    ChildName {
        site: REGISTRY,
        serial: 0,
    },
    2,
);

const STOLEN: Unit = Unit::Guest(
    ChildName {
        site: ONE,
        serial: 0,
    },
    1,
);

/// The searches of these, and of an own child.
const ROOT_JOB: Job = Job {
    unit: ROOT,
    attempt: 1,
};

const REDONE_JOB: Job = Job {
    unit: ROOT_REDONE,
    attempt: 2,
};

const STOLEN_JOB: Job = Job {
    unit: STOLEN,
    attempt: 1,
};

const SECOND_JOB: Job = Job {
    unit: Unit::Own(1),
    attempt: 1,
};

/// What happens in a run.
#[derive(Clone, Copy)]
enum Move {
    Ask(u8, u8),
    Take(u8),
    /// The node has searched this prefix with so much fuel for the job.
    Post(u8, Job, &'static [u16], u64),
    Finish(u8, Unit),
    Redo(u8, u32),
    Greet(u8),
    /// The packet of this number, of all that were put out, arrives at the site that it is for.
    Deliver(usize),
    /// Node 2 is restarted in its second incarnation.
    Restart,
}

/// The packets: first those of the tests of `packet_wire` in their order, then others.
static OFFERED: [(Site, Site, Said); 24] = [
    (REGISTRY, TWO, Said::Give(0, 1, &[])),
    (TWO, REGISTRY, Said::Return(0, 1, None)),
    (TWO, REGISTRY, Said::Return(0, 1, Some(&[3, 4, 0]))),
    (TWO, REGISTRY, Said::Steal),
    (SIXTEEN, REGISTRY, Said::Hello),
    (REGISTRY, LATER_TWO, Said::Members(&[1, 256])),
    (ONE, TWO, Said::NoWork),
    (TWO, LATER_ONE, Said::Accept(7, 2, Some(&[19_999]))),
    (REGISTRY, ONE, Said::Refuse(0, 1, Cause::Superseded)),
    (ONE, TWO, Said::Abort(256, u32::MAX)),
    (REGISTRY, LAST_ONE, Said::Over),
    (ONE, TWO, Said::GiveMany(&[], &[(0, 1, 0), (1, 1, 1)])),
    (TWO_AGAIN, REGISTRY, Said::Hello),
    (REGISTRY, ONE, Said::Members(&[1, 2])),
    (REGISTRY, TWO, Said::Members(&[2, 1])),
    (REGISTRY, ONE, Said::Accept(0, 1, None)),
    (REGISTRY, TWO, Said::Accept(0, 2, Some(&[1]))),
    (ONE, TWO, Said::Abort(0, 1)),
    (REGISTRY, ONE, Said::Over),
    (TWO, ONE, Said::Steal),
    (TWO, ONE, Said::Return(0, 1, None)),
    (ONE, TWO, Said::Give(0, 1, &[0])),
    (ONE, REGISTRY, Said::Return(0, 1, Some(&[0]))),
    (REGISTRY, ONE, Said::Give(0, 1, &[])),
];

/// What comes of the packets at a site from this moment on, a character for each: how many packets are put out where
/// something moved, `-` where it is ignored, and for a refusal the first letter of `Over`, or s for `OtherSite`, n for
/// `NamesSpent`, c for `BadCover` and p for `BadPrefix`.
type Row = (usize, &'static str);

/// A problem, what happens, and what comes of the packets at the registry and at both nodes.
type Run = (&'static str, &'static [Move], [&'static [Row]; 3]);

static RUNS: [Run; 5] = [
    // There is no cover.
    (
        "a\n",
        &[
            Ask(1, 0),
            Deliver(0),
            Deliver(1),
            Take(1),
            Post(1, ROOT_JOB, &[], 1),
            Deliver(2),
            Deliver(2),
            Deliver(3),
        ],
        [
            &[
                (0, "s111ssssssss2sssssssss1s"),
                (2, "s111ssssssss2ssssssssscs"),
                (6, "s111ssssssss2sssssssss1s"),
            ],
            &[
                (0, "ssssssss-ssss0s-ss011ss0"),
                (3, "ssssssss0ssss0s-ss011ss-"),
                (5, "ssssssss0ssss0s0ss011ss-"),
                (8, "ssssssss-ssss0s-ss011ss-"),
            ],
            &[(0, "0sssss-ss-spss0s--ssspss")],
        ],
    ),
    // The root is redone.
    (
        "a\na\na\n",
        &[
            Ask(1, 0),
            Deliver(0),
            Redo(0, 0),
            Ask(2, 0),
            Deliver(2),
            Deliver(1),
            Deliver(3),
            Take(1),
            Post(1, ROOT_JOB, &[], 2),
            Take(2),
            Post(2, REDONE_JOB, &[], 1),
            Take(2),
            Post(2, SECOND_JOB, &[1], 1),
            Finish(2, ROOT_REDONE),
            Deliver(5),
            Deliver(4),
            Deliver(9),
            Deliver(6),
        ],
        [
            &[
                (0, "s111ssssssss2sssssssss1s"),
                (2, "s111ssssssss2sssssssss3s"),
                (3, "s111ssssssss2sssssssss1s"),
            ],
            &[
                (0, "ssssssss-ssss0s-ss011ss0"),
                (6, "ssssssss0ssss0s-ss011ss-"),
                (9, "ssssssss0ssss0s0ss011ss-"),
                (17, "ssssssss-ssss0s-ss011ss-"),
            ],
            &[
                (0, "0sssss-ss-s0ss0s--sss0ss"),
                (14, "0sssss-ss-s0ss0s0-sss0ss"),
                (18, "0sssss-ss-s0ss0s--sss0ss"),
            ],
        ],
    ),
    // The first node finishes before a result comes.
    (
        LETTERS,
        &[
            Ask(1, 0),
            Deliver(0),
            Deliver(1),
            Take(1),
            Post(1, ROOT_JOB, &[], 1),
            Ask(2, 1),
            Deliver(2),
            Deliver(3),
            Take(2),
            Post(2, STOLEN_JOB, &[1], 2),
            Take(1),
            Post(1, SECOND_JOB, &[3], 3),
            Finish(1, ROOT),
            Deliver(4),
            Deliver(7),
            Deliver(6),
        ],
        [
            &[
                (0, "s111ssssssss2sssssssss1s"),
                (2, "s111ssssssss2ssssssssscs"),
                (16, "s111ssssssss2sssssssss1s"),
            ],
            &[
                (0, "ssssssss-ssss0s-ss011ss0"),
                (3, "ssssssss0ssss0s-ss011ss-"),
                (7, "ssssssss1ssss0s-ss011ss-"),
                (13, "ssssssss0ssss0s0ss011ss-"),
            ],
            &[
                (0, "0sssss-ss-s0ss0s--sss0ss"),
                (8, "0sssss-ss-s0ss0s-0sss-ss"),
                (15, "0sssss-ss-s0ss0s--sss-ss"),
            ],
        ],
    ),
    // The thief is restarted before its result comes.
    (
        LETTERS,
        &[
            Ask(1, 0),
            Deliver(0),
            Deliver(1),
            Take(1),
            Post(1, ROOT_JOB, &[], 1),
            Ask(2, 1),
            Deliver(2),
            Deliver(3),
            Take(2),
            Post(2, STOLEN_JOB, &[1], 2),
            Restart,
            Greet(2),
            Deliver(5),
            Deliver(6),
            Deliver(4),
            Deliver(3),
            Deliver(8),
        ],
        [
            &[
                (0, "s111ssssssss2sssssssss1s"),
                (2, "s111ssssssss2ssssssssscs"),
            ],
            &[
                (0, "ssssssss-ssss0s-ss011ss0"),
                (3, "ssssssss0ssss0s-ss011ss-"),
                (7, "ssssssss1ssss0s-ss011ss-"),
                (14, "ssssssss0ssss-s-ss011ss-"),
            ],
            &[
                (0, "0sssss-ss-s0ss0s--sss0ss"),
                (8, "0sssss-ss-s0ss0s-0sss-ss"),
                (11, "ssssssssssssssssssssssss"),
            ],
        ],
    ),
    // Two children go with one packet.
    (
        FOUR_WAYS,
        &[
            Ask(1, 0),
            Deliver(0),
            Deliver(1),
            Take(1),
            Post(1, ROOT_JOB, &[], 1),
            Ask(2, 1),
            Deliver(2),
            Deliver(3),
            Deliver(3),
            Take(2),
            Post(2, STOLEN_JOB, &[0], 1),
            Deliver(4),
            Finish(1, ROOT),
            Deliver(6),
            Deliver(7),
        ],
        [
            &[
                (0, "s111ssssssss2sssssssss1s"),
                (2, "s111ssssssss2sssssssss3s"),
                (15, "s111ssssssss2sssssssss1s"),
            ],
            &[
                (0, "ssssssss-ssss0s-ss011ss0"),
                (3, "ssssssss0ssss0s-ss011ss-"),
                (7, "ssssssss2ssss0s-ss011ss-"),
                (12, "ssssssss1ssss0s-ss011ss-"),
                (13, "ssssssss0ssss0s0ss011ss-"),
            ],
            &[
                (0, "0sssss-ss-s0ss0s--sss0ss"),
                (8, "0sssss-ss-s-ss0s-0sss-ss"),
            ],
        ],
    ),
];

/// All sites of a run, and all packets in the order of sending.
#[derive(Drop)]
struct Stage<'a> {
    registry: Registry<'a>,
    one: NodeCore<'a>,
    two: NodeCore<'a>,
    searcher: Searcher<'a>,
    problem: &'a Problem,
    packets: Vec<Packet>,
    alloc: Global,
    ghost first: { one.problem ≡ problem.now },
    ghost second: { two.problem ≡ problem.now },
    ghost searched: { searcher.problem ≡ problem.now },
}

impl<'a> Stage<'a> {
    fn new<R: Abort>(rt: &R, alloc: Global, problem: &'a Problem) -> Stage<'a> {
        Stage {
            registry: Registry::start(alloc, problem, 2).expect(rt, "memory"),
            one: NodeCore::start(alloc, problem, ONE, 2, 1000).expect(rt, "memory"),
            two: NodeCore::start(alloc, problem, TWO, 2, 1000).expect(rt, "memory"),
            searcher: Searcher::new(alloc, problem).expect(rt, "memory"),
            problem,
            packets: Vec::new(alloc),
            alloc,
        }
    }

    /// Lets an event happen at a site, which is no Post.
    fn act<R: Abort>(&mut self, rt: &R, node: u8, event: Event) -> Result<Reply, ActFault> {
        match node {
            0 => act(rt, &mut self.registry, event, &mut self.packets),
            1 => act(rt, &mut self.one, event, &mut self.packets),
            _ => act(rt, &mut self.two, event, &mut self.packets),
        }
    }

    /// A prefix is searched, and what is found is posted at a node.
    fn post<R: Abort>(
        &mut self,
        rt: &R,
        (node, job): (u8, Job),
        prefix: &[u16],
        fuel: u64,
    ) -> Result<Reply, ActFault> {
        let list = Vec::from_slice(self.alloc, prefix).expect(rt, "memory");
        assert!(rt; is_prefix(self.problem, &list));
        let finding = self.searcher.find(list, fuel.max(1)).expect(rt, "memory");
        let event = Event::Post(job, finding);
        match node {
            1 => self.one.act(event, &mut self.packets),
            _ => self.two.act(event, &mut self.packets),
        }
    }

    /// A packet arrives at the site that it is for, or at another incarnation of that node.
    fn deliver<R: Abort>(&mut self, rt: &R, number: usize) -> Result<Reply, ActFault> {
        let packet = self.packets.get(number).expect(rt, "a packet");
        let copy = packet.clone().expect(rt, "memory");
        self.act(rt, copy.to.node, Event::Deliver(copy))
    }

    /// Node 2 restarts.
    fn restart<R: Abort>(&mut self, rt: &R) -> Result<Reply, ActFault> {
        self.two = NodeCore::start(self.alloc, self.problem, TWO_AGAIN, 2, 1000).expect(
            rt, "memory",
        );
        Ok(Reply::Moved)
    }

    /// Lets it happen.
    fn happen<R: Abort>(&mut self, rt: &R, one: Move) -> Result<Reply, ActFault> {
        match one {
            Ask(node, victim) => self.act(rt, node, Event::Ask(victim)),
            Take(node) => self.act(rt, node, Event::Take),
            Post(node, job, prefix, fuel) => self.post(rt, (node, job), prefix, fuel),
            Finish(node, unit) => self.act(rt, node, Event::Finish(unit)),
            Redo(node, serial) => self.act(rt, node, Event::Redo(serial)),
            Greet(node) => self.act(rt, node, Event::Greet),
            Deliver(number) => self.deliver(rt, number),
            Restart => self.restart(rt),
        }
    }

    /// Lets all these happen.
    fn happen_all<R: Abort>(&mut self, rt: &R, moves: &[Move]) {
        for one in moves {
            // (in some of the runs an event is refused, so no answer is a fault here)
            let _answer = self.happen(rt, *one);
        }
    }

    /// Offers a packet to each site.
    fn offer<R: Abort>(&mut self, rt: &R, packet: &Packet) -> [u8; 3] {
        [
            offer(rt, self.alloc, &mut self.registry, packet),
            offer(rt, self.alloc, &mut self.one, packet),
            offer(rt, self.alloc, &mut self.two, packet),
        ]
    }
}

/// Lets an event happen at a core, which is no Post.
fn act<C: Core, R: Abort>(
    rt: &R,
    core: &mut C,
    event: Event,
    out: &mut Vec<Packet>,
) -> Result<Reply, ActFault>
    ensures { C.problem core.new ≡ C.problem core.old }
{
    match event {
        Event::Deliver(packet) => {
            assert!(rt; is_well_formed(&packet));
            core.act(Event::Deliver(packet), out)
        }
        Event::Post(..) => Err(ActFault::StaleJob),
        other => core.act(other, out),
    }
}

/// The character of an answer with so many packets.
fn character(answer: &Result<Reply, ActFault>, packets: usize) -> u8 {
    match (answer, packets) {
        (Ok(Reply::Moved), 0) => b'0',
        (Ok(Reply::Moved), 1) => b'1',
        (Ok(Reply::Moved), 2) => b'2',
        (Ok(Reply::Moved), 3) => b'3',
        (Ok(Reply::Ignored), 0) => b'-',
        (Err(ActFault::OtherSite), 0) => b's',
        (Err(ActFault::Over), 0) => b'o',
        (Err(ActFault::NamesSpent), 0) => b'n',
        (Err(ActFault::BadCover), 0) => b'c',
        (Err(ActFault::BadPrefix), 0) => b'p',
        _ => b'?',
    }
}

/// What comes of a packet at a core.
fn offer<C: Core, R: Abort>(rt: &R, alloc: Global, core: &mut C, packet: &Packet) -> u8
    ensures { C.problem core.new ≡ C.problem core.old }
{
    let copy = packet.clone().expect(rt, "memory");
    let mut out = Vec::new(alloc);
    let answer = act(rt, core, Event::Deliver(copy), &mut out);
    character(&answer, out.len())
}

/// The sites at a moment of a run.
fn stage_at<'a, R: Abort>(
    rt: &R,
    alloc: Global,
    problem: &'a Problem,
    moves: &[Move],
) -> Stage<'a> {
    let mut stage = Stage::new(rt, alloc, problem);
    stage.happen_all(rt, moves);
    stage
}

/// Whether this has to come of a packet at a moment: the last row that isn't later says so.
fn is_expected(rows: &[Row], moment: usize, place: usize, came: u8) -> bool {
    let mut expected = None;
    for (first, row) in rows {
        if *first <= moment {
            expected = row.as_bytes().get(place);
        }
    }
    expected == Some(&came)
}

/// Whether a packet comes to what it should at a moment.
fn comes_so<R: Abort>(
    rt: &R,
    stage: &mut Stage<'_>,
    packet: &Packet,
    rows: &[&[Row]; 3],
    (moment, place): (usize, usize),
) -> bool {
    let [at_registry, at_one, at_two] = stage.offer(rt, packet);
    let [registry, one, two] = rows;
    is_expected(registry, moment, place, at_registry)
        && is_expected(one, moment, place, at_one)
        && is_expected(two, moment, place, at_two)
}

/// The same of a packet at sites of its own.
fn agrees_at<R: Abort>(
    rt: &R,
    alloc: Global,
    problem: &Problem,
    (moves, rows): (&[Move], &[&[Row]; 3]),
    packet: &Packet,
    place: usize,
) -> bool {
    let mut stage = stage_at(rt, alloc, problem, moves);
    comes_so(rt, &mut stage, packet, rows, (moves.len(), place))
}

/// Whether all packets come to what they should at a moment.
fn agrees<R: Abort>(
    rt: &R,
    alloc: Global,
    problem: &Problem,
    (moves, rows): (&[Move], &[&[Row]; 3]),
) -> bool {
    for (place, (from, to, said)) in OFFERED.iter().enumerate() {
        let packet = packet_of(alloc, *from, *to, *said).expect(rt, "memory");
        if !agrees_at(rt, alloc, problem, (moves, rows), &packet, place) {
            return false;
        }
    }
    true
}

/// The same at each moment of a run.
fn agrees_throughout<R: Abort>(rt: &R, alloc: Global, number: usize, run: &Run) {
    let (text, moves, rows) = run;
    let read = read_problem(alloc, text.as_bytes()).expect(rt, "a problem");
    for moment in 0..moves.len() + 1 {
        let right = agrees(rt, alloc, &read.problem, (&moves[..moment], rows));
        assert!(rt; right, "run {number}, moment {moment}");
    }
}

#[test]
fn packets_at_each_moment(rt: HostRuntime) {
    for (number, run) in RUNS.iter().enumerate() {
        agrees_throughout(&rt, rt.alloc(), number, run);
    }
}
