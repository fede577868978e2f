//! Whole runs of worlds of two nodes; what is expected is worked out by hand from the rules of the protocol.

use self::Step::{Finds, Happens, Holds, Incarnations, Publishes};
use super::said::Comes::{Fault, Ignored, Moved, Ripe, Taken};
use super::said::Held::{Aborted, Done, Dropped, Finished, Out, Ready, Settled};
use super::said::Said::{
    Abort as CallOff, Accept, Give, GiveMany, Hello, Members, Over, Refuse, Return, Steal,
};
use super::said::{Came, Comes, Held, Said, has_come, is_held, is_packet, is_published};
use cover_world::WorldEvent::{Ask, Deliver, Finish, Greet, Post, Redo, Restart, Take};
use cover_world::WorldFault::{Core, NoSuchNode, NoSuchPacket, OldIncarnation};
use cover_world::{World, WorldEvent};
use dlx_reader::read_problem;
use node_core::ActFault::{OtherSite, StaleJob};
use spawn_frame::{Attempt, Cause, ChildName, Job, Sibling, Site, Unit};
use std::alloc::Global;
use std::process::Abort;

/// One item and no option.
pub const ITEM: &str = "a\n";

/// One item and two options that name it alone.
pub const TWO_WAYS: &str = "a\na\na\n";

/// One item and four options that name it alone.
pub const FOUR_WAYS: &str = "a\na\na\na\na\n";

/// Seven items and six options, with one cover: options 3, 4 and 0.
pub const LETTERS: &str = "a b c d e f g\nc e\na d g\nb c f\na d f\nb g\nd e g\n";

/// The registry, and nodes in incarnations of theirs.
const REGISTRY: Site = Site {
    node: 0,
    incarnation: 1,
};

const NODE_1: Site = Site {
    node: 1,
    incarnation: 1,
};

const NODE_2: Site = Site {
    node: 2,
    incarnation: 1,
};

const NODE_2_ANEW: Site = Site {
    node: 2,
    incarnation: 2,
};

/// The root as a guest, at its first attempt.
pub const ROOT: Unit = Unit::Guest(
    ChildName {
        site: REGISTRY,
        serial: 0,
    },
    1,
);

/// The root as a guest, at its second attempt.
pub const ROOT_REDONE: Unit = Unit::Guest(
    ChildName {
        site: REGISTRY,
        serial: 0,
    },
    2,
);

/// The first child of the first node as a guest.
pub const STOLEN: Unit = Unit::Guest(
    ChildName {
        site: NODE_1,
        serial: 0,
    },
    1,
);

/// The root, taken up.
pub const ROOT_JOB: Job = Job {
    unit: ROOT,
    attempt: 1,
};

const REDONE_JOB: Job = Job {
    unit: ROOT_REDONE,
    attempt: 2,
};

/// The stolen child, taken up.
pub const STOLEN_JOB: Job = Job {
    unit: STOLEN,
    attempt: 1,
};

const FIRST_JOB: Job = Job {
    unit: Unit::Own(0),
    attempt: 1,
};

/// An own child, taken up.
pub const SECOND_JOB: Job = Job {
    unit: Unit::Own(1),
    attempt: 1,
};

/// A packet that is put out: from, to, and what it says.
pub type Sent = (Site, Site, Said);

/// A step of a script.
#[derive(Clone, Copy)]
pub enum Step {
    /// The event comes to this, and these packets are put out.
    Happens(WorldEvent, Comes, &'static [Sent]),
    /// The node has the unit at this attempt and so far.
    Holds(u8, Unit, Attempt, Held),
    /// The registry publishes a cover, or that there is none, or nothing yet.
    Publishes(Option<Came>),
    /// The nodes are in these incarnations.
    Incarnations(u32, u32),
    /// At the node the least unit that is here, the frame that is ripe, and the least child that is out are these.
    Finds(u8, Option<Job>, Option<Unit>, Option<u32>),
}

/// Whether the packets sent from this one on are these.
pub fn are_sent(world: &World<'_>, first: usize, packets: &[Sent]) -> bool {
    if first > world.sent() || world.sent() - first != packets.len() {
        return false;
    }
    for (place, (from, to, said)) in packets.iter().enumerate() {
        if place >= world.sent() - first {
            return false;
        }
        if !is_packet(world.packet(first + place), *from, *to, *said) {
            return false;
        }
    }
    true
}

/// Whether there are two nodes, in these incarnations.
fn are_incarnations(world: &World<'_>, first: u32, second: u32) -> bool {
    world.nodes() == 2 && world.incarnation(1) == first && world.incarnation(2) == second
}

/// Whether a step goes as it says.
pub fn goes(world: &mut World<'_>, step: Step) -> bool {
    match step {
        Happens(event, comes, packets) => {
            let first = world.sent();
            let answer = world.step(event);
            has_come(&answer, comes) && are_sent(world, first, packets)
        }
        Holds(node, unit, attempt, held) => match world.unit(node, unit) {
            Some(view) => view.attempt == attempt && is_held(view.status, held),
            None => false,
        },
        Publishes(expected) => is_published(world.published(), expected),
        Incarnations(first, second) => are_incarnations(world, first, second),
        Finds(node, here, ripe, out) => {
            world.here(node) == here && world.ripe(node) == ripe && world.out(node) == out
        }
    }
}

/// Takes these steps, one after another, in a world of two nodes that begins.
fn play<R: Abort>(rt: &R, alloc: Global, text: &str, scripts: &[&[Step]]) {
    let read = read_problem(alloc, text.as_bytes()).expect(rt, "a problem");
    let mut world = World::start(alloc, &read.problem, 2).expect(rt, "memory");
    play_parts(rt, &mut world, scripts);
}

/// Takes the steps of each part.
fn play_parts<R: Abort>(rt: &R, world: &mut World<'_>, scripts: &[&[Step]]) {
    for (part, steps) in scripts.iter().enumerate() {
        play_part(rt, world, part, steps);
    }
}

/// Takes the steps of this part.
fn play_part<R: Abort>(rt: &R, world: &mut World<'_>, part: usize, steps: &[Step]) {
    for (number, step) in steps.iter().enumerate() {
        let right = goes(world, *step);
        assert!(rt; right, "part {part}, step {number}");
    }
}

/// How many of the events are steps, in a world of two nodes.
fn count<R: Abort>(rt: &R, alloc: Global, text: &str, events: &[WorldEvent]) -> usize {
    let read = read_problem(alloc, text.as_bytes()).expect(rt, "a problem");
    let mut world = World::start(alloc, &read.problem, 2).expect(rt, "memory");
    world.run(events).expect(rt, "memory")
}

/// There is no cover: the first node finds that out, and its result comes twice.
pub static NO_COVER: &[Step] = &[
    Finds(0, None, None, None),
    Happens(Ask(1, 0), Moved, &[(NODE_1, REGISTRY, Steal)]),
    Happens(Deliver(0), Moved, &[(REGISTRY, NODE_1, Give(0, 1, &[]))]),
    Holds(0, Unit::Own(0), 1, Out(NODE_1)),
    Finds(0, None, None, Some(0)),
    Happens(Deliver(1), Moved, &[]),
    Holds(1, ROOT, 1, Ready),
    Happens(Take(1), Taken(&[]), &[]),
    Finds(1, Some(ROOT_JOB), None, None),
    Happens(
        Post(1, ROOT_JOB, 1),
        Moved,
        &[(NODE_1, REGISTRY, Return(0, 1, None))],
    ),
    Holds(1, ROOT, 1, Finished(None)),
    Publishes(None),
    Happens(
        Deliver(2),
        Moved,
        &[
            (REGISTRY, NODE_1, Accept(0, 1, None)),
            (REGISTRY, NODE_1, Over),
            (REGISTRY, NODE_2, Over),
        ],
    ),
    Publishes(Some(None)),
    Holds(0, Unit::Own(0), 1, Done(None)),
    Happens(Deliver(2), Moved, &[(REGISTRY, NODE_1, Accept(0, 1, None))]),
    Holds(0, Unit::Own(0), 1, Done(None)),
    Happens(Deliver(3), Moved, &[]),
    Holds(1, ROOT, 1, Settled(None)),
];

/// The root is redone, and both thieves settle on the result of the second.
pub static OVERTAKEN: &[Step] = &[
    Happens(Ask(1, 0), Moved, &[(NODE_1, REGISTRY, Steal)]),
    Happens(Deliver(0), Moved, &[(REGISTRY, NODE_1, Give(0, 1, &[]))]),
    Happens(Redo(0, 0), Moved, &[]),
    Holds(0, Unit::Own(0), 2, Ready),
    Happens(Ask(2, 0), Moved, &[(NODE_2, REGISTRY, Steal)]),
    Happens(Deliver(2), Moved, &[(REGISTRY, NODE_2, Give(0, 2, &[]))]),
    Happens(Deliver(1), Moved, &[]),
    Happens(Deliver(3), Moved, &[]),
    Happens(Take(1), Taken(&[]), &[]),
    Happens(
        Post(1, ROOT_JOB, 2),
        Moved,
        &[(NODE_1, REGISTRY, Return(0, 1, Some(&[0])))],
    ),
    Happens(Take(2), Taken(&[]), &[]),
    Happens(Post(2, REDONE_JOB, 1), Moved, &[]),
    Holds(2, Unit::Own(0), 1, Ready),
    Happens(Take(2), Taken(&[1]), &[]),
    Happens(Post(2, SECOND_JOB, 1), Moved, &[]),
    Finds(2, None, Some(ROOT_REDONE), None),
    Happens(Take(2), Ripe(ROOT_REDONE), &[]),
    Happens(
        Finish(2, ROOT_REDONE),
        Moved,
        &[(NODE_2, REGISTRY, Return(0, 2, Some(&[1])))],
    ),
    Holds(2, Unit::Own(0), 1, Aborted),
    Happens(
        Deliver(5),
        Moved,
        &[
            (REGISTRY, NODE_2, Accept(0, 2, Some(&[1]))),
            (REGISTRY, NODE_1, Over),
            (REGISTRY, NODE_2, Over),
        ],
    ),
    Holds(0, Unit::Own(0), 2, Done(Some(&[1]))),
    Publishes(Some(Some(&[1]))),
    Happens(
        Deliver(4),
        Moved,
        &[(REGISTRY, NODE_1, Accept(0, 1, Some(&[1])))],
    ),
    Happens(Deliver(9), Moved, &[]),
    Holds(1, ROOT, 1, Settled(Some(&[1]))),
    Happens(Deliver(6), Moved, &[]),
    Holds(2, ROOT_REDONE, 2, Settled(Some(&[1]))),
];

/// The second node steals the first child, and finds that there is no cover below it.
pub static STOLEN_CHILD: &[Step] = &[
    Happens(Ask(1, 0), Moved, &[(NODE_1, REGISTRY, Steal)]),
    Happens(Deliver(0), Moved, &[(REGISTRY, NODE_1, Give(0, 1, &[]))]),
    Happens(Deliver(1), Moved, &[]),
    Happens(Take(1), Taken(&[]), &[]),
    Happens(Post(1, ROOT_JOB, 1), Moved, &[]),
    Holds(1, Unit::Own(0), 1, Ready),
    Holds(1, Unit::Own(1), 1, Ready),
    Happens(Ask(2, 1), Moved, &[(NODE_2, NODE_1, Steal)]),
    Happens(Deliver(2), Moved, &[(NODE_1, NODE_2, Give(0, 1, &[1]))]),
    Finds(1, None, None, Some(0)),
    Happens(Deliver(3), Moved, &[]),
    Happens(Take(2), Taken(&[1]), &[]),
    Happens(
        Post(2, STOLEN_JOB, 2),
        Moved,
        &[(NODE_2, NODE_1, Return(0, 1, None))],
    ),
];

/// The first node's second child as a guest.
const SECOND_STOLEN: Unit = Unit::Guest(
    ChildName {
        site: NODE_1,
        serial: 1,
    },
    1,
);

/// The first two of four children.
const FIRST_TWO: &[Sibling] = &[
    Sibling {
        serial: 0,
        attempt: 1,
        option: 0,
    },
    Sibling {
        serial: 1,
        attempt: 1,
        option: 1,
    },
];

/// The second node gets two of four children with one packet, which comes twice, and finds a cover below the first.
pub static TWO_TOGETHER: &[Step] = &[
    Happens(Ask(1, 0), Moved, &[(NODE_1, REGISTRY, Steal)]),
    Happens(Deliver(0), Moved, &[(REGISTRY, NODE_1, Give(0, 1, &[]))]),
    Happens(Deliver(1), Moved, &[]),
    Happens(Take(1), Taken(&[]), &[]),
    Happens(Post(1, ROOT_JOB, 1), Moved, &[]),
    Holds(1, Unit::Own(3), 1, Ready),
    Happens(Ask(2, 1), Moved, &[(NODE_2, NODE_1, Steal)]),
    Happens(
        Deliver(2),
        Moved,
        &[(NODE_1, NODE_2, GiveMany(&[], FIRST_TWO))],
    ),
    Holds(1, Unit::Own(0), 1, Out(NODE_2)),
    Holds(1, Unit::Own(1), 1, Out(NODE_2)),
    Holds(1, Unit::Own(2), 1, Ready),
    Happens(Deliver(3), Moved, &[]),
    Holds(2, STOLEN, 1, Ready),
    Holds(2, SECOND_STOLEN, 1, Ready),
    Happens(Deliver(3), Ignored, &[]),
    Happens(Take(2), Taken(&[0]), &[]),
    Happens(
        Post(2, STOLEN_JOB, 1),
        Moved,
        &[(NODE_2, NODE_1, Return(0, 1, Some(&[0])))],
    ),
    Happens(
        Deliver(4),
        Moved,
        &[(NODE_1, NODE_2, Accept(0, 1, Some(&[0])))],
    ),
    Holds(1, Unit::Own(0), 1, Done(Some(&[0]))),
    Happens(
        Finish(1, ROOT),
        Moved,
        &[
            (NODE_1, NODE_2, CallOff(1, 1)),
            (NODE_1, REGISTRY, Return(0, 1, Some(&[0]))),
        ],
    ),
    Holds(1, Unit::Own(1), 1, Aborted),
    Holds(1, Unit::Own(2), 1, Aborted),
    Holds(1, Unit::Own(3), 1, Aborted),
    Happens(Deliver(6), Moved, &[]),
    Holds(2, SECOND_STOLEN, 1, Dropped),
    Happens(
        Deliver(7),
        Moved,
        &[
            (REGISTRY, NODE_1, Accept(0, 1, Some(&[0]))),
            (REGISTRY, NODE_1, Over),
            (REGISTRY, NODE_2, Over),
        ],
    ),
    Publishes(Some(Some(&[0]))),
];

/// The first node finishes before the result comes.
pub static LATE_RESULT: &[Step] = &[
    Happens(Take(1), Taken(&[3]), &[]),
    Finds(1, Some(SECOND_JOB), None, Some(0)),
    Happens(Post(1, SECOND_JOB, 3), Moved, &[]),
    Happens(
        Finish(1, ROOT),
        Moved,
        &[
            (NODE_1, NODE_2, CallOff(0, 1)),
            (NODE_1, REGISTRY, Return(0, 1, Some(&[3, 4, 0]))),
        ],
    ),
    Holds(1, Unit::Own(0), 1, Aborted),
    Happens(
        Deliver(4),
        Moved,
        &[(NODE_1, NODE_2, Refuse(0, 1, Cause::Aborted))],
    ),
    Holds(1, Unit::Own(0), 1, Aborted),
    Happens(Deliver(7), Moved, &[]),
    Holds(2, STOLEN, 1, Dropped),
    Happens(
        Deliver(6),
        Moved,
        &[
            (REGISTRY, NODE_1, Accept(0, 1, Some(&[3, 4, 0]))),
            (REGISTRY, NODE_1, Over),
            (REGISTRY, NODE_2, Over),
        ],
    ),
    Holds(0, Unit::Own(0), 1, Done(Some(&[3, 4, 0]))),
    Publishes(Some(Some(&[0, 3, 4]))),
];

/// The thief restarts before its result comes.
pub static THIEF_ANEW: &[Step] = &[
    Incarnations(1, 1),
    Happens(Restart(2, 2), Moved, &[]),
    Incarnations(1, 2),
    Happens(Greet(2), Moved, &[(NODE_2_ANEW, REGISTRY, Hello)]),
    Happens(
        Deliver(5),
        Moved,
        &[
            (REGISTRY, NODE_1, Members(&[1, 2])),
            (REGISTRY, NODE_2_ANEW, Members(&[1, 2])),
        ],
    ),
    Happens(Deliver(6), Moved, &[]),
    Holds(1, Unit::Own(0), 2, Ready),
    Happens(
        Deliver(4),
        Moved,
        &[(NODE_1, NODE_2, Refuse(0, 1, Cause::Superseded))],
    ),
    Happens(Deliver(3), Fault(Core(OtherSite)), &[]),
    Happens(Deliver(8), Fault(Core(OtherSite)), &[]),
    Publishes(None),
];

/// Events without a step, each of which leaves the world as it was.
static REFUSED: &[Step] = &[
    Happens(Greet(3), Fault(NoSuchNode), &[]),
    Holds(0, Unit::Own(0), 1, Ready),
    Happens(Deliver(0), Fault(NoSuchPacket), &[]),
    Holds(0, Unit::Own(0), 1, Ready),
    Happens(Restart(1, 1), Fault(OldIncarnation), &[]),
    Incarnations(1, 1),
    Happens(Restart(0, 2), Fault(OldIncarnation), &[]),
    Incarnations(1, 1),
    Holds(0, Unit::Own(0), 1, Ready),
    Happens(Restart(3, 2), Fault(NoSuchNode), &[]),
    Incarnations(1, 1),
    Happens(Post(0, FIRST_JOB, 1), Fault(Core(OtherSite)), &[]),
    Happens(Post(1, ROOT_JOB, 1), Fault(Core(StaleJob)), &[]),
    Holds(0, Unit::Own(0), 1, Ready),
];

static REFUSED_EVENTS: &[WorldEvent] = &[Greet(3), Deliver(0), Restart(1, 1), Restart(0, 2)];

static NO_COVER_EVENTS: &[WorldEvent] = &[
    Ask(1, 0),
    Deliver(0),
    Deliver(1),
    Take(1),
    Post(1, ROOT_JOB, 1),
    Deliver(2),
    Deliver(2),
    Deliver(3),
];

#[test]
fn runs_go_packet_by_packet(rt: HostRuntime) {
    let alloc = rt.alloc();
    play(&rt, alloc, ITEM, &[NO_COVER]);
    play(&rt, alloc, TWO_WAYS, &[OVERTAKEN]);
    play(&rt, alloc, LETTERS, &[STOLEN_CHILD, LATE_RESULT]);
    play(&rt, alloc, LETTERS, &[STOLEN_CHILD, THIEF_ANEW]);
    play(&rt, alloc, FOUR_WAYS, &[TWO_TOGETHER]);
    play(&rt, alloc, ITEM, &[REFUSED]);
}

#[test]
fn a_run_counts_its_steps(rt: HostRuntime) {
    let alloc = rt.alloc();
    assert!(rt; count(&rt, alloc, ITEM, REFUSED_EVENTS) == 0);
    assert!(rt; count(&rt, alloc, ITEM, NO_COVER_EVENTS) == 8);
}
