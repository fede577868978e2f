//! Scripts of events of one node; the answers and packets are worked out by hand from the rules of the protocol.

ghost use Rattle.std.specs.Prelude.{◌≡◌};

use super::alike::is_alike;
use super::lists::{Lists, act_into};
use super::refused::Played;
use super::said::{Comes, FOUR_WAYS, LETTERS, Said, are_sent, has_come, packet_of};
use brancher::Searcher;
use cover_problem::{Problem, is_prefix};
use dlx_reader::read_problem;
use node_core::{ActFault, Core, Event, NodeCore, Reply};
use packet_wire::{Packet, is_well_formed};
use spawn_frame::{Cause, ChildName, Job, Site, Unit};
use std::alloc::Global;
use std::process::Abort;

/// The node whose core it is, the registry, and other sites.
const HERE: Site = Site {
    node: 1,
    incarnation: 1,
};

const REGISTRY: Site = Site {
    node: 0,
    incarnation: 1,
};

const NODE_2: Site = Site {
    node: 2,
    incarnation: 1,
};

const NODE_2_ANEW: Site = Site {
    node: 2,
    incarnation: 2,
};

const NODE_5: Site = Site {
    node: 5,
    incarnation: 1,
};

/// The guest that the root is.
const ROOT: Unit = Unit::Guest(
    ChildName {
        site: REGISTRY,
        serial: 0,
    },
    1,
);

/// What happens at the node.
#[derive(Clone, Copy)]
pub enum Does {
    Take,
    /// The unit that was taken last is searched with so much fuel.
    Post(u64),
    /// This prefix is searched with so much fuel, and posted for the job.
    PostFor(Job, &'static [u16], u64),
    Finish(Unit),
    Ask(u8),
    Redo(u32),
    /// A packet from this site arrives.
    Hears(Site, Said),
    /// A packet for another site does.
    Overhears(Site, Said),
    Again,
    Greet,
}

/// An event, what it comes to, and the packets that it puts out, with their receivers.
pub type Row = (Does, Comes, &'static [(Site, Said)]);

/// A node with all that a script needs.
#[derive(Drop)]
pub struct Stage<'a> {
    core: NodeCore<'a>,
    searcher: Searcher<'a>,
    problem: &'a Problem,
    taken: Option<Job>,
    prefix: Vec<u16>,
    alloc: Global,
    ghost one: { core.problem ≡ problem.now },
    ghost same: { searcher.problem ≡ problem.now },
}

impl<'a> Stage<'a> {
    /// The node before its first event, with so many names.
    pub fn new<R: Abort>(
        rt: &R,
        alloc: Global,
        problem: &'a Problem,
        names_limit: u32,
    ) -> Stage<'a> {
        let core = NodeCore::start(alloc, problem, HERE, 2, names_limit).expect(rt, "memory");
        Stage {
            core,
            searcher: Searcher::new(alloc, problem).expect(rt, "memory"),
            problem,
            taken: None,
            prefix: Vec::new(alloc),
            alloc,
        }
    }

    /// Lets the event happen, which is no Post.
    fn act<R: Abort>(
        &mut self,
        rt: &R,
        event: Event,
        lists: &mut Lists,
    ) -> Result<Reply, ActFault> {
        match event {
            Event::Deliver(packet) => {
                assert!(rt; is_well_formed(&packet));
                act_into(rt, &mut self.core, Event::Deliver(packet), lists)
            }
            Event::Post(..) => Err(ActFault::StaleJob),
            other => act_into(rt, &mut self.core, other, lists),
        }
    }

    /// Searches what was taken last, and posts it.
    fn post<R: Abort>(&mut self, rt: &R, fuel: u64, lists: &mut Lists) -> Result<Reply, ActFault> {
        let Some(job) = self.taken else {
            return Err(ActFault::Memory);
        };
        let prefix = self.prefix.clone().expect(rt, "memory");
        self.post_for(rt, job, prefix, fuel, lists)
    }

    /// Searches the prefix, and posts what comes of it for the job.
    fn post_for<R: Abort>(
        &mut self,
        rt: &R,
        job: Job,
        prefix: Vec<u16>,
        fuel: u64,
        lists: &mut Lists,
    ) -> Result<Reply, ActFault> {
        assert!(rt; is_prefix(self.problem, &prefix));
        assert!(rt; fuel > 0);
        match self.searcher.find(prefix, fuel) {
            Ok(finding) => act_into(rt, &mut self.core, Event::Post(job, finding), lists),
            Err(_) => Err(ActFault::Memory),
        }
    }

    /// The event that the row names, if it is no Post.
    fn event<R: Abort>(&self, rt: &R, does: Does) -> Event {
        let packet = |from: Site, to: Site, said: Said| {
            packet_of(self.alloc, from, to, said).expect(rt, "memory")
        };
        match does {
            Does::Take | Does::Post(_) | Does::PostFor(..) => Event::Take,
            Does::Finish(unit) => Event::Finish(unit),
            Does::Ask(victim) => Event::Ask(victim),
            Does::Redo(serial) => Event::Redo(serial),
            Does::Hears(from, said) => Event::Deliver(packet(from, HERE, said)),
            Does::Overhears(from, said) => Event::Deliver(packet(from, NODE_5, said)),
            Does::Again => Event::Again,
            Does::Greet => Event::Greet,
        }
    }

    /// Lets the event happen that the row names.
    fn happens<R: Abort>(
        &mut self,
        rt: &R,
        does: Does,
        lists: &mut Lists,
    ) -> Result<Reply, ActFault> {
        match does {
            Does::Post(fuel) => self.post(rt, fuel, lists),
            Does::PostFor(job, prefix, fuel) => {
                let prefix = Vec::from_slice(self.alloc, prefix).expect(rt, "memory");
                self.post_for(rt, job, prefix, fuel, lists)
            }
            other => {
                let event = self.event(rt, other);
                self.act(rt, event, lists)
            }
        }
    }

    /// Lets one row of a script happen; whether all is as it says.
    fn plays<R: Abort>(&mut self, rt: &R, (does, comes, sent): Row) -> bool {
        let mut lists = Lists::new(rt, self.alloc, false);
        let answer = self.does(rt, &does, &mut lists);
        has_come(&answer, comes) && lists.have(rt, self.alloc, HERE, sent)
    }

    /// Plays the script; the first row that isn't as it says ends it.
    fn play<R: Abort>(&mut self, rt: &R, rows: &[Row]) {
        for (number, row) in rows.iter().enumerate() {
            let right = self.plays(rt, *row);
            assert!(rt; right, "row {number}");
        }
    }
}

impl<'a> Played for Stage<'a> {
    type Does = Does;

    fn site(&self) -> Site {
        HERE
    }

    /// A unit that is taken up is kept for the next Post.
    fn does<R: Abort>(
        &mut self,
        rt: &R,
        does: &Does,
        lists: &mut Lists,
    ) -> Result<Reply, ActFault> {
        let answer = self.happens(rt, *does, lists);
        if let Ok(Reply::Taken(job, prefix)) = &answer {
            self.taken = Some(*job);
            self.prefix = Vec::from_slice(self.alloc, prefix.as_slice()).expect(rt, "memory");
        }
        answer
    }

    fn is_alike<R: Abort>(&self, rt: &R, other: &Self) -> bool {
        is_alike(rt, self.alloc, self.core.state(), other.core.state())
    }
}

/// Plays the script at a node with so many names, which searches this problem; the first row that isn't as it says ends
/// it.
fn play<R: Abort>(rt: &R, alloc: Global, text: &str, names_limit: u32, rows: &[Row]) {
    let read = read_problem(alloc, text.as_bytes()).expect(rt, "a problem");
    Stage::new(rt, alloc, &read.problem, names_limit).play(rt, rows);
}

use self::Comes::{Fault, Idle, Ignored, Moved, Ripe, Taken};
use self::Does::{Again, Ask, Finish, Greet, Hears, Overhears, Post, PostFor, Redo, Take};
use node_core::ActFault::{
    BadPrefix, NamesSpent, NotOpen, NotOut, NotSettled, OtherSite, StaleJob,
};

/// The root is given to the node.
const ROOT_GIVEN: Row = (Hears(REGISTRY, Said::Give(0, 1, &[])), Moved, &[]);

/// The search of the root that was given at the first attempt, and one at an attempt that nobody gave.
const ROOT_JOB: Job = Job {
    unit: ROOT,
    attempt: 1,
};

const LATER_ROOT_JOB: Job = Job {
    unit: ROOT,
    attempt: 2,
};

/// One name: a search that is spent can't be split, and one that isn't ends.
pub static ONE_NAME: [Row; 20] = [
    (Take, Idle, &[]),
    ROOT_GIVEN,
    (Take, Taken(&[]), &[]),
    (Post(1), Fault(NamesSpent), &[]),
    (
        Post(6),
        Moved,
        &[(REGISTRY, Said::Return(0, 1, Some(&[3, 4, 0])))],
    ),
    (Post(6), Fault(StaleJob), &[]),
    (Post(1), Fault(StaleJob), &[]),
    (Finish(ROOT), Fault(NotOpen), &[]),
    (Ask(1), Fault(OtherSite), &[]),
    (Ask(3), Fault(OtherSite), &[]),
    (Ask(2), Moved, &[(NODE_2, Said::Steal)]),
    (Redo(0), Fault(NotOut), &[]),
    (
        Hears(NODE_2, Said::Give(7, 1, &[0, 2])),
        Fault(BadPrefix),
        &[],
    ),
    (
        Hears(NODE_2, Said::Give(7, 1, &[3, 3])),
        Fault(BadPrefix),
        &[],
    ),
    (Hears(NODE_2, Said::Give(7, 1, &[6])), Fault(BadPrefix), &[]),
    (Hears(NODE_5, Said::Steal), Fault(OtherSite), &[]),
    (Greet, Moved, &[(REGISTRY, Said::Hello)]),
    (Hears(REGISTRY, Said::Over), Moved, &[]),
    (Take, Fault(ActFault::Over), &[]),
    (Hears(REGISTRY, Said::Over), Fault(ActFault::Over), &[]),
];

/// Two names: the root is split, one child is stolen, the other found; the thief is told and its result refused.
pub static STOLEN: [Row; 18] = [
    ROOT_GIVEN,
    (Take, Taken(&[]), &[]),
    (Post(1), Moved, &[]),
    (Finish(ROOT), Fault(NotSettled), &[]),
    (
        Hears(NODE_2, Said::Steal),
        Moved,
        &[(NODE_2, Said::Give(0, 1, &[1]))],
    ),
    (Again, Moved, &[(NODE_2, Said::Give(0, 1, &[1]))]),
    (Redo(7), Fault(NotOut), &[]),
    (Take, Taken(&[3]), &[]),
    (Hears(NODE_2, Said::Steal), Moved, &[(NODE_2, Said::NoWork)]),
    (Post(3), Moved, &[]),
    (Take, Ripe(ROOT), &[]),
    (
        Finish(ROOT),
        Moved,
        &[
            (NODE_2, Said::Abort(0, 1)),
            (REGISTRY, Said::Return(0, 1, Some(&[3, 4, 0]))),
        ],
    ),
    (
        Hears(NODE_2, Said::Return(0, 1, None)),
        Moved,
        &[(NODE_2, Said::Refuse(0, 1, Cause::Aborted))],
    ),
    (
        Hears(NODE_2, Said::Return(2, 1, None)),
        Moved,
        &[(NODE_2, Said::Refuse(2, 1, Cause::Unknown))],
    ),
    (
        Again,
        Moved,
        &[(REGISTRY, Said::Return(0, 1, Some(&[3, 4, 0])))],
    ),
    (
        Hears(REGISTRY, Said::Accept(0, 1, Some(&[0, 3, 4]))),
        Moved,
        &[],
    ),
    (
        Hears(REGISTRY, Said::Accept(0, 1, Some(&[0, 3, 4]))),
        Ignored,
        &[],
    ),
    (Again, Ignored, &[]),
];

/// A thief restarts: its child is redone, and the result of its earlier incarnation is refused. Where the child is
/// done, the answer is the result that it has.
pub static RUNS_ANEW: [Row; 15] = [
    ROOT_GIVEN,
    (Take, Taken(&[]), &[]),
    (Post(1), Moved, &[]),
    (
        Hears(NODE_2, Said::Steal),
        Moved,
        &[(NODE_2, Said::Give(0, 1, &[1]))],
    ),
    (Hears(REGISTRY, Said::Members(&[1, 1])), Ignored, &[]),
    (Hears(REGISTRY, Said::Members(&[1, 2])), Moved, &[]),
    (Hears(NODE_2, Said::Steal), Moved, &[(NODE_2, Said::NoWork)]),
    (Hears(NODE_2, Said::Give(3, 1, &[0])), Ignored, &[]),
    (Hears(NODE_2, Said::Give(3, 1, &[0, 2])), Ignored, &[]),
    (
        Hears(NODE_2, Said::Return(0, 1, None)),
        Moved,
        &[(NODE_2, Said::Refuse(0, 1, Cause::Superseded))],
    ),
    (
        Hears(NODE_2_ANEW, Said::Steal),
        Moved,
        &[(NODE_2_ANEW, Said::Give(0, 2, &[1]))],
    ),
    (
        Hears(NODE_2_ANEW, Said::Return(0, 2, None)),
        Moved,
        &[(NODE_2_ANEW, Said::Accept(0, 2, None))],
    ),
    (
        Hears(NODE_2_ANEW, Said::Return(0, 2, Some(&[1]))),
        Moved,
        &[(NODE_2_ANEW, Said::Accept(0, 2, None))],
    ),
    (Hears(REGISTRY, Said::NoWork), Ignored, &[]),
    (Overhears(NODE_2, Said::Steal), Fault(OtherSite), &[]),
];

/// Children that come together: none where one has no prefix, else those that aren't there yet.
pub static TOGETHER: [Row; 18] = [
    (
        Hears(NODE_2, Said::GiveMany(&[0], &[(3, 1, 2), (4, 1, 1)])),
        Fault(BadPrefix),
        &[],
    ),
    (
        Hears(NODE_2, Said::GiveMany(&[0], &[(3, 1, 1), (4, 1, 2)])),
        Fault(BadPrefix),
        &[],
    ),
    (
        Hears(NODE_2, Said::GiveMany(&[0], &[(3, 1, 1), (4, 1, 6)])),
        Fault(BadPrefix),
        &[],
    ),
    (
        Hears(NODE_2, Said::GiveMany(&[0, 2], &[(3, 1, 4), (4, 1, 5)])),
        Fault(BadPrefix),
        &[],
    ),
    (Take, Idle, &[]),
    (
        Hears(NODE_2, Said::GiveMany(&[0], &[(3, 1, 1), (4, 1, 3)])),
        Moved,
        &[],
    ),
    (
        Hears(NODE_2, Said::GiveMany(&[0], &[(3, 1, 1), (4, 1, 3)])),
        Ignored,
        &[],
    ),
    // Where all are there already, nothing of them is looked at.
    (
        Hears(NODE_2, Said::GiveMany(&[0, 2], &[(3, 1, 1), (4, 1, 6)])),
        Ignored,
        &[],
    ),
    (
        Hears(NODE_2, Said::GiveMany(&[], &[(4, 1, 6), (5, 1, 1)])),
        Moved,
        &[],
    ),
    (
        Hears(NODE_2, Said::GiveMany(&[], &[(5, 1, 1), (6, 1, 6)])),
        Fault(BadPrefix),
        &[],
    ),
    // Each is taken up by itself, with its own prefix.
    (Take, Taken(&[0, 1]), &[]),
    (Take, Taken(&[0, 3]), &[]),
    (Take, Taken(&[1]), &[]),
    (Take, Idle, &[]),
    // Those of an earlier incarnation are ignored, whatever their prefixes.
    (Hears(REGISTRY, Said::Members(&[1, 2])), Moved, &[]),
    (
        Hears(NODE_2, Said::GiveMany(&[0, 2], &[(7, 1, 4), (8, 1, 6)])),
        Ignored,
        &[],
    ),
    (
        Hears(NODE_2_ANEW, Said::GiveMany(&[0], &[(3, 1, 1), (4, 1, 3)])),
        Moved,
        &[],
    ),
    (Take, Taken(&[0, 1]), &[]),
];

/// A thief gets several children with one packet. Each is said again, redone, returned and aborted by itself.
pub static SHARED: [Row; 15] = [
    ROOT_GIVEN,
    (Take, Taken(&[]), &[]),
    (Post(1), Moved, &[]),
    (
        Hears(NODE_2, Said::Steal),
        Moved,
        &[(NODE_2, Said::GiveMany(&[], &[(0, 1, 0), (1, 1, 1)]))],
    ),
    (
        Again,
        Moved,
        &[
            (NODE_2, Said::Give(0, 1, &[0])),
            (NODE_2, Said::Give(1, 1, &[1])),
        ],
    ),
    // Of two that are ready one is given.
    (
        Hears(NODE_2, Said::Steal),
        Moved,
        &[(NODE_2, Said::Give(2, 1, &[2]))],
    ),
    // Those that go together need not follow one another, nor stand at one attempt.
    (Redo(1), Moved, &[]),
    (Redo(0), Moved, &[]),
    (
        Hears(NODE_2, Said::Steal),
        Moved,
        &[(NODE_2, Said::GiveMany(&[], &[(0, 2, 0), (1, 2, 1)]))],
    ),
    (
        Hears(NODE_2, Said::Return(1, 1, None)),
        Moved,
        &[(NODE_2, Said::Refuse(1, 1, Cause::Superseded))],
    ),
    (
        Hears(NODE_2, Said::Return(1, 2, None)),
        Moved,
        &[(NODE_2, Said::Accept(1, 2, None))],
    ),
    (
        Hears(NODE_2, Said::Return(2, 1, Some(&[2]))),
        Moved,
        &[(NODE_2, Said::Accept(2, 1, Some(&[2])))],
    ),
    (Take, Ripe(ROOT), &[]),
    (
        Finish(ROOT),
        Moved,
        &[
            (NODE_2, Said::Abort(0, 2)),
            (REGISTRY, Said::Return(0, 1, Some(&[2]))),
        ],
    ),
    (Hears(NODE_2, Said::Steal), Moved, &[(NODE_2, Said::NoWork)]),
];

/// A guest's owner no longer wants it: all below is aborted, and the thief of what is out below is told.
pub static DROPPED: [Row; 9] = [
    ROOT_GIVEN,
    (Hears(REGISTRY, Said::Give(0, 1, &[])), Ignored, &[]),
    (Take, Taken(&[]), &[]),
    (Post(1), Moved, &[]),
    (
        Hears(NODE_2, Said::Steal),
        Moved,
        &[(NODE_2, Said::Give(0, 1, &[1]))],
    ),
    (
        Hears(REGISTRY, Said::Abort(0, 1)),
        Moved,
        &[(NODE_2, Said::Abort(0, 1))],
    ),
    (
        Hears(REGISTRY, Said::Refuse(0, 1, Cause::Superseded)),
        Ignored,
        &[],
    ),
    (Take, Idle, &[]),
    (Finish(ROOT), Fault(NotOpen), &[]),
];

/// A result is taken only for a unit that is being searched, at its attempt and for its prefix.
pub static STALE: [Row; 7] = [
    (PostFor(ROOT_JOB, &[], 6), Fault(StaleJob), &[]),
    ROOT_GIVEN,
    (PostFor(ROOT_JOB, &[], 6), Fault(StaleJob), &[]),
    (Take, Taken(&[]), &[]),
    (PostFor(ROOT_JOB, &[0], 6), Fault(StaleJob), &[]),
    (PostFor(LATER_ROOT_JOB, &[], 6), Fault(StaleJob), &[]),
    (
        PostFor(ROOT_JOB, &[], 6),
        Moved,
        &[(REGISTRY, Said::Return(0, 1, Some(&[3, 4, 0])))],
    ),
];

/// Of two faults that an event meets the first is reported, and what is ignored isn't looked at.
pub static FIRST_FAULTS: [Row; 13] = [
    ROOT_GIVEN,
    (Hears(REGISTRY, Said::Give(0, 1, &[0, 2])), Ignored, &[]),
    (Take, Taken(&[]), &[]),
    (Hears(REGISTRY, Said::Over), Moved, &[]),
    (Overhears(NODE_2, Said::Steal), Fault(OtherSite), &[]),
    (Hears(NODE_5, Said::Steal), Fault(OtherSite), &[]),
    (Post(1), Fault(ActFault::Over), &[]),
    (PostFor(LATER_ROOT_JOB, &[], 1), Fault(ActFault::Over), &[]),
    (Finish(ROOT), Fault(ActFault::Over), &[]),
    (Ask(1), Fault(ActFault::Over), &[]),
    (Redo(0), Fault(ActFault::Over), &[]),
    (Again, Fault(ActFault::Over), &[]),
    (Greet, Fault(ActFault::Over), &[]),
];

#[test]
fn a_node_of_one_name(rt: HostRuntime) {
    play(&rt, rt.alloc(), LETTERS, 1, &ONE_NAME);
}

#[test]
fn a_child_is_stolen_and_aborted(rt: HostRuntime) {
    play(&rt, rt.alloc(), LETTERS, 2, &STOLEN);
}

#[test]
fn children_that_come_together(rt: HostRuntime) {
    play(&rt, rt.alloc(), LETTERS, 2, &TOGETHER);
}

#[test]
fn children_that_go_together(rt: HostRuntime) {
    play(&rt, rt.alloc(), FOUR_WAYS, 4, &SHARED);
}

#[test]
fn a_thief_runs_anew(rt: HostRuntime) {
    play(&rt, rt.alloc(), LETTERS, 2, &RUNS_ANEW);
}

#[test]
fn a_guest_is_dropped(rt: HostRuntime) {
    play(&rt, rt.alloc(), LETTERS, 2, &DROPPED);
}

#[test]
fn a_stale_job_is_refused(rt: HostRuntime) {
    play(&rt, rt.alloc(), LETTERS, 1, &STALE);
}

#[test]
fn the_first_fault_is_told(rt: HostRuntime) {
    play(&rt, rt.alloc(), LETTERS, 1, &FIRST_FAULTS);
}

/// Whether a Greet puts equal packets into both lists, behind what stands there.
fn greets_both<R: Abort>(rt: &R, alloc: Global, core: &mut NodeCore<'_>) -> bool {
    let mut out = Vec::new(alloc);
    let mut copies = Vec::new(alloc);
    let first = core.act(Event::Greet, &mut out);
    let both = core.act_both(Event::Greet, &mut out, &mut copies);
    first == Ok(Reply::Moved)
        && both == Ok(Reply::Moved)
        && are_sent(
            rt,
            alloc,
            HERE,
            &out,
            &[(REGISTRY, Said::Hello), (REGISTRY, Said::Hello)],
        )
        && are_sent(rt, alloc, HERE, &copies, &[(REGISTRY, Said::Hello)])
}

#[test]
fn two_lists_get_the_same(rt: HostRuntime) {
    let alloc = rt.alloc();
    let read = read_problem(alloc, LETTERS.as_bytes()).expect(&rt, "a problem");
    let mut core = NodeCore::start(alloc, &read.problem, HERE, 2, 1).expect(&rt, "memory");
    assert!(rt; greets_both(&rt, alloc, &mut core));
}
