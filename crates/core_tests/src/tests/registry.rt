//! Scripts of events of the registry; the answers and packets are worked out by hand from the rules of the protocol.

ghost use Rattle.std.specs.Prelude.{◌≡◌};

use self::Does::{Again, Ask, Finish, Greet, Hears, Overhears, Post, Redo, Take};
use super::alike::is_alike;
use super::lists::{Lists, act_into};
use super::refused::Played;
use super::said::Comes::{Fault, Ignored, Moved};
use super::said::{Comes, LETTERS, Said, has_come, packet_of};
use brancher::Searcher;
use cover_problem::{Answer, Problem};
use dlx_reader::read_problem;
use node_core::ActFault::{BadCover, NotOut, OtherSite};
use node_core::{ActFault, Event, Reply};
use packet_wire::is_well_formed;
use root_registry::Registry;
use spawn_frame::{Cause, Job, Site, Unit};
use std::alloc::Global;
use std::process::Abort;

/// The registry, and nodes in incarnations of theirs.
const REGISTRY: Site = Site {
    node: 0,
    incarnation: 1,
};

const NODE_1: Site = Site {
    node: 1,
    incarnation: 1,
};

const NODE_2: Site = Site {
    node: 2,
    incarnation: 1,
};

const NODE_1_ANEW: Site = Site {
    node: 1,
    incarnation: 2,
};

const NODE_5: Site = Site {
    node: 5,
    incarnation: 1,
};

/// A site that is not the registry.
const ANOTHER: Site = Site {
    node: 3,
    incarnation: 1,
};

/// A search of the root, which the registry gives to others.
const ROOT_JOB: Job = Job {
    unit: Unit::Own(0),
    attempt: 1,
};

/// What happens at the registry.
#[derive(Clone, Copy)]
pub enum Does {
    Take,
    /// The root's prefix is searched, and posted.
    Post,
    Finish,
    Ask,
    Redo(u32),
    /// A packet from this site arrives.
    Hears(Site, Said),
    /// A packet for another site does.
    Overhears(Site, Said),
    Again,
    Greet,
}

/// An event, what it comes to, and the packets that it puts out, with their receivers.
pub type Row = (Does, Comes, &'static [(Site, Said)]);

/// From which row on an answer is published, and the options of its cover, if it is one.
type Publishes = (usize, Option<&'static [u16]>);

/// The registry with all that a script needs.
#[derive(Drop)]
pub struct Stage<'a> {
    core: Registry<'a>,
    searcher: Searcher<'a>,
    alloc: Global,
    ghost same: { searcher.problem ≡ core.problem },
}

impl<'a> Stage<'a> {
    /// The registry of two nodes before its first event.
    pub fn new<R: Abort>(rt: &R, alloc: Global, problem: &'a Problem) -> Stage<'a> {
        Stage {
            core: Registry::start(alloc, problem, 2).expect(rt, "memory"),
            searcher: Searcher::new(alloc, problem).expect(rt, "memory"),
            alloc,
        }
    }

    /// A packet to this site arrives at the registry.
    fn hear<R: Abort>(
        &mut self,
        rt: &R,
        from: Site,
        to: Site,
        said: Said,
        lists: &mut Lists,
    ) -> Result<Reply, ActFault> {
        let packet = packet_of(self.alloc, from, to, said).expect(rt, "memory");
        assert!(rt; is_well_formed(&packet));
        act_into(rt, &mut self.core, Event::Deliver(packet), lists)
    }

    /// The root's prefix is searched, and posted.
    fn post<R: Abort>(&mut self, rt: &R, lists: &mut Lists) -> Result<Reply, ActFault> {
        let found = self.searcher.find(Vec::new(self.alloc), 6);
        let finding = found.expect(rt, "memory");
        act_into(rt, &mut self.core, Event::Post(ROOT_JOB, finding), lists)
    }

    /// Lets one row of a script happen; whether all is as it says.
    fn plays<R: Abort>(&mut self, rt: &R, (does, comes, sent): Row) -> bool {
        let mut lists = Lists::new(rt, self.alloc, false);
        let answer = self.does(rt, &does, &mut lists);
        has_come(&answer, comes) && lists.have(rt, self.alloc, REGISTRY, sent)
    }

    /// Plays the script; the first row that isn't as it says ends it.
    fn play<R: Abort>(&mut self, rt: &R, rows: &[Row], publishes: Publishes) {
        for (number, row) in rows.iter().enumerate() {
            let right = self.plays(rt, *row);
            assert!(rt; right, "row {number}");
            let published = is_published(&self.core, number, publishes);
            assert!(rt; published, "row {number}");
        }
    }
}

impl<'a> Played for Stage<'a> {
    type Does = Does;

    fn site(&self) -> Site {
        REGISTRY
    }

    fn does<R: Abort>(
        &mut self,
        rt: &R,
        does: &Does,
        lists: &mut Lists,
    ) -> Result<Reply, ActFault> {
        let core = &mut self.core;
        match *does {
            Take => act_into(rt, core, Event::Take, lists),
            Post => self.post(rt, lists),
            Finish => act_into(rt, core, Event::Finish(ROOT_JOB.unit), lists),
            Ask => act_into(rt, core, Event::Ask(1), lists),
            Redo(serial) => act_into(rt, core, Event::Redo(serial), lists),
            Hears(from, said) => self.hear(rt, from, REGISTRY, said, lists),
            Overhears(from, said) => self.hear(rt, from, ANOTHER, said, lists),
            Again => act_into(rt, core, Event::Again, lists),
            Greet => act_into(rt, core, Event::Greet, lists),
        }
    }

    fn is_alike<R: Abort>(&self, rt: &R, other: &Self) -> bool {
        self.core.published() == other.core.published()
            && is_alike(rt, self.alloc, self.core.state(), other.core.state())
    }
}

/// Whether so much is published after this row.
fn is_published(core: &Registry<'_>, number: usize, (row, cover): Publishes) -> bool {
    match (core.published(), cover) {
        (Some(Answer::Cover(options)), Some(expected)) => {
            row <= number && options.as_slice() == expected
        }
        (Some(Answer::NoCover), None) => row <= number,
        (Some(_), _) => false,
        (None, _) => number < row,
    }
}

/// Plays the script at a registry of two nodes.
fn play<R: Abort>(rt: &R, alloc: Global, rows: &[Row], publishes: Publishes) {
    let read = read_problem(alloc, LETTERS.as_bytes()).expect(rt, "a problem");
    Stage::new(rt, alloc, &read.problem).play(rt, rows, publishes);
}

/// A cover that doesn't count right enters nothing; one that does is accepted, all nodes are told that it is over, and
/// it is published, its options in the order of the file, whatever comes later.
pub static COVERED: [Row; 17] = [
    (Again, Ignored, &[]),
    (
        Hears(NODE_1, Said::Steal),
        Moved,
        &[(NODE_1, Said::Give(0, 1, &[]))],
    ),
    (Hears(NODE_2, Said::Steal), Moved, &[(NODE_2, Said::NoWork)]),
    (
        Hears(NODE_1, Said::Return(0, 1, Some(&[0]))),
        Fault(BadCover),
        &[],
    ),
    (
        Overhears(NODE_1, Said::Return(0, 1, Some(&[0]))),
        Fault(OtherSite),
        &[],
    ),
    (
        Hears(NODE_2, Said::Return(0, 1, Some(&[0]))),
        Moved,
        &[(NODE_2, Said::Refuse(0, 1, Cause::Superseded))],
    ),
    (
        Hears(NODE_1, Said::Return(0, 2, Some(&[0]))),
        Moved,
        &[(NODE_1, Said::Refuse(0, 2, Cause::Unknown))],
    ),
    (Again, Moved, &[(NODE_1, Said::Give(0, 1, &[]))]),
    (
        Hears(NODE_2, Said::Return(0, 1, Some(&[3, 4, 0]))),
        Moved,
        &[(NODE_2, Said::Refuse(0, 1, Cause::Superseded))],
    ),
    (
        Hears(NODE_1, Said::Return(0, 2, None)),
        Moved,
        &[(NODE_1, Said::Refuse(0, 2, Cause::Unknown))],
    ),
    (
        Hears(NODE_1, Said::Return(0, 1, Some(&[3, 4, 0]))),
        Moved,
        &[
            (NODE_1, Said::Accept(0, 1, Some(&[3, 4, 0]))),
            (NODE_1, Said::Over),
            (NODE_2, Said::Over),
        ],
    ),
    (
        Hears(NODE_1, Said::Return(0, 1, None)),
        Moved,
        &[(NODE_1, Said::Accept(0, 1, Some(&[3, 4, 0])))],
    ),
    (Hears(NODE_2, Said::Steal), Moved, &[(NODE_2, Said::Over)]),
    (Redo(0), Fault(NotOut), &[]),
    (
        Hears(NODE_1_ANEW, Said::Hello),
        Moved,
        &[
            (NODE_1_ANEW, Said::Members(&[2, 1])),
            (NODE_2, Said::Members(&[2, 1])),
        ],
    ),
    (
        Again,
        Moved,
        &[(NODE_1_ANEW, Said::Over), (NODE_2, Said::Over)],
    ),
    (
        Hears(NODE_1, Said::Return(0, 1, None)),
        Moved,
        &[(NODE_1, Said::Accept(0, 1, Some(&[3, 4, 0])))],
    ),
];

/// The root is redone, by a call and since its thief restarts; it comes to nothing.
pub static GIVEN_ANEW: [Row; 17] = [
    (Take, Fault(OtherSite), &[]),
    (Post, Fault(OtherSite), &[]),
    (Finish, Fault(OtherSite), &[]),
    (Ask, Fault(OtherSite), &[]),
    (Greet, Fault(OtherSite), &[]),
    (Redo(1), Fault(NotOut), &[]),
    (
        Hears(NODE_1, Said::Steal),
        Moved,
        &[(NODE_1, Said::Give(0, 1, &[]))],
    ),
    (Redo(0), Moved, &[]),
    (Redo(0), Fault(NotOut), &[]),
    (
        Hears(NODE_1, Said::Return(0, 1, None)),
        Moved,
        &[(NODE_1, Said::Refuse(0, 1, Cause::Superseded))],
    ),
    (
        Hears(NODE_1, Said::Steal),
        Moved,
        &[(NODE_1, Said::Give(0, 2, &[]))],
    ),
    (
        Hears(NODE_1_ANEW, Said::Hello),
        Moved,
        &[
            (NODE_1_ANEW, Said::Members(&[2, 1])),
            (NODE_2, Said::Members(&[2, 1])),
        ],
    ),
    (Hears(NODE_1, Said::Steal), Moved, &[(NODE_1, Said::NoWork)]),
    (
        Hears(NODE_2, Said::Steal),
        Moved,
        &[(NODE_2, Said::Give(0, 3, &[]))],
    ),
    (Hears(NODE_5, Said::Steal), Fault(OtherSite), &[]),
    (Overhears(NODE_1, Said::Steal), Fault(OtherSite), &[]),
    (
        Hears(NODE_2, Said::Return(0, 3, None)),
        Moved,
        &[
            (NODE_2, Said::Accept(0, 3, None)),
            (NODE_1_ANEW, Said::Over),
            (NODE_2, Said::Over),
        ],
    ),
];

#[test]
fn a_cover_is_counted_before_it_enters(rt: HostRuntime) {
    play(&rt, rt.alloc(), &COVERED, (10, Some(&[0, 3, 4])));
}

#[test]
fn the_root_is_given_out_anew(rt: HostRuntime) {
    play(&rt, rt.alloc(), &GIVEN_ANEW, (16, None));
}
