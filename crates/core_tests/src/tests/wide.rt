//! A frame of 600 children, which take three pages.

use self::Comes::{Moved, Taken};
use self::Does::{Finish, Hears, Post, Take};
use super::lists::Lists;
use super::node::{Does, Row, Stage};
use super::refused::Played;
use super::said::{Comes, Said, has_come};
use dlx_reader::read_problem;
use spawn_frame::{Cause, ChildName, Site, Unit};
use std::alloc::Global;
use std::process::Abort;

/// The node whose core it is, the registry, and a thief.
const HERE: Site = Site {
    node: 1,
    incarnation: 1,
};

const REGISTRY: Site = Site {
    node: 0,
    incarnation: 1,
};

const NODE_2: Site = Site {
    node: 2,
    incarnation: 1,
};

/// The guest that the root is.
const ROOT: Unit = Unit::Guest(
    ChildName {
        site: REGISTRY,
        serial: 0,
    },
    1,
);

/// The root is split into 600 children; the last one is a cover.
static WIDE: [Row; 6] = [
    (Hears(REGISTRY, Said::Give(0, 1, &[])), Moved, &[]),
    (Take, Taken(&[]), &[]),
    (Post(1), Moved, &[]),
    (Take, Taken(&[599]), &[]),
    (Post(1), Moved, &[]),
    (
        Finish(ROOT),
        Moved,
        &[(REGISTRY, Said::Return(0, 1, Some(&[599])))],
    ),
];

/// One item, and so many options that name it alone.
fn one_item<R: Abort>(rt: &R, alloc: Global, options: u16) -> String {
    let mut text = String::new(alloc);
    text.push_str("a\n").expect(rt, "memory");
    for _option in 0..options {
        text.push_str("a\n").expect(rt, "memory");
    }
    text
}

/// Lets an event happen: whether it comes to this and puts out these packets.
fn plays<R: Abort>(
    rt: &R,
    alloc: Global,
    stage: &mut Stage<'_>,
    (does, comes): (Does, Comes),
    sent: &[(Site, Said)],
) -> bool {
    let mut lists = Lists::new(rt, alloc, false);
    let answer = stage.does(rt, &does, &mut lists);
    has_come(&answer, comes) && lists.have(rt, alloc, HERE, sent)
}

/// Whether the node has aborted its child of this serial: it refuses the child's result.
fn is_aborted<R: Abort>(rt: &R, alloc: Global, stage: &mut Stage<'_>, serial: u32) -> bool {
    let comes = Hears(NODE_2, Said::Return(serial, 1, None));
    let refuse = Said::Refuse(serial, 1, Cause::Aborted);
    plays(rt, alloc, stage, (comes, Moved), &[(NODE_2, refuse)])
}

/// The node has aborted so many of its children, the first ones.
fn are_aborted<R: Abort>(rt: &R, alloc: Global, stage: &mut Stage<'_>, children: u32) {
    for serial in 0..children {
        let aborted = is_aborted(rt, alloc, stage, serial);
        assert!(rt; aborted, "child {serial}");
    }
}

/// Plays the script; the first row that isn't as it says ends it.
fn play<R: Abort>(rt: &R, alloc: Global, stage: &mut Stage<'_>, rows: &[Row]) {
    for (number, (does, comes, sent)) in rows.iter().enumerate() {
        let right = plays(rt, alloc, stage, (*does, *comes), sent);
        assert!(rt; right, "row {number}");
    }
}

/// At this node all children but the last one are aborted.
fn are_others_aborted<R: Abort>(rt: &R, alloc: Global, stage: &mut Stage<'_>) {
    play(rt, alloc, stage, &WIDE);
    are_aborted(rt, alloc, stage, 599);
    assert!(rt; !is_aborted(rt, alloc, stage, 599));
}

#[test]
fn a_frame_of_three_pages(rt: HostRuntime) {
    let alloc = rt.alloc();
    let text = one_item(&rt, alloc, 600);
    let read = read_problem(alloc, text.as_bytes()).expect(&rt, "a problem");
    are_others_aborted(&rt, alloc, &mut Stage::new(&rt, alloc, &read.problem, 600));
}
