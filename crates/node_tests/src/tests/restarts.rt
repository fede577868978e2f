//! Runs in which node 1 restarts.
//!
//! Of the bugs of `udp_node` that are kept outside the gate, `a_restart_frees_the_root` finds `no_node_is_restarted`,
//! `any_number_of_restarts` finds `books_of_later_incarnations_are_lost`, and
//! `an_incarnation_that_hears_nothing_ends_after_its_turns` finds `waits_before_a_restart_are_no_turns` and
//! `no_incarnation_is_the_last`.

use super::broken::{Defect, links_with};
use super::ends::wires;
use super::runs::{COVERED, Came, Told, run_whole};
use super::timings::SOON;
use packet_wire::{Body, Packet};
use run_probes::recorded;
use spawn_frame::{Job, Site, Unit};
use std::sync::{Arc, Mutex};
use std::test::Fail;
use udp_node::{Follower, Gate, Open, Plan, Timing};

/// A gate that lets no first attempt at a guest pass: who takes the root in that attempt never posts it.
struct HeldRoot;

impl Gate for HeldRoot {
    fn pass(&self, _worker: u8, job: &Job) -> bool {
        !matches!(job.unit, Unit::Guest(_, 1))
    }
}

impl Follower for HeldRoot {}

/// One node with one worker, whose turns are soon over.
const PLAN: Plan = Plan {
    workers: 1,
    nodes: 1,
    fuel: 1,
    seed: 1,
    turns: 20_000,
    timing: SOON,
    entries: 1_000_000,
    book_bytes: 1_000_000_000,
    restarts: 0,
    limit: None,
};

#[test]
fn a_restart_frees_the_root(rt: HostRuntime) -> Result<(), Fail> {
    for (restarts, told, books) in [(0, Told::Nothing, 2), (1, Told::Right, 3)] {
        let links = wires(rt.alloc(), PLAN.nodes)?;
        let plan = Plan { restarts, ..PLAN };
        let Some(ran) = run_whole(&rt, rt.alloc(), &COVERED, plan, links, &HeldRoot) else {
            return Err(Fail::new("memory ran out"));
        };
        assert_eq!(rt; ran.came, Came { told, books }, "{restarts} restarts");
    }
    Ok(())
}

/// How many turns there are and restarts: an incarnation is long or short; and whether an answer has to come.
static TURNS: [(u64, u8, bool); 4] = [
    (1_000_000, 1, true),
    (2_000, 3, false),
    (2_000, 10, false),
    (1_000, 100, false),
];

#[test]
fn any_number_of_restarts(rt: HostRuntime) -> Result<(), Fail> {
    for (turns, restarts, answers) in TURNS {
        let plan = Plan {
            workers: 2,
            nodes: 2,
            turns,
            restarts,
            ..PLAN
        };
        let links = wires(rt.alloc(), plan.nodes)?;
        let Some(ran) = run_whole(&rt, rt.alloc(), &COVERED, plan, links, &Open) else {
            return Err(Fail::new("memory ran out"));
        };
        let Came { told, books } = ran.came;
        let is_right = told == Told::Right || (told == Told::Nothing && !answers);
        assert!(rt; is_right, "{restarts} restarts");
        assert_eq!(rt; books, 3 + usize::from(restarts), "{restarts} restarts");
    }
    Ok(())
}

/// How often node 1 has greeted the registry in this incarnation.
fn greetings(sent: &[Packet], incarnation: u32) -> usize {
    let from = Site {
        node: 1,
        incarnation,
    };
    sent.iter()
        .filter(|packet| packet.from == from && packet.body == Body::Hello)
        .count()
}

/// A node greets at first, and each 300 milliseconds after that: so an incarnation of 250 turns, each of a millisecond,
/// greets once, and the last one, which lasts a thousand times longer, more often, until it has heard nothing for 1,500
/// milliseconds.
#[test]
fn an_incarnation_that_hears_nothing_ends_after_its_turns(rt: HostRuntime) -> Result<(), Fail> {
    let alloc = rt.alloc();
    let plan = Plan {
        turns: 500,
        restarts: 1,
        timing: Timing {
            greeting_ms: 300,
            silence_ms: 1_500,
            ..SOON
        },
        ..PLAN
    };
    let sent = Arc::new(alloc, Mutex::new(Vec::new(alloc)))?;
    let mute = links_with(alloc, plan.nodes, 0, Defect::Mute)?;
    let links = recorded(alloc, mute, &sent)?;
    let Some(ran) = run_whole(&rt, alloc, &COVERED, plan, links, &Open) else {
        return Err(Fail::new("memory ran out"));
    };
    assert_eq!(rt; ran.came.told, Told::Nothing);
    let sent = sent.lock(&rt);
    assert_eq!(rt; greetings(&sent, 1), 1, "the first incarnation");
    assert!(rt; greetings(&sent, 2) > 1, "the last incarnation");
    Ok(())
}
