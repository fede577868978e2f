//! A node by itself: whose book is soon full, which may name too few children, which nobody answers, which waits for
//! long, or whose outbox is full.
//!
//! Of the bugs of `udp_node` that are kept outside the gate, `a_node_of_few_names` finds
//! `searches_again_with_twice_the_fuel`, `a_lone_node_says_again` finds `nodes_never_say_again`,
//! `a_node_of_a_small_book` finds `a_full_book_is_the_end_of_its_turns`, `an_idle_worker_stays` finds
//! `idle_workers_leave_soon`, `each_packet_is_delivered` finds `aborts_and_refusals_are_dropped` and
//! `packets_for_an_earlier_incarnation_are_taken`, and `a_full_outbox_loses_parcels` finds `a_full_outbox_is_no_loss`,
//! and `jobs_grow` finds `jobs_never_grow`.

use super::lone::{HERE, OTHER, REGISTRY, Room, Script, run_alone, run_alone_on};
use super::runs::Row;
use super::timings::{SOON, SOON_SILENT};
use cover_problem::Numbers;
use packet_wire::{Body, Packet};
use spawn_frame::{Cause as Refusal, Site};
use std::alloc::{AllocError, Global};
use std::test::Fail;
use udp_node::{EndCause, Timing};

/// More turns and entries than a short run takes, and no end before the registry says so.
const ROOM: Room = Room {
    turns: 100_000,
    entries: 100_000,
    timing: SOON,
    names: 1,
    fuel: 1,
};

/// The same of a node that gives up after a second.
const SILENT: Room = Room {
    timing: SOON_SILENT,
    ..ROOM
};

/// The registry gives the node the root, after so many receives.
fn root_after(alloc: Global, late: u64) -> Result<Script, AllocError> {
    let root = Body::Give {
        serial: 0,
        attempt: 1,
        prefix: Numbers::from_vec(Vec::new(alloc)),
    };
    let mut script = Script {
        late,
        ..Script::new(alloc)
    };
    script.add(
        alloc,
        &Packet {
            from: REGISTRY,
            to: HERE,
            body: root,
        },
    )?;
    Ok(script)
}

/// It searches the root by one visit, which is too little, and then by sixteen, since it has no names for two children.
#[test]
fn a_node_of_few_names(rt: HostRuntime) -> Result<(), Fail> {
    let script = root_after(rt.alloc(), 0)?;
    let ended = run_alone(&rt, rt.alloc(), script, SILENT)?;
    assert_eq!(rt;
        (ended.cause, ended.threads, ended.searches, ended.visits),
        (EndCause::Silence, 2, 2, 5)
    );
    Ok(())
}

/// What it found it says again, as nobody answers.
#[test]
fn a_lone_node_says_again(rt: HostRuntime) -> Result<(), Fail> {
    let script = root_after(rt.alloc(), 0)?;
    let ended = run_alone(&rt, rt.alloc(), script, SILENT)?;
    assert!(rt; ended.agains > 0);
    Ok(())
}

/// The pairs of thirteen items, those with the first item twice: no pairs cover thirteen items. A search visits some
/// 125,000 prefixes.
static PAIRS: Row = (
    "a b c d e f g h i j k l m\n\
    a b\na c\na d\na e\na f\na g\na h\na i\na j\na k\na l\na m\n\
    a b\na c\na d\na e\na f\na g\na h\na i\na j\na k\na l\na m\n\
    b c\nb d\nb e\nb f\nb g\nb h\nb i\nb j\nb k\nb l\nb m\n\
    c d\nc e\nc f\nc g\nc h\nc i\nc j\nc k\nc l\nc m\n\
    d e\nd f\nd g\nd h\nd i\nd j\nd k\nd l\nd m\n\
    e f\ne g\ne h\ne i\ne j\ne k\ne l\ne m\n\
    f g\nf h\nf i\nf j\nf k\nf l\nf m\n\
    g h\ng i\ng j\ng k\ng l\ng m\n\
    h i\nh j\nh k\nh l\nh m\n\
    i j\ni k\ni l\ni m\n\
    j k\nj l\nj m\n\
    k l\nk m\n\
    l m\n\
    ",
    None,
);

/// The jobs below the root are small at first, of two visits, since nothing is known of how long they take; once that
/// is known they grow. (With more fuel the first search would see that there is no cover.)
#[test]
fn jobs_grow(rt: HostRuntime) -> Result<(), Fail> {
    let script = root_after(rt.alloc(), 0)?;
    let room = Room {
        timing: Timing {
            silence_ms: 4_000,
            ..SOON
        },
        names: 1_000_000,
        fuel: 10,
        ..ROOM
    };
    let ended = run_alone_on(&rt, rt.alloc(), &PAIRS, script, room)?;
    assert_eq!(rt; ended.cause, EndCause::Silence);
    assert!(rt;
        ended.visits_below > 10,
        "{} searches, of {} visits at most",
        ended.searches,
        ended.visits_below
    );
    Ok(())
}

#[test]
fn a_node_of_a_small_book(rt: HostRuntime) -> Result<(), Fail> {
    let script = root_after(rt.alloc(), 0)?;
    let room = Room { entries: 3, ..ROOM };
    let ended = run_alone(&rt, rt.alloc(), script, room)?;
    assert_eq!(rt;
        (ended.cause, ended.threads, ended.entries),
        (EndCause::BookFull, 2, 3)
    );
    Ok(())
}

/// The root comes when the worker has had nothing to do more often than it has turns: it looks some 32 times between
/// two of its naps.
#[test]
fn an_idle_worker_stays(rt: HostRuntime) -> Result<(), Fail> {
    let script = root_after(rt.alloc(), 200)?;
    let room = Room {
        turns: 1_000,
        timing: Timing {
            silence_ms: 3_000,
            ..SOON
        },
        ..ROOM
    };
    let ended = run_alone(&rt, rt.alloc(), script, room)?;
    assert_eq!(rt; ended.searches, 2);
    Ok(())
}

/// The packets of the registry to this incarnation of the node, and one to its next.
fn packets(alloc: Global) -> Result<Script, AllocError> {
    let mut script = Script::new(alloc);
    let (serial, attempt, cause) = (0, 1, Refusal::Unknown);
    let refuse = Body::Refuse {
        serial,
        attempt,
        cause,
    };
    for body in [Body::NoWork, refuse, Body::Abort { serial, attempt }] {
        let (from, to) = (REGISTRY, HERE);
        script.add(alloc, &Packet { from, to, body })?;
    }
    let to = Site {
        node: 1,
        incarnation: 2,
    };
    script.add(
        alloc,
        &Packet {
            from: REGISTRY,
            to,
            body: Body::NoWork,
        },
    )?;
    script.end(alloc)?;
    Ok(script)
}

#[test]
fn each_packet_is_delivered(rt: HostRuntime) -> Result<(), Fail> {
    let ended = run_alone(&rt, rt.alloc(), packets(rt.alloc())?, ROOM)?;
    assert_eq!(rt; ended.delivered, 4);
    Ok(())
}

/// The other node asks for work more often than parcels fit into the outbox, and nothing is sent meanwhile.
#[test]
fn a_full_outbox_loses_parcels(rt: HostRuntime) -> Result<(), Fail> {
    let alloc = rt.alloc();
    let mut script = Script {
        is_jammed: true,
        ..Script::new(alloc)
    };
    for _ in 0..1_200 {
        let (from, to, body) = (OTHER, HERE, Body::Steal);
        script.add(alloc, &Packet { from, to, body })?;
    }
    script.end(alloc)?;
    let ended = run_alone(&rt, alloc, script, ROOM)?;
    assert!(rt; ended.losses >= 1_200 - 1_025, "{} losses", ended.losses);
    Ok(())
}
