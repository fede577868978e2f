//! A node by itself that is told again what it has heard.
//!
//! Of the bugs of `udp_node` that are kept outside the gate, `what_was_entered_is_heard_once` finds
//! `each_gift_is_heard_again`, `a_later_attempt_is_lost`, `siblings_of_an_entered_one_are_lost`,
//! `all_that_is_said_again_is_lost`, `gifts_are_lost_after_1024` and `four_gifts_are_kept`, and `repeats_are_no_turns`
//! finds `repeats_are_turns`.

use super::lone::{HERE, OTHER, REGISTRY, Room, Script, run_alone};
use cover_problem::Numbers;
use packet_wire::{Body, Incarnations, Packet};
use spawn_frame::{Cause as Refusal, ChildResult, Sibling, Siblings};
use std::alloc::{AllocError, Global};
use std::test::Fail;
use udp_node::{EndCause, Timing};

/// More turns and entries than a short run takes, no end before the registry says so, and repeats so late that it says
/// so first.
const ROOM: Room = Room {
    turns: 100_000,
    entries: 1_000_000,
    timing: Timing::USUAL,
    names: 1,
    fuel: 1,
};

/// How often each packet comes.
static TIMES: usize = 3;

/// The other node says so, three times.
fn say(script: &mut Script, alloc: Global, body: Body) -> Result<(), AllocError> {
    let (from, to) = (OTHER, HERE);
    let packet = Packet { from, to, body };
    if !packet_wire::is_well_formed(&packet) {
        return Ok(());
    }
    for _ in 0..TIMES {
        script.add(alloc, &packet)?;
    }
    Ok(())
}

/// The other node's child of this number, at this attempt: the problem itself.
fn gift(alloc: Global, serial: u32, attempt: u32) -> Body {
    let prefix = Numbers::from_vec(Vec::new(alloc));
    Body::Give {
        serial,
        attempt,
        prefix,
    }
}

/// Its children of these numbers, at their first attempt.
fn siblings(alloc: Global, serials: [u32; 2]) -> Result<Body, AllocError> {
    let mut children = Vec::new(alloc);
    for (option, serial) in (0..).zip(serials) {
        children.push(Sibling {
            serial,
            attempt: 1,
            option,
        })?;
    }
    Ok(Body::GiveMany {
        prefix: Numbers::from_vec(Vec::new(alloc)),
        siblings: Siblings::from_vec(children),
    })
}

/// Children: two attempts at one, and three pairs, of which each shares one with the next.
fn gifts(alloc: Global) -> Result<Script, AllocError> {
    let mut script = Script::new(alloc);
    for body in [
        gift(alloc, 7, 1),
        gift(alloc, 7, 2),
        gift(alloc, 7, 1),
        siblings(alloc, [8, 9])?,
        siblings(alloc, [9, 10])?,
        siblings(alloc, [10, 11])?,
        gift(alloc, 8, 1),
        gift(alloc, 10, 1),
    ] {
        say(&mut script, alloc, body)?;
    }
    Ok(script)
}

/// What is answered each time, or is ignored only for now.
fn others(alloc: Global) -> Result<Script, AllocError> {
    let mut script = Script::new(alloc);
    let (serial, attempt) = (7, 1);
    let result = ChildResult::Empty;
    let cause = Refusal::Unknown;
    let returned = Body::Return {
        serial,
        attempt,
        result: result.copy()?,
    };
    let accepted = Body::Accept {
        serial,
        attempt,
        result,
    };
    let refused = Body::Refuse {
        serial,
        attempt,
        cause,
    };
    let aborted = Body::Abort { serial, attempt };
    for body in [
        Body::Steal,
        Body::NoWork,
        returned,
        accepted,
        refused,
        aborted,
    ] {
        say(&mut script, alloc, body)?;
    }
    Ok(script)
}

/// The registry sends the incarnations that it knows, three times the first and three times others.
fn members(alloc: Global) -> Result<Script, AllocError> {
    let mut script = Script::new(alloc);
    for other in [1, 2, 2, 2, 1, 1] {
        let mut known = Vec::new(alloc);
        for incarnation in [1, other] {
            known.push(incarnation)?;
        }
        let body = Body::Members(Incarnations::from_vec(known));
        let (from, to) = (REGISTRY, HERE);
        let packet = Packet { from, to, body };
        if packet_wire::is_well_formed(&packet) {
            script.add(alloc, &packet)?;
        }
    }
    Ok(script)
}

/// 1,100 children, and then four of them once more. The last 1,024 are kept, so the first child is heard again. It
/// takes the place of the oldest, which is heard again, too; the last one and one of the next oldest are still there.
fn many_gifts(alloc: Global) -> Result<Script, AllocError> {
    let mut script = Script::new(alloc);
    let (from, to) = (OTHER, HERE);
    for serial in (0..1_100).chain([0, 1_099, 76, 78]) {
        let body = gift(alloc, serial, 1);
        let packet = Packet { from, to, body };
        if packet_wire::is_well_formed(&packet) {
            script.add(alloc, &packet)?;
        }
    }
    Ok(script)
}

#[test]
fn what_was_entered_is_heard_once(rt: HostRuntime) -> Result<(), Fail> {
    let alloc = rt.alloc();
    for (mut script, heard) in [
        (gifts(alloc)?, 5),
        (others(alloc)?, 6 * TIMES),
        (members(alloc)?, 3),
        (many_gifts(alloc)?, 1_102),
    ] {
        script.end(alloc)?;
        let ended = run_alone(&rt, alloc, script, ROOM)?;
        // (the end is delivered, too)
        assert_eq!(rt; (ended.cause, ended.delivered), (EndCause::Over, heard + 1));
    }
    Ok(())
}

/// The other node's gift comes more often than the node has turns; then the registry says that the search is over.
#[test]
fn repeats_are_no_turns(rt: HostRuntime) -> Result<(), Fail> {
    let alloc = rt.alloc();
    let mut script = Script::new(alloc);
    for _ in 0..3_000 {
        say(&mut script, alloc, gift(alloc, 7, 1))?;
    }
    script.end(alloc)?;
    let room = Room {
        turns: 1_000,
        ..ROOM
    };
    let ended = run_alone(&rt, alloc, script, room)?;
    assert_eq!(rt; (ended.cause, ended.delivered), (EndCause::Over, 2));
    Ok(())
}
