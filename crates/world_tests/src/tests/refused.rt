//! Worlds where memory is refused: a step then changes nothing, and comes to the same when it is taken again; a run
//! stops, and its other events then come to the same end.
//!
//! No memory is refused here: `trials/try_memory.py` does it from outside, and sees by marks where a step or a run
//! begins and ends.

use super::runs::{
    FOUR_WAYS, ITEM, LATE_RESULT, LETTERS, NO_COVER, OVERTAKEN, ROOT, ROOT_REDONE, STOLEN,
    STOLEN_CHILD, Step, THIEF_ANEW, TWO_TOGETHER, TWO_WAYS, are_sent, goes,
};
use super::said::has_come;
use cover_problem::Problem;
use cover_world::{Starved, World, WorldEvent, WorldFault};
use dlx_reader::read_problem;
use growth_marks::{begin, end};
use node_core::{ActFault, Reply};
use spawn_frame::Unit;
use std::alloc::Global;
use std::process::Abort;

/// The numbers of the calls: a step, or a run.
const STEP: usize = 100;

const RUN: usize = 104;

/// All units that a site has in these runs.
static UNITS: [Unit; 7] = [
    Unit::Own(0),
    Unit::Own(1),
    Unit::Own(2),
    Unit::Own(3),
    ROOT,
    ROOT_REDONE,
    STOLEN,
];

/// Whether a node of both worlds has these units at one attempt and so far, or not at all.
fn are_units_alike(world: &World<'_>, twin: &World<'_>, node: u8) -> bool {
    UNITS.iter().all(|unit| match (world.unit(node, *unit), twin.unit(node, *unit)) {
        (Some(view), Some(other)) => {
            view.attempt == other.attempt && view.status == other.status
        }
        (None, None) => true,
        _ => false,
    })
}

/// Whether the same packets were sent in both worlds.
fn are_packets_alike(world: &World<'_>, twin: &World<'_>) -> bool {
    for place in 0..world.sent() {
        if place >= twin.sent() || world.packet(place) != twin.packet(place) {
            return false;
        }
    }
    world.sent() == twin.sent()
}

/// Whether a node is alike in both worlds.
fn is_node_alike(world: &World<'_>, twin: &World<'_>, node: u8) -> bool {
    world.here(node) == twin.here(node)
        && world.ripe(node) == twin.ripe(node)
        && world.out(node) == twin.out(node)
        && are_units_alike(world, twin, node)
}

/// Whether both worlds are alike, as far as can be asked.
fn is_alike(world: &World<'_>, twin: &World<'_>) -> bool {
    are_packets_alike(world, twin)
        && world.published() == twin.published()
        && [0u8, 1, 2]
            .iter()
            .all(|node| is_node_alike(world, twin, *node))
}

/// Whether memory was refused.
fn is_starved(answer: &Result<Reply, WorldFault>) -> bool {
    matches!(
        answer,
        Err(WorldFault::Memory | WorldFault::Core(ActFault::Memory))
    )
}

/// A step between marks. Where memory is refused the world is as its twin, which is behind by it, and the step is taken
/// again.
fn step<R: Abort>(
    rt: &R,
    alloc: Global,
    (world, twin): (&mut World<'_>, &World<'_>),
    event: WorldEvent,
) -> Result<Reply, WorldFault> {
    begin(alloc, STEP).expect(rt, "memory");
    let answer = world.step(event);
    let refused = is_starved(&answer);
    end(alloc, refused).expect(rt, "memory");
    if refused {
        assert!(rt; is_alike(world, twin), "the world changed");
        return world.step(event);
    }
    answer
}

/// Whether a step of a script goes as it says, in the world and then in its twin.
fn plays<R: Abort>(
    rt: &R,
    alloc: Global,
    (world, twin): (&mut World<'_>, &mut World<'_>),
    row: Step,
) -> bool {
    let Step::Happens(event, comes, packets) = row else {
        return goes(world, row);
    };
    let first = world.sent();
    let answer = step(rt, alloc, (world, twin), event);
    let expected = twin.step(event);
    answer == expected
        && has_come(&answer, comes)
        && are_sent(world, first, packets)
        && is_alike(world, twin)
}

/// Takes these steps, one after another, in two worlds of two nodes.
fn play<R: Abort>(rt: &R, alloc: Global, text: &str, scripts: &[&[Step]]) {
    let read = read_problem(alloc, text.as_bytes()).expect(rt, "a problem");
    let mut world = World::start(alloc, &read.problem, 2).expect(rt, "memory");
    play_beside(rt, alloc, &read.problem, &mut world, scripts);
}

/// Takes them in this world and in another.
fn play_beside<R: Abort>(
    rt: &R,
    alloc: Global,
    problem: &Problem,
    world: &mut World<'_>,
    scripts: &[&[Step]],
) {
    let mut twin = World::start(alloc, problem, 2).expect(rt, "memory");
    play_parts(rt, alloc, (world, &mut twin), scripts);
}

/// Takes the steps of each part.
fn play_parts<R: Abort>(
    rt: &R,
    alloc: Global,
    (world, twin): (&mut World<'_>, &mut World<'_>),
    scripts: &[&[Step]],
) {
    for (part, steps) in scripts.iter().enumerate() {
        play_part(rt, alloc, (world, twin), part, steps);
    }
}

/// Takes the steps of this part.
fn play_part<R: Abort>(
    rt: &R,
    alloc: Global,
    (world, twin): (&mut World<'_>, &mut World<'_>),
    part: usize,
    steps: &[Step],
) {
    for (number, row) in steps.iter().enumerate() {
        let right = plays(rt, alloc, (world, twin), *row);
        assert!(rt; right, "part {part}, step {number}");
    }
}

#[test]
fn refused_memory_at_a_step(rt: HostRuntime) {
    let alloc = rt.alloc();
    play(&rt, alloc, ITEM, &[NO_COVER]);
    play(&rt, alloc, TWO_WAYS, &[OVERTAKEN]);
    play(&rt, alloc, LETTERS, &[STOLEN_CHILD, LATE_RESULT]);
    play(&rt, alloc, LETTERS, &[STOLEN_CHILD, THIEF_ANEW]);
    play(&rt, alloc, FOUR_WAYS, &[TWO_TOGETHER]);
}

/// Appends the events of a script.
fn push_events<R: Abort>(rt: &R, events: &mut Vec<WorldEvent>, steps: &[Step]) {
    for row in steps {
        if let Step::Happens(event, _, _) = row {
            events.push(*event).expect(rt, "memory");
        }
    }
}

/// The events of these scripts.
fn events_of<R: Abort>(rt: &R, alloc: Global, scripts: &[&[Step]]) -> Vec<WorldEvent> {
    let mut events = Vec::new(alloc);
    for steps in scripts {
        push_events(rt, &mut events, steps);
    }
    events
}

/// Runs on where a run stopped because memory ran out: the events before that one were taken or passed over, as in a
/// new world. How many were taken in all.
fn go_on<R: Abort>(
    rt: &R,
    alloc: Global,
    (world, problem): (&mut World<'_>, &Problem),
    events: &[WorldEvent],
    starved: Starved,
) -> usize {
    let (before, left) = events.split_at_checked(starved.at).expect(rt, "a place");
    let stopped_there = is_as_after(rt, alloc, (world, problem), before, starved.done);
    assert!(rt; stopped_there, "it stopped elsewhere");
    let more = world.run(left).expect(rt, "memory");
    starved.done.wrapping_add(more)
}

/// Whether a new world takes so many of these events, and is then alike.
fn is_as_after<R: Abort>(
    rt: &R,
    alloc: Global,
    (world, problem): (&World<'_>, &Problem),
    events: &[WorldEvent],
    done: usize,
) -> bool {
    let mut twin = World::start(alloc, problem, 2).expect(rt, "memory");
    twin.run(events) == Ok(done) && is_alike(world, &twin)
}

/// How many events a run between marks takes, with what follows it where memory is refused.
fn run_marked<R: Abort>(
    rt: &R,
    alloc: Global,
    (world, problem): (&mut World<'_>, &Problem),
    events: &[WorldEvent],
) -> usize {
    begin(alloc, RUN).expect(rt, "memory");
    let ran = world.run(events);
    end(alloc, ran.is_err()).expect(rt, "memory");
    match ran {
        Ok(done) => done,
        Err(starved) => go_on(rt, alloc, (world, problem), events, starved),
    }
}

/// Whether a run between marks takes as many events as a run with memory, and ends so.
fn ends_so<R: Abort>(rt: &R, alloc: Global, problem: &Problem, events: &[WorldEvent]) -> bool {
    let mut twin = World::start(alloc, problem, 2).expect(rt, "memory");
    let expected = twin.run(events).expect(rt, "memory");
    ends_as(rt, alloc, problem, events, (&twin, expected))
}

/// Whether it takes so many, and ends as this world has.
fn ends_as<R: Abort>(
    rt: &R,
    alloc: Global,
    problem: &Problem,
    events: &[WorldEvent],
    (twin, expected): (&World<'_>, usize),
) -> bool {
    let mut world = World::start(alloc, problem, 2).expect(rt, "memory");
    let done = run_marked(rt, alloc, (&mut world, problem), events);
    done == expected && is_alike(&world, twin)
}

/// Whether a run of the scripts' events ends so.
fn runs<R: Abort>(rt: &R, alloc: Global, text: &str, scripts: &[&[Step]]) -> bool {
    let read = read_problem(alloc, text.as_bytes()).expect(rt, "a problem");
    let events = events_of(rt, alloc, scripts);
    ends_so(rt, alloc, &read.problem, &events)
}

#[test]
fn refused_memory_in_a_run(rt: HostRuntime) {
    let alloc = rt.alloc();
    assert!(rt; runs(&rt, alloc, ITEM, &[NO_COVER]));
    assert!(rt; runs(&rt, alloc, TWO_WAYS, &[OVERTAKEN]));
    assert!(rt; runs(&rt, alloc, LETTERS, &[STOLEN_CHILD, LATE_RESULT]));
    assert!(rt; runs(&rt, alloc, LETTERS, &[STOLEN_CHILD, THIEF_ANEW]));
    assert!(rt; runs(&rt, alloc, FOUR_WAYS, &[TWO_TOGETHER]));
}
