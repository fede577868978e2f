//! A run of two nodes in which one is restarted, wherever that comes: the one cover is published all the same.

use super::runs::{LETTERS, ROOT, ROOT_JOB, SECOND_JOB, STOLEN_JOB};
use super::said::is_published;
use cover_world::WorldEvent::{Ask, Deliver, Finish, Post, Restart, Take};
use cover_world::{World, WorldEvent, simulate};
use dlx_reader::read_problem;
use rand_core::SeedableRng;
use rand_pcg::Pcg32;
use std::alloc::Global;
use std::process::Abort;

/// Node 1 splits the root; node 2 steals its first child and finds no cover there, node 1 finds one at the second. The
/// sibling's result arrives after the frame has finished.
static EVENTS: [WorldEvent; 16] = [
    Ask(1, 0),
    Deliver(0),
    Deliver(1),
    Take(1),
    Post(1, ROOT_JOB, 1),
    Ask(2, 1),
    Deliver(2),
    Deliver(3),
    Take(2),
    Post(2, STOLEN_JOB, 2),
    Take(1),
    Post(1, SECOND_JOB, 3),
    Finish(1, ROOT),
    Deliver(4),
    Deliver(7),
    Deliver(6),
];

/// Whether the cover is published where the node is restarted after so many of the events, and what can't happen then
/// is passed over. Where nothing is published by them, the world is brought to an end as a simulation is.
fn publishes<R: Abort>(rt: &R, alloc: Global, node: u8, before: usize) -> bool {
    let read = read_problem(alloc, LETTERS.as_bytes()).expect(rt, "a problem");
    let mut world = World::start(alloc, &read.problem, 2).expect(rt, "memory");
    run(rt, &mut world, node, before);
    is_published(world.published(), Some(Some(&[0, 3, 4])))
}

/// Runs the world so, to its end.
fn run<R: Abort>(rt: &R, world: &mut World<'_>, node: u8, before: usize) {
    let (first, rest) = EVENTS.split_at_checked(before).expect(rt, "a place");
    for events in [first, &[Restart(node, 2)], rest] {
        world.run(events).expect(rt, "memory");
    }
    let mut rng = Pcg32::seed_from_u64(1);
    simulate(world, &mut rng, 1, 0, 0).expect(rt, "memory");
}

#[test]
fn restart_at_each(rt: HostRuntime) {
    for before in 0..EVENTS.len() + 1 {
        for node in [1, 2] {
            let right = publishes(&rt, rt.alloc(), node, before);
            assert!(rt; right, "node {node} after {before} events");
        }
    }
}
