//! Worlds that go on by chance: whatever is drawn, they publish the one cover that there is, or that there is none.

use super::said::{Came, is_published};
use cover_world::{World, simulate};
use dlx_reader::read_problem;
use rand_core::SeedableRng;
use rand_pcg::Pcg32;
use std::alloc::Global;
use std::process::Abort;

/// Seven items and six options, with one cover: options 0, 3 and 4. Without option 4 there is none.
const COVERED: &str = "a b c d e f g\nc e\na d g\nb c f\na d f\nb g\nd e g\n";

const BARE: &str = "a b c d e f g\nc e\na d g\nb c f\na d f\nd e g\n";

/// Simulates a world of four nodes from this seed; whether it publishes this cover, or none.
fn publishes<R: Abort>(
    rt: &R,
    alloc: Global,
    (text, cover): (&str, Came),
    seed: u64,
    (fuel, turns, restarts): (u64, u32, u32),
) -> bool {
    let read = read_problem(alloc, text.as_bytes()).expect(rt, "a problem");
    let mut world = World::start(alloc, &read.problem, 4).expect(rt, "memory");
    simulate_from(rt, &mut world, seed, (fuel, turns, restarts));
    is_published(world.published(), Some(cover))
}

/// Simulates the world from this seed.
fn simulate_from<R: Abort>(
    rt: &R,
    world: &mut World<'_>,
    seed: u64,
    (fuel, turns, restarts): (u64, u32, u32),
) {
    let mut rng = Pcg32::seed_from_u64(seed);
    simulate(world, &mut rng, fuel, turns, restarts).expect(rt, "memory");
}

/// The problems with what there is to publish.
static PROBLEMS: [(&str, Came); 2] = [(COVERED, Some(&[0, 3, 4])), (BARE, None)];

#[test]
fn no_turn_is_needed(rt: HostRuntime) {
    for problem in PROBLEMS.iter() {
        assert!(rt; publishes(&rt, rt.alloc(), *problem, 1, (1000, 0, 0)));
    }
}

#[test]
fn nodes_may_begin_anew_and_search_little_at_a_time(rt: HostRuntime) {
    for problem in PROBLEMS.iter() {
        for seed in 0..10 {
            let right = publishes(&rt, rt.alloc(), *problem, seed, (1, 10000, 5));
            assert!(rt; right, "seed {seed}");
        }
    }
}
