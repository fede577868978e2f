//! Runs over links that lose datagrams, repeat them and hold them back.

use super::ends::{sockets, wild, wires};
use super::runs::{BARE, COVERED, Came, Row, Told, run};
use super::timings::SOON;
use std::test::Fail;
use udp_node::{Link, Open, Plan};

/// How many runs of each row there are over links in memory; most have to publish an answer, and none a wrong one.
static RUNS: u64 = 5;

/// How many of ten runs have to publish an answer at least.
static MOST: u64 = 8;

/// Three nodes with two workers each; a search makes one visit.
const PLAN: Plan = Plan {
    workers: 2,
    nodes: 3,
    fuel: 1,
    seed: 1,
    turns: 1_000_000,
    timing: SOON,
    entries: 1_000_000,
    book_bytes: 1_000_000_000,
    restarts: 0,
    limit: None,
};

#[test]
fn wild_wires(rt: HostRuntime) -> Result<(), Fail> {
    let mut right = 0u64;
    for seed in 0..RUNS {
        for row in [&COVERED, &BARE] {
            let links = wild(rt.alloc(), wires(rt.alloc(), PLAN.nodes)?, seed)?;
            let plan = Plan { seed, ..PLAN };
            let came = run(&rt, rt.alloc(), row, plan, links, &Open);
            let told = came.map_or(Told::Nothing, |came| came.told);
            assert_ne!(rt; told, Told::Wrong, "seed {seed}");
            if told == Told::Right {
                right = right.saturating_add(1);
            }
        }
    }
    assert!(rt;
        right.saturating_mul(10) >= 2 * RUNS * MOST,
        "{right} told an answer"
    );
    Ok(())
}

#[test]
fn wild_sockets(rt: HostRuntime) -> Result<(), Fail> {
    let links = wild(rt.alloc(), sockets(&rt, rt.alloc(), PLAN.nodes)?, 1)?;
    let came = run(&rt, rt.alloc(), &COVERED, PLAN, links, &Open);
    let (told, books) = (Told::Right, 4);
    assert_eq!(rt; came, Some(Came { told, books }));
    Ok(())
}
