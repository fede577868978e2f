//! A run in an order that a gate brings about.
//!
//! No contract says that threads work at once. Of the bugs of `udp_node` that are kept outside the gate,
//! `gate_two_workers` finds `workers_in_turn`, `lock_from_take_to_post` and `lock_round_search_and_post`.

use super::ends::wires;
use super::runs::{COVERED, Came, Told, run};
use super::timings::SOON;
use run_probes::{Awaited, HeldGate};
use std::test::Fail;
use udp_node::Plan;

/// One node with two workers; a search makes one visit.
const ONE_NODE: Plan = Plan {
    workers: 2,
    nodes: 1,
    fuel: 1,
    seed: 1,
    turns: 1_000_000,
    timing: SOON,
    entries: 1_000_000,
    book_bytes: 1_000_000_000,
    restarts: 0,
    limit: None,
};

#[test]
fn gate_two_workers(rt: HostRuntime) -> Result<(), Fail> {
    let gate = HeldGate::new(Awaited::OtherChild, 1_000_000);
    let links = wires(rt.alloc(), 1)?;
    let came = run(&rt, rt.alloc(), &COVERED, ONE_NODE, links, &gate);
    let (told, books) = (Told::Right, 2);
    assert_eq!(rt; came, Some(Came { told, books }));
    assert!(rt; gate.is_through(), "no other child was posted meanwhile");
    Ok(())
}
