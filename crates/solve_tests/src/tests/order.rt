//! Runs in an order that a gate brings about, and whom nodes ask first.
//!
//! No contract says that nodes work at once. Of the bugs of `udp_node` that are kept outside the gate, `gate_two_nodes`
//! finds `asks_the_registry_alone`. Of the bugs of `cover_engines` that are kept outside the gate, `gate_two_workers`
//! finds `one_worker_in_each_node`, and `a_seed_draws_victims_of_its_own` finds `the_seed_is_ignored`.

ghost use Rattle.std.specs.Prelude.{◌≡◌, ◌+◌, vec_len};

use super::{ROWS, sized};
use cover_engines::{links, solve_engine};
use cover_problem::{Answer, Problem};
use dlx_reader::read_problem;
use packet_wire::{Body, Packet};
use run_book::Run;
use run_key::RunKey;
use run_probes::{Awaited, Expected, HeldGate, Sent, SentGate, first_victim, recorded};
use run_settings::Settings;
use std::alloc::Global;
use std::marker::Brand;
use std::net::Net;
use std::random::RandomSource;
use std::sync::{Arc, Mutex, Wait};
use std::test::Fail;
use std::thread::Threads;
use std::time::Clock;
use udp_node::{Follower, Gate, Link};

/// The one cover of the first row.
const COVER: [u16; 3] = [0, 3, 4];

/// Whether the nodes 1 and 2 have greeted, and one has given the other a child.
fn has_all(sent: &[Packet]) -> bool {
    let greets = |node: u8| sent
        .iter()
        .any(|it| it.from.node == node && it.body == Body::Hello);
    let is_given = |it: &Packet| matches!(it.body, Body::Give { .. }) && it.from.node != 0;
    greets(1) && greets(2) && sent.iter().any(is_given)
}

/// Whether this is the row's cover.
fn is_covered(answer: Option<&Answer>) -> bool {
    match answer {
        Some(Answer::Cover(options)) => options.as_slice() == COVER.as_slice(),
        _ => false,
    }
}

/// Whether a run publishes the cover of the row's problem, and leaves a book of each site.
fn covers<
    J: Run + Send + Sync,
    L: Link + Send,
    G: Gate + Follower + Sync,
    R: Threads + Wait + Clock + Sync,
>(
    rt: &R,
    alloc: Global,
    settings: &Settings<'_>,
    problem: &Problem,
    links: Vec<L>,
    gate: &G,
) -> Result<bool, Fail>
    requires problem { problem.now ≡ J.run.problem }
    requires nodes { settings.now.nodes ≡ J.run.nodes }
    requires links { vec_len links ≡ settings.now.nodes + 1 }
{
    let end = solve_engine::<J, L, G, R>(rt, alloc, settings, problem, links, gate)?;
    let books = usize::from(settings.nodes) + 1;
    Ok(is_covered(end.answer.as_ref()) && end.books.len() == books)
}

/// The same over sockets of their own, with a list of what is sent.
fn covers_recorded<
    G: Gate + Follower + Sync,
    R: Threads + Wait + Clock + Net + RandomSource + Sync,
>(rt: &R, alloc: Global, settings: &Settings<'_>, gate: &G, sent: &Sent) -> Result<bool, Fail> {
    let read = read_problem(alloc, ROWS[0].0.as_bytes())?;
    let links = recorded(
        alloc,
        links(rt, alloc, settings.nodes, RunKey::draw(rt)?)?,
        sent,
    )?;
    covers::<Brand, _, _, _>(rt, alloc, settings, &read.problem, links, gate)
}

#[test]
fn gate_two_nodes(rt: HostRuntime) -> Result<(), Fail> {
    let alloc = rt.alloc();
    let gate = HeldGate::new(Awaited::Guest, 100_000_000);
    let sent = Arc::new(alloc, Mutex::new(Vec::new(alloc)))?;
    assert!(rt; covers_recorded(&rt, alloc, &sized(2, 1, 1, 1), &gate, &sent)?);
    assert!(rt;
        gate.is_through(),
        "no guest of a node was posted meanwhile"
    );
    assert!(rt; has_all(&sent.lock(&rt)), "a Hello or a Give is missing");
    Ok(())
}

#[test]
fn gate_two_workers(rt: HostRuntime) -> Result<(), Fail> {
    let alloc = rt.alloc();
    let gate = HeldGate::new(Awaited::OtherChild, 1_000_000);
    let sent = Arc::new(alloc, Mutex::new(Vec::new(alloc)))?;
    assert!(rt; covers_recorded(&rt, alloc, &sized(1, 2, 1, 1), &gate, &sent)?);
    assert!(rt; gate.is_through(), "no other child was posted meanwhile");
    Ok(())
}

/// Whom each of four nodes asked first in a run of this seed.
fn first_victims<R: Threads + Wait + Clock + Net + RandomSource + Sync>(
    rt: &R,
    alloc: Global,
    seed: u64,
) -> Result<[Option<u8>; 4], Fail> {
    let sent = Arc::new(alloc, Mutex::new(Vec::new(alloc)))?;
    let gate = SentGate::new(rt, Arc::try_clone(&sent)?, Expected::Steals(4));
    covers_recorded(rt, alloc, &sized(4, 1, 1, seed), &gate, &sent)?;
    let sent = sent.lock(rt);
    Ok([
        first_victim(&sent, 1),
        first_victim(&sent, 2),
        first_victim(&sent, 3),
        first_victim(&sent, 4),
    ])
}

#[test]
fn a_seed_draws_victims_of_its_own(rt: HostRuntime) -> Result<(), Fail> {
    let victims = first_victims(&rt, rt.alloc(), 13)?;
    assert_eq!(rt; victims, [Some(4), Some(3), Some(2), Some(3)]);
    Ok(())
}
