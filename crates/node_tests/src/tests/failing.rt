//! Runs over links of which one has a defect: they end soon, and report what went wrong, or go on where they can.
//!
//! Of the bugs of `udp_node` that are kept outside the gate, `a_receive_may_fail_once` finds
//! `one_failed_receive_ends_a_site`, `a_send_may_fail_once` finds `a_failed_send_ends_the_sender`,
//! `a_send_that_fails_is_a_loss` finds `a_failed_send_is_no_loss`, `nodes_that_do_not_hear_the_registry_end` finds
//! `nodes_keep_one_another_at_work`, and `numbers_of_a_site_with_a_defect` finds `ends_after_99_failed_receives`,
//! `failed_receives_are_not_counted` and `stops_after_ten_faults`.

use super::broken::{Defect, links_with};
use super::fails_once::{AfterFault, Fault, links_that_fail};
use super::runs::{COVERED, Told, run, run_whole};
use super::timings::{SOON, SOON_SILENT};
use std::alloc::Global;
use std::sync::atomic::{AtomicU64, Ordering};
use std::sync::{Arc, Wait};
use std::test::Fail;
use std::thread::Threads;
use std::time::Clock;
use udp_node::{EndCause, Open, Plan, Timing};

/// Three nodes of two workers each, which never end since they hear nothing.
const PLAN: Plan = Plan {
    workers: 2,
    nodes: 3,
    fuel: 1,
    seed: 1,
    turns: 1_000_000,
    timing: SOON,
    entries: 1_000_000,
    book_bytes: 1_000_000_000,
    restarts: 0,
    limit: None,
};

#[test]
fn a_site_that_fails_ends_the_run(rt: HostRuntime) -> Result<(), Fail> {
    for site in 0..4 {
        let links = links_with(rt.alloc(), PLAN.nodes, site, Defect::Deaf)?;
        let Some(came) = run(&rt, rt.alloc(), &COVERED, PLAN, links, &Open) else {
            return Err(Fail::new("memory ran out"));
        };
        // (the others may find the cover before a node fails)
        let is_right = came.told == Told::Nothing || (came.told == Told::Right && site > 0);
        assert!(rt; is_right, "site {site}");
        assert_eq!(rt; came.books, 4, "site {site}");
    }
    Ok(())
}

#[test]
fn nodes_that_do_not_hear_the_registry_end(rt: HostRuntime) -> Result<(), Fail> {
    let plan = Plan {
        timing: SOON_SILENT,
        ..PLAN
    };
    let links = links_with(rt.alloc(), plan.nodes, 0, Defect::Mute)?;
    let Some(came) = run(&rt, rt.alloc(), &COVERED, plan, links, &Open) else {
        return Err(Fail::new("memory ran out"));
    };
    assert_eq!(rt; (came.told, came.books), (Told::Nothing, 4));
    Ok(())
}

/// One node with one worker.
const SMALL: Plan = Plan {
    workers: 1,
    nodes: 1,
    ..PLAN
};

/// Why a site ends, and its losses, its datagrams that are no packets and its link's failures.
type Numbers = (EndCause, u64, u64, u64);

/// Sites whose link has a defect, with their numbers.
static NUMBERS: [(usize, Defect, Numbers); 6] = [
    (0, Defect::Deaf, (EndCause::Faults, 0, 0, 100)),
    (1, Defect::Deaf, (EndCause::Faults, 0, 0, 100)),
    (0, Defect::DeafFor(99), (EndCause::Over, 0, 0, 99)),
    (1, Defect::DeafFor(99), (EndCause::Over, 0, 0, 99)),
    (1, Defect::DeafFor(100), (EndCause::Faults, 0, 0, 100)),
    (0, Defect::Noisy(7), (EndCause::Over, 0, 7, 0)),
];

/// The numbers of this site at the end of a run where its link has this defect; none where memory ran out.
fn numbers<R: Threads + Wait + Clock + Sync>(
    rt: &R,
    alloc: Global,
    timing: Timing,
    site: usize,
    defect: Defect,
) -> Option<Numbers> {
    let plan = Plan { timing, ..SMALL };
    let links = links_with(alloc, plan.nodes, site, defect).ok()?;
    let ran = run_whole(rt, alloc, &COVERED, plan, links, &Open)?;
    let end = ran.sites.get(site)?;
    Some((end.cause, end.losses, end.dropped, end.failures))
}

#[test]
fn numbers_of_a_site_with_a_defect(rt: HostRuntime) -> Result<(), Fail> {
    for (site, defect, expected) in NUMBERS {
        let came = numbers(&rt, rt.alloc(), SOON, site, defect);
        assert_eq!(rt; came, Some(expected), "site {site}");
    }
    Ok(())
}

#[test]
fn a_send_that_fails_is_a_loss(rt: HostRuntime) -> Result<(), Fail> {
    let came = numbers(&rt, rt.alloc(), SOON_SILENT, 1, Defect::Stuck);
    let Some((cause, losses, dropped, failures)) = came else {
        return Err(Fail::new("memory ran out"));
    };
    // (the registry may fall silent before the turns are over)
    assert!(rt;
        matches!(
            cause,
            EndCause::Silence | EndCause::Turns | EndCause::Stopped
        ) && dropped == 0
    );
    assert!(rt; losses > 0 && losses == failures, "{losses} and {failures}");
    Ok(())
}

/// Whether the node goes on where this call of its link fails, so that the answer comes: it counts as many failures as
/// its link does, and at least these losses. (A full outbox may lose more.)
fn goes_on<R: Threads + Wait + Clock + Sync>(
    rt: &R,
    alloc: Global,
    workers: u8,
    fault: Fault,
    lost: u64,
) -> Result<bool, Fail> {
    let plan = Plan {
        workers,
        nodes: 1,
        ..PLAN
    };
    let failed = Arc::new(alloc, AtomicU64::new(0))?;
    let links = links_that_fail(alloc, plan.nodes, 1, fault, &failed)?;
    let gate = AfterFault::new(Arc::try_clone(&failed)?);
    let Some(ran) = run_whole(rt, alloc, &COVERED, plan, links, &gate) else {
        return Err(Fail::new("memory ran out"));
    };
    let Some(end) = ran.sites.get(1) else {
        return Ok(false);
    };
    let counted = failed.load(Ordering::SeqCst);
    let is_counted = counted > 0 && end.failures == counted && end.losses >= lost;
    Ok(ran.came.told == Told::Right && end.cause == EndCause::Over && is_counted)
}

#[test]
fn a_receive_may_fail_once(rt: HostRuntime) -> Result<(), Fail> {
    for call in 1..51 {
        let goes_on = goes_on(&rt, rt.alloc(), 1, Fault::Receive(call), 0)?;
        assert!(rt; goes_on, "receive {call}");
    }
    Ok(())
}

/// While one worker holds the root back, the seven others go on asking for work.
#[test]
fn a_send_may_fail_once(rt: HostRuntime) -> Result<(), Fail> {
    for call in 1..51 {
        let goes_on = goes_on(&rt, rt.alloc(), 8, Fault::Send(call), 1)?;
        assert!(rt; goes_on, "send {call}");
    }
    Ok(())
}
