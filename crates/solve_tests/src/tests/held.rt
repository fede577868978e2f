//! Runs whose results a gate holds back, and what it sees of them.
//!
//! Of the bugs of `cover_engines` that are kept outside the gate, `a_run_waits_for_a_slow_search` finds
//! `quiet_for_half_a_second` and `turns_are_cut`, and `a_search_has_the_fuel_of_the_settings` finds
//! `each_job_has_fuel_of_one`. Of the bugs of `site_limits` that are kept outside the gate,
//! `a_search_has_the_fuel_of_the_settings` finds `a_quota_stops_nothing`.

ghost use Rattle.std.specs.Prelude.{◌≡◌};

use super::{ROWS, sized};
use brancher::Finding;
use cover_engines::{links, solve_engine};
use cover_problem::Problem;
use dlx_reader::read_problem;
use run_book::Run;
use run_key::RunKey;
use run_settings::Settings;
use spawn_frame::Job;
use std::alloc::Global;
use std::marker::Brand;
use std::net::Net;
use std::random::RandomSource;
use std::sync::Wait;
use std::sync::atomic::{AtomicU64, Ordering};
use std::test::Fail;
use std::thread::{self, Threads};
use std::time::{Clock, Duration};
use udp_node::{Follower, Gate};

/// A gate that holds each result back until it was asked so often in all, and waits a while when it is asked first.
#[derive(Drop)]
struct Slow<'a, R: Clock> {
    rt: &'a R,
    pause: Duration,
    refusals: u64,
    asked: AtomicU64,
    /// The greatest fuel of a search.
    fuel: AtomicU64,
    /// How many visits the longest search made.
    visits: AtomicU64,
}

impl<'a, R: Clock> Slow<'a, R> {
    /// A gate that wasn't asked so far.
    fn new(rt: &'a R, pause: Duration, refusals: u64) -> Slow<'a, R> {
        Slow {
            rt,
            pause,
            refusals,
            asked: AtomicU64::new(0),
            fuel: AtomicU64::new(0),
            visits: AtomicU64::new(0),
        }
    }
}

impl<R: Clock> Gate for Slow<'_, R> {
    fn pass(&self, _worker: u8, _job: &Job) -> bool {
        let asked = self.asked.fetch_add(1, Ordering::SeqCst);
        if asked == 0 {
            thread::sleep(self.rt, self.pause);
        }
        asked >= self.refusals
    }
}

impl<R: Clock> Follower for Slow<'_, R> {
    fn searched(&self, finding: &Finding, made: u64) {
        self.fuel.fetch_max(finding.fuel(), Ordering::SeqCst);
        self.visits.fetch_max(made, Ordering::SeqCst);
    }
}

/// Whether a run of a problem publishes an answer.
fn is_answered<
    J: Run + Send + Sync,
    G: Gate + Follower + Sync,
    R: Threads + Wait + Clock + Net + RandomSource + Sync,
>(rt: &R, alloc: Global, settings: &Settings<'_>, problem: &Problem, gate: &G) -> Result<bool, Fail>
    requires problem { problem.now ≡ J.run.problem }
    requires nodes { settings.now.nodes ≡ J.run.nodes }
{
    let links = links(rt, alloc, settings.nodes, RunKey::draw(rt)?)?;
    let end = solve_engine::<J, _, G, R>(rt, alloc, settings, problem, links, gate)?;
    Ok(end.answer.is_some())
}

/// The same in a run with a name.
pub fn answers<G: Gate + Follower + Sync, R: Threads + Wait + Clock + Net + RandomSource + Sync>(
    rt: &R,
    alloc: Global,
    text: &str,
    settings: &Settings<'_>,
    gate: &G,
) -> Result<bool, Fail> {
    let read = read_problem(alloc, text.as_bytes())?;
    is_answered::<Brand, _, _>(rt, alloc, settings, &read.problem, gate)
}

#[test]
fn a_run_waits_for_a_slow_search(rt: HostRuntime) -> Result<(), Fail> {
    let gate = Slow::new(&rt, Duration::from_secs(1), 30_000);
    assert!(rt; answers(&rt, rt.alloc(), ROWS[0].0, &sized(1, 1, 1_000, 1), &gate)?);
    assert_eq!(rt; gate.fuel.load(Ordering::SeqCst), u64::MAX);
    Ok(())
}

/// How many visits the longest search makes in a run of the second row's problem, whose root takes three, with so much
/// fuel.
fn longest<R: Threads + Wait + Clock + Net + RandomSource + Sync>(
    rt: &R,
    alloc: Global,
    fuel: u64,
) -> Result<u64, Fail> {
    let gate = Slow::new(rt, Duration::from_secs(0), 0);
    let text = ROWS[1].0;
    if !answers(rt, alloc, text, &sized(1, 2, fuel.max(1), 1), &gate)? {
        return Err(Fail::new("no answer came"));
    }
    Ok(gate.visits.load(Ordering::SeqCst))
}

#[test]
fn a_search_has_the_fuel_of_the_settings(rt: HostRuntime) -> Result<(), Fail> {
    assert_eq!(rt; longest(&rt, rt.alloc(), 1)?, 1);
    assert_eq!(rt; longest(&rt, rt.alloc(), 1_000)?, 3);
    Ok(())
}
