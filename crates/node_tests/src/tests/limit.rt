//! Runs that end by their limit alone.

ghost use Rattle.std.specs.Prelude.{◌≡◌};

use super::ends::wires;
use super::timings::SOON;
use cover_problem::Problem;
use dlx_reader::read_problem;
use run_book::Run;
use spawn_frame::Job;
use std::alloc::{AllocError, Global};
use std::marker::Brand;
use std::sync::Wait;
use std::test::Fail;
use std::thread::{self, Threads};
use std::time::{Clock, Duration, Instant};
use udp_node::{Follower, Gate, Plan, run_sites};

/// A gate that lets nobody pass: no result is posted.
struct Shut;

impl Gate for Shut {
    fn pass(&self, _worker: u8, _job: &Job) -> bool {
        thread::yield_now();
        false
    }
}

impl Follower for Shut {}

/// Two nodes whose turns last for years, and which are never thought silent.
const PLAN: Plan = Plan {
    workers: 1,
    nodes: 2,
    fuel: 1,
    seed: 1,
    turns: u64::MAX,
    timing: SOON,
    entries: 1_000_000,
    book_bytes: 1_000_000_000,
    restarts: 0,
    limit: None,
};

/// How long the run may last, in milliseconds.
const LIMIT: u64 = 500;

/// How long it may last on a machine that does other things, too, in milliseconds. Without the limit it lasts for
/// years.
const LATEST: u64 = 20_000;

/// Whether a run in which node 1 restarts so often published nothing, and how many sites have books.
fn run<J: Run + Send + Sync, R: Threads + Wait + Clock + Sync>(
    rt: &R,
    alloc: Global,
    problem: &Problem,
    restarts: u8,
) -> Result<(bool, usize), AllocError>
    requires problem { problem.now ≡ J.run.problem }
    requires nodes { J.run.nodes ≡ 2 }
{
    let links = wires(alloc, PLAN.nodes)?;
    let plan = Plan {
        restarts,
        limit: Some(Duration::from_millis(LIMIT)),
        ..PLAN
    };
    let end = run_sites::<J, _, _, R>(rt, alloc, problem, plan, links, &Shut)?;
    Ok((end.answer.is_none(), end.books.len()))
}

#[test]
fn a_limit_ends_a_run_that_goes_on(rt: HostRuntime) -> Result<(), Fail> {
    let read = read_problem(rt.alloc(), b"a b\na\nb\n")?;
    for restarts in [0, 2] {
        let began = Instant::now(&rt)?;
        let came = run::<Brand, _>(&rt, rt.alloc(), &read.problem, restarts)?;
        let lasted = began.elapsed(&rt)?;
        assert_eq!(rt; came, (true, 3 + usize::from(restarts)));
        let limit = Duration::from_millis(LIMIT);
        assert!(rt; limit <= lasted && lasted <= Duration::from_millis(LATEST));
    }
    Ok(())
}
