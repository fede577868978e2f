//! Runs of sites with threads over links in memory.

ghost use Rattle.std.specs.Prelude.{◌≡◌, ◌+◌, ◌≤◌, vec_len, IfOk, IfSome};
ghost use Rattle.spawn_frame.specs.declared.site.TheConstants.{LAST_NODE};

use cover_problem::Problem;
use run_book::Run;
use std::alloc::{AllocError, Global};
use std::sync::{Arc, Wait};
use std::thread::Threads;
use std::time::Clock;
use udp_node::{MemoryLink, Open, Plan, RunEnd, Timing, Wires, run_sites};

/// The plan of a run that the numbers spell: nodes, workers, seed, fuel, turns.
pub fn plan_of(nodes: &str, workers: &str, seed: &str, fuel: &str, turns: &str) -> Option<Plan>
    ensures { IfSome result (λ plan. (1 ≤ plan.nodes) × (plan.nodes ≤ LAST_NODE)) }
{
    let nodes = nodes.parse::<u8>().ok()?;
    if nodes == 0 || nodes > 16 {
        return None;
    }
    Some(Plan {
        workers: workers.parse::<u8>().ok()?,
        nodes,
        fuel: fuel.parse::<u64>().ok()?,
        seed: seed.parse::<u64>().ok()?,
        turns: turns.parse::<u64>().ok()?,
        timing: Timing::USUAL,
        entries: 1_000_000,
        book_bytes: 1_000_000_000,
        restarts: 0,
        limit: None,
    })
}

/// The links of so many sites. The only error is out of memory.
fn links(alloc: Global, sites: u8) -> Result<Vec<MemoryLink>, AllocError>
    ensures { IfOk result (λ links. vec_len links ≡ sites) }
{
    let wires = Arc::new(alloc, Wires::new(alloc, sites)?)?;
    let mut links = Vec::with_capacity(alloc, usize::from(sites))?;
    for site in 0..sites {
        links.push(MemoryLink::new(Arc::try_clone(&wires)?, site))?;
    }
    Ok(links)
}

/// Lets the sites of a run search its problem; the only error is out of memory.
pub fn run_over_memory<J: Run + Send + Sync, R: Threads + Wait + Clock + Sync>(
    rt: &R,
    alloc: Global,
    problem: &Problem,
    plan: Plan,
) -> Result<RunEnd<J>, AllocError>
    requires run { J.run ≡ record { problem = problem.now; nodes = plan.nodes } }
    requires some { 1 ≤ plan.nodes }
    requires most { plan.nodes ≤ LAST_NODE }
{
    let links = links(alloc, plan.nodes + 1)?;
    run_sites(rt, alloc, problem, plan, links, &Open)
}
