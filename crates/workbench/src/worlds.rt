//! A simulated search, told event by event.
//!
//! `workbench tell FILE NODES SEED FUEL RESTARTS TURNS` prints a simulated search of a file's problem with all its
//! packets; `workbench measure ..` plays the same and prints its turns, its packets, and whether an answer was
//! published.

ghost use Rattle.std.specs.Prelude.{◌≤◌, IfSome};
ghost use Rattle.spawn_frame.specs.declared.site.TheConstants.{LAST_NODE};

mod story;
mod texts;

use crate::words::text_of;
use crate::worlds::story::{Plan, measure, tell};
use cover_problem::Problem;
use dlx_reader::read_problem;
use std::io;

/// The plan that the numbers spell: nodes, seed, fuel, restarts, turns.
fn plan_of(nodes: &str, seed: &str, fuel: &str, restarts: &str, turns: &str) -> Option<Plan>
    ensures { IfSome result (λ plan. (1 ≤ plan.nodes) × (plan.nodes ≤ LAST_NODE)) }
{
    let nodes = nodes.parse::<u8>().ok()?;
    if nodes == 0 || nodes > 16 {
        return None;
    }
    Some(Plan {
        nodes,
        seed: seed.parse::<u64>().ok()?,
        fuel: fuel.parse::<u64>().ok()?,
        restarts: restarts.parse::<u32>().ok()?,
        turns: turns.parse::<u32>().ok()?,
    })
}

/// Tells the search of a problem's file, or only measures it.
fn tell_file(rt: &HostRuntime, file: &str, plan: Plan, is_told: bool) -> io::Result<()>
    requires some { 1 ≤ plan.nodes }
    requires most { plan.nodes ≤ LAST_NODE }
{
    let text = text_of(rt, file)?;
    match read_problem(rt.alloc(), &text) {
        Ok(read) if is_told => tell(rt.alloc(), &read.problem, plan, &mut rt.stdout()),
        Ok(read) => tell_measured(rt, &read.problem, plan),
        Err(fault) => println!(rt; "{fault:?}"),
    }
}

/// Lets a problem be searched, and prints the turns, the packets, and whether an answer was published.
fn tell_measured(rt: &HostRuntime, problem: &Problem, plan: Plan) -> io::Result<()>
    requires some { 1 ≤ plan.nodes }
    requires most { plan.nodes ≤ LAST_NODE }
{
    let measured = measure(rt.alloc(), problem, plan)?;
    let (turns, packets) = (measured.turns, measured.packets);
    println!(rt; "{turns} {packets} {}", measured.is_published)
}

/// Does what the words ask for, and returns the exit status; none where they ask for something else.
pub fn command(rt: &HostRuntime, what: &str, words: &[String]) -> io::Result<Option<u8>> {
    if let [file, nodes, seed, fuel, restarts, turns] = words
        && let Some(plan) = plan_of(nodes, seed, fuel, restarts, turns)
    {
        tell_file(rt, file, plan, what == "tell")?;
        return Ok(Some(0));
    }
    Ok(None)
}
