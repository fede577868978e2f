//! `workbench tally FILE NODES WORKERS SEED FUEL TURNS` lets sites with threads search a file's problem over links in
//! memory, and prints how each ended and what its book holds. `bench/books.py` reads it.

ghost use Rattle.std.specs.Prelude.{◌≤◌};
ghost use Rattle.spawn_frame.specs.declared.site.TheConstants.{LAST_NODE};

mod sites;

use crate::memory_run::plan_of;
use crate::tally::sites::{Ran, Tally, tally_run};
use crate::words::text_of;
use cover_problem::Problem;
use dlx_reader::read_problem;
use std::io;
use std::sync::Wait;
use std::thread::Threads;
use std::time::Clock;
use udp_node::{Plan, SiteEnd};

/// Lets sites search the problem of a file, and prints how each ended.
fn tell_sites<R: Threads + Wait + Clock + Sync>(
    rt: &HostRuntime,
    threads: &R,
    file: &str,
    plan: Plan,
) -> io::Result<()>
    requires some { 1 ≤ plan.nodes }
    requires most { plan.nodes ≤ LAST_NODE }
{
    let text = text_of(rt, file)?;
    match read_problem(rt.alloc(), &text) {
        Ok(read) => tell_run(rt, threads, &read.problem, plan),
        Err(_) => println!(rt; "the file is refused"),
    }
}

/// Lets sites search a problem, and prints how each ended.
fn tell_run<R: Threads + Wait + Clock + Sync>(
    rt: &HostRuntime,
    threads: &R,
    problem: &Problem,
    plan: Plan,
) -> io::Result<()>
    requires some { 1 ≤ plan.nodes }
    requires most { plan.nodes ≤ LAST_NODE }
{
    tell_ran(rt, &tally_run(threads, rt.alloc(), problem, plan)?)
}

/// Prints how each site of a run ended, and what its book holds.
fn tell_ran(rt: &HostRuntime, ran: &Ran) -> io::Result<()> {
    println!(rt; "{}", ran.is_published)?;
    tell_ends(rt, &ran.sites)?;
    tell_tallies(rt, &ran.tallies)
}

/// Prints how each site ended, with its losses and turns.
fn tell_ends(rt: &HostRuntime, ends: &[SiteEnd]) -> io::Result<()> {
    for end in ends {
        println!(rt; "{:?} {} {}", end.cause, end.losses, end.turns)?;
    }
    Ok(())
}

/// Prints what each book holds: its entries, searches, visits of spent searches, and names.
fn tell_tallies(rt: &HostRuntime, tallies: &[Tally]) -> io::Result<()> {
    for tally in tallies {
        let (entries, searches) = (tally.entries, tally.searches);
        println!(rt; "{entries} {searches} {} {}", tally.spent, tally.names)?;
    }
    Ok(())
}

/// Does what the words ask for, and returns the exit status; none where they ask for something else.
pub fn command<R: Threads + Wait + Clock + Sync>(
    rt: &HostRuntime,
    threads: &R,
    words: &[String],
) -> io::Result<Option<u8>> {
    if let [file, nodes, workers, seed, fuel, turns] = words
        && let Some(plan) = plan_of(nodes, workers, seed, fuel, turns)
    {
        tell_sites(rt, threads, file, plan)?;
        return Ok(Some(0));
    }
    Ok(None)
}
