//! Audits of the books of real runs.
//!
//! `workbench audits FILE NODES WORKERS SEED FUEL TURNS WHAT` lets sites with threads search a file's problem over
//! links in memory. What it does with their books is a word:
//!
//! - a number: it prints them, a line `book NODE INCARNATION` for each, a line `event ..` for each entry, and a line
//!   `out ..` for each packet that an entry put out; then a line `found ..` with what an audit of them finds. Then it
//!   draws so many changes: a site and one entry, the event of which doesn't happen, or happens twice, or after the
//!   next one, or delivers a packet with another bit, or one of another entry. The site's events are played once more
//!   with the change, without those that the core refuses then. Each change has a line `change KIND PLACE`, the book of
//!   the site from this place on, and what an audit finds with this book in place of the site's. A change that can't be
//!   made at the entry is passed over. `trials/try_audit.py` reads all this.
//! - `time`: it prints how many books there are, how many entries they have, how many nanoseconds an audit of them
//!   takes, and what it finds. `nothing`: it does nothing with them. `bench/audits.py` reads both.

ghost use Rattle.std.specs.Prelude.{◌≤◌};
ghost use Rattle.spawn_frame.specs.declared.site.TheConstants.{LAST_NODE};

mod change;
mod fault;
mod player;
mod playing;
mod trials;

use crate::audits::fault::TrialFault;
use crate::audits::trials::{Trial, tell_trials};
use crate::memory_run::plan_of;
use crate::words::text_of;
use dlx_reader::read_problem;
use std::io;
use std::sync::Wait;
use std::thread::Threads;
use std::time::Clock;
use udp_node::Plan;

/// What the word says is done with the books.
fn trial_of(word: &str) -> Option<Trial> {
    match word {
        "time" => Some(Trial::Time),
        "nothing" => Some(Trial::Nothing),
        changes => Some(Trial::Changes(changes.parse::<u32>().ok()?)),
    }
}

/// Runs the trials of a file's problem.
fn try_file<R: Threads + Wait + Clock + Sync>(
    rt: &HostRuntime,
    threads: &R,
    file: &str,
    plan: Plan,
    trial: Trial,
) -> Result<(), TrialFault>
    requires some { 1 ≤ plan.nodes }
    requires most { plan.nodes ≤ LAST_NODE }
{
    let text = text_of(rt, file)?;
    match read_problem(rt.alloc(), &text) {
        Ok(read) => tell_trials(rt, threads, &read.problem, plan, trial),
        Err(_) => Err(TrialFault::Unexpected),
    }
}

/// Does what the words ask for, and returns the exit status; none where they ask for something else.
pub fn command<R: Threads + Wait + Clock + Sync>(
    rt: &HostRuntime,
    threads: &R,
    words: &[String],
) -> io::Result<Option<u8>> {
    if let [file, nodes, workers, seed, fuel, turns, what] = words
        && let Some(plan) = plan_of(nodes, workers, seed, fuel, turns)
        && let Some(trial) = trial_of(what)
    {
        if let Err(fault) = try_file(rt, threads, file, plan, trial) {
            eprintln!(rt; "{fault:?}")?;
            return Ok(Some(1));
        }
        return Ok(Some(0));
    }
    Ok(None)
}
