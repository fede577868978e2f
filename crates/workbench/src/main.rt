//! `workbench`: what those who work on the code run, for trials and for benches.
//!
//! Its first word says what it does; the file of that name has the rest.
#![tactic(auto)]

mod audits;
mod cores;
mod memory_run;
mod searches;
mod states;
mod tally;
mod words;
mod worlds;

use crate::words::given_words;
use std::io;
use std::process::ExitCode;
use std::sync::Wait;
use std::thread::Threads;
use std::time::Clock;

/// How it is called.
const USAGE: &str = "workbench search FILE links|sets|suited plain|kept FUEL
workbench states SEED COUNT
workbench act|copy KIND TIMES
workbench greet THREADS TIMES
workbench table|guests UNITS
workbench tell|measure FILE NODES SEED FUEL RESTARTS TURNS
workbench tally FILE NODES WORKERS SEED FUEL TURNS
workbench audits FILE NODES WORKERS SEED FUEL TURNS CHANGES|time|nothing";

/// Does what the words ask for, and returns the exit status; none where they ask for nothing that it does.
fn run<R: Threads + Wait + Clock + Sync>(
    rt: &HostRuntime,
    threads: &R,
    words: &[String],
) -> io::Result<Option<u8>> {
    let [what, given @ ..] = words else {
        return Ok(None);
    };
    match what.as_str() {
        "search" => searches::command(rt, given),
        "states" => states::command(rt, given),
        "tell" | "measure" => worlds::command(rt, what, given),
        "tally" => tally::command(rt, threads, given),
        "audits" => audits::command(rt, threads, given),
        _ => cores::command(rt, threads, what, given),
    }
}

fn main(rt: HostRuntime) -> io::Result<ExitCode> {
    let words = given_words(&rt)?;
    if let Some(status) = run(&rt, &rt, words.as_slice())? {
        return Ok(ExitCode::from(status));
    }
    println!(rt; "{USAGE}")?;
    Ok(ExitCode::from(2))
}
