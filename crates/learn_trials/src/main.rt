//! `learn_trials SEED COUNT`: learners on random problems.
//!
//! It draws so many problems, with secondary items and colours among them, and lets a learner look for a cover of each,
//! with a seed that is drawn. A learner that isn't stopped has to find a cover where the search in the defined order
//! finds one, and that there is none where that finds none. A walk that asks learners, and is stopped again and again,
//! has to find the same first cover. It prints how many problems there were, how many have a cover, how many conflicts
//! there were, and how many answers differ. `trials/try_learning.py` reads it.
#![tactic(auto)]

mod compare;
mod walking;

use crate::compare::{Seen, compare};
use dlx_reader::read_problem;
use drawn_problems::drawn_text;
use rand_pcg::Pcg32;
use std::alloc::{AllocError, Global};
use std::process::ExitCode;
use std::{env, io};

/// How it is called.
const USAGE: &str = "learn_trials SEED COUNT";

/// Compares the answers to one problem that is drawn; the only error is out of memory.
fn try_one(alloc: Global, rng: &mut Pcg32, seen: &mut Seen) -> Result<(), AllocError> {
    let text = drawn_text(alloc, rng)?;
    if let Ok(read) = read_problem(alloc, &text) {
        compare(alloc, &read.problem, rng, seen)?;
    }
    Ok(())
}

/// Compares the answers to so many problems that are drawn; the only error is out of memory.
fn try_all(alloc: Global, seed: u64, count: u32) -> Result<Seen, AllocError> {
    let mut rng = Pcg32::new(seed, 0);
    let mut seen = Seen::default();
    for _ in 0..count {
        try_one(alloc, &mut rng, &mut seen)?;
    }
    Ok(seen)
}

/// The words of the command line behind the program's name.
fn given_words(rt: &HostRuntime) -> io::Result<Vec<String>> {
    let mut given = Vec::new(rt.alloc());
    for word in env::args(rt)?.skip(1) {
        given.push(word)?;
    }
    Ok(given)
}

fn main(rt: HostRuntime) -> io::Result<ExitCode> {
    let words = given_words(&rt)?;
    if let [seed, count] = words.as_slice()
        && let Ok(seed) = seed.parse::<u64>()
        && let Ok(count) = count.parse::<u32>()
    {
        let seen = try_all(rt.alloc(), seed, count)?;
        println!(rt; "{seen}")?;
        return Ok(ExitCode::from(u8::from(seen.differ > 0)));
    }
    println!(rt; "{USAGE}")?;
    Ok(ExitCode::from(2))
}
