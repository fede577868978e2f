//! `workbench states SEED COUNT`: searches of random problems that keep states beside plain ones.
//!
//! It draws so many problems, with secondary items and colours among them. Of each it searches several random prefixes,
//! with as much fuel as there are visits, with one less, and with fuel that is drawn, by links and over sets, with room
//! for a few states or for many; what is kept of one search serves the next. Outcome and first cover have to be those
//! of the plain search. It prints how many searches there were, how many visits, and how many searches differ.
//! `trials/try_states.py` reads it.

mod compare;

use crate::states::compare::{Seen, compare_searches};
use dlx_reader::read_problem;
use drawn_problems::drawn_text;
use rand_pcg::Pcg32;
use std::alloc::{AllocError, Global};
use std::io;

/// Compares searches of one problem that is drawn; the only error is out of memory.
fn try_one(alloc: Global, rng: &mut Pcg32, seen: &mut Seen) -> Result<(), AllocError> {
    let text = drawn_text(alloc, rng)?;
    match read_problem(alloc, &text) {
        Ok(read) => compare_searches(alloc, &read.problem, rng, seen),
        Err(_) => Ok(()),
    }
}

/// Compares searches of so many problems that are drawn; the only error is out of memory.
fn try_all(alloc: Global, seed: u64, count: u32) -> Result<Seen, AllocError> {
    let mut rng = Pcg32::new(seed, 0);
    let mut seen = Seen::default();
    for _ in 0..count {
        try_one(alloc, &mut rng, &mut seen)?;
    }
    Ok(seen)
}

/// Does what the words ask for, and returns the exit status; none where they ask for something else.
pub fn command(rt: &HostRuntime, words: &[String]) -> io::Result<Option<u8>> {
    if let [seed, count] = words
        && let Ok(seed) = seed.parse::<u64>()
        && let Ok(count) = count.parse::<u32>()
    {
        let seen = try_all(rt.alloc(), seed, count)?;
        println!(rt; "{seen}")?;
        return Ok(Some(u8::from(seen.differ > 0)));
    }
    Ok(None)
}
