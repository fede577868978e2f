//! Searches that keep states beside plain ones.

ghost use Rattle.std.specs.Prelude.{◌≤◌};

use brancher::{Outcome, Searcher, Tables};
use cover_problem::{Problem, is_prefix};
use drawn_problems::below;
use rand_core::utils::NextWord;
use rand_pcg::Pcg32;
use std::alloc::{AllocError, Global};
use std::fmt::{self, Display, Formatter, Write};

/// How many prefixes of a problem are searched.
const PREFIXES: u32 = 6;
/// The most visits that are looked for.
const MOST: u64 = 1 << 20;
/// The rooms for states, in bytes: for none, for two to some dozens, for many.
const ROOMS: [u64; 5] = [0, 60, 400, 3_000, 1 << 20];

/// What was seen.
#[derive(Clone, Copy, Debug, Default)]
pub struct Seen {
    /// How many problems were searched.
    problems: u64,
    /// How many searches were compared.
    searches: u64,
    /// How many of them came to a cover, and were out of fuel.
    covers: u64,
    spent: u64,
    /// How many differ.
    pub differ: u64,
}

impl Display for Seen {
    fn fmt<W: Write>(&self, f: &mut Formatter<W>) -> fmt::Result {
        write!(
            f,
            "{} problems, {} searches: {} covers, {} spent; {} differ",
            self.problems, self.searches, self.covers, self.spent, self.differ
        )
    }
}

/// What a search of a prefix comes to, if the list is a prefix of its problem and there is fuel.
fn outcome_of(searcher: &mut Searcher, prefix: &[u16], fuel: u64) -> Option<Outcome> {
    if fuel == 0 || !is_prefix(searcher.problem(), prefix) {
        return None;
    }
    Some(searcher.search(prefix, fuel))
}

/// Counts a search with so much fuel, and whether the one that keeps states comes to the same as the plain one.
fn compare(
    plain: &mut Searcher,
    keeping: &mut Searcher,
    prefix: &[u16],
    fuel: u64,
    seen: &mut Seen,
) {
    let outcome = outcome_of(plain, prefix, fuel);
    let other = outcome_of(keeping, prefix, fuel);
    let is_cover = outcome == Some(Outcome::Cover);
    seen.searches = seen.searches.saturating_add(1);
    seen.covers = seen.covers.saturating_add(u64::from(is_cover));
    seen.spent = seen
        .spent
        .saturating_add(u64::from(outcome == Some(Outcome::Spent)));
    let is_same = outcome == other && (!is_cover || plain.found() == keeping.found());
    seen.differ = seen.differ.saturating_add(u64::from(!is_same));
}

/// Whether the plain search of a prefix runs out of so much fuel.
fn is_spent(plain: &mut Searcher, prefix: &[u16], fuel: u64) -> bool {
    outcome_of(plain, prefix, fuel) == Some(Outcome::Spent)
}

/// How many visits a prefix has, or more than the most.
fn visits_of(plain: &mut Searcher, prefix: &[u16]) -> u64
    ensures { 1 ≤ result }
{
    let (mut less, mut enough) = (0u64, MOST);
    for _ in 0..21 {
        let middle = less / 2 + enough / 2;
        if middle > less && is_spent(plain, prefix, middle) {
            less = middle;
        } else {
            enough = middle;
        }
    }
    enough.max(1)
}

/// A prefix of the problem, by options that are drawn; the only error is out of memory.
fn drawn_prefix(alloc: Global, problem: &Problem, rng: &mut Pcg32) -> Result<Vec<u16>, AllocError> {
    let mut prefix = Vec::new(alloc);
    for _ in 0..below(rng, 4) {
        let option = (rng.next_word() as usize % problem.options().max(1)) as u16;
        prefix.push(option)?;
        if !is_prefix(problem, &prefix) {
            prefix.pop();
        }
    }
    Ok(prefix)
}

/// Compares searches of several prefixes; the only error is out of memory.
fn compare_prefixes(
    alloc: Global,
    problem: &Problem,
    tables: &Tables,
    rng: &mut Pcg32,
    seen: &mut Seen,
) -> Result<(), AllocError> {
    let room = ROOMS[below(rng, 5) as usize];
    let mut plain = Searcher::of_tables(alloc, tables)?;
    let mut keeping = Searcher::keeping(alloc, tables, room)?;
    for _ in 0..PREFIXES {
        let prefix = drawn_prefix(alloc, problem, rng)?;
        let visits = visits_of(&mut plain, &prefix);
        let drawn = 1 + u64::from(rng.next_word()) % visits;
        for fuel in [drawn, visits - 1, visits, u64::MAX] {
            compare(&mut plain, &mut keeping, &prefix, fuel, seen);
        }
    }
    Ok(())
}

/// Compares searches of a problem, by links and over sets; the only error is out of memory.
pub fn compare_searches(
    alloc: Global,
    problem: &Problem,
    rng: &mut Pcg32,
    seen: &mut Seen,
) -> Result<(), AllocError> {
    seen.problems = seen.problems.saturating_add(1);
    let sets = Tables::of_sets(alloc, problem)?;
    compare_prefixes(alloc, problem, &sets, rng, seen)?;
    compare_prefixes(alloc, problem, &Tables::of_links(problem), rng, seen)
}
