//! Searches where memory is refused: the prefix comes back, and the same search then comes to what the row says.
//!
//! No memory is refused here: `trials/try_memory.py` does it from outside, and sees by marks where a search begins and
//! ends.

use super::search::{PREFIXES, SEARCHES, outcome_of};
use super::texts::{LETTERS, problem_of};
use brancher::{Finding, Outcome, Searcher};
use cover_problem::{Problem, is_prefix};
use growth_marks::{begin, end};
use std::alloc::Global;
use std::process::Abort;

/// The number of a search.
const FIND: usize = 96;

/// The finding of a prefix whose search is marked. Where memory is refused the prefix comes back, and is searched
/// again.
fn found<R: Abort>(
    rt: &R,
    alloc: Global,
    problem: &Problem,
    (prefix, fuel): (&[u16], u64),
) -> Finding {
    let mut searcher = Searcher::new(alloc, problem).expect(rt, "memory");
    let list = Vec::from_slice(alloc, prefix).expect(rt, "memory");
    assert!(rt; is_prefix(problem, &list));
    begin(alloc, FIND).expect(rt, "memory");
    let found = searcher.find(list, fuel.max(1));
    end(alloc, found.is_err()).expect(rt, "memory");
    match found {
        Ok(finding) => finding,
        Err(back) => {
            assert!(rt; back.as_slice() == prefix && is_prefix(problem, &back));
            searcher.find(back, fuel.max(1)).expect(rt, "memory")
        }
    }
}

/// Whether the search of a prefix comes to this, and finds this where there is a cover.
fn comes_to(
    finding: &Finding,
    (prefix, fuel): (&[u16], u64),
    outcome: Outcome,
    cover: &[u16],
) -> bool {
    finding.prefix() == prefix
        && finding.fuel() == fuel
        && finding.outcome() == outcome
        && (outcome != Outcome::Cover || finding.cover() == cover)
}

#[test]
fn refused_memory_at_a_prefix(rt: HostRuntime) {
    let problem = problem_of(&rt, rt.alloc(), LETTERS);
    for (prefix, fuel, outcome, cover) in PREFIXES.iter() {
        let finding = found(&rt, rt.alloc(), &problem, (prefix, *fuel));
        assert!(rt; comes_to(&finding, (prefix, *fuel), *outcome, cover));
    }
}

#[test]
fn refused_memory_at_a_search(rt: HostRuntime) {
    for (text, visits, first) in SEARCHES.iter() {
        let problem = problem_of(&rt, rt.alloc(), text);
        let finding = found(&rt, rt.alloc(), &problem, (&[], *visits));
        let outcome = outcome_of(first);
        assert!(rt;
            comes_to(&finding, (&[], *visits), outcome, first),
            "{text}"
        );
    }
}
