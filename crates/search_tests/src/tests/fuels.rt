//! Searches with each fuel: by links, over sets of live options, and over the tables that suit the problem.
//! `trials/plain_search.py` gave the visits and the first covers.

use super::search::finds;
use super::texts::problem_of;
use brancher::{Outcome, Searcher, Tables};
use cover_problem::Problem;
use std::alloc::Global;
use std::process::Abort;

/// A problem with colours, the visits of its empty prefix, and what is found first; no cover is an empty list.
static SEARCHES: [(&str, u64, &[u16]); 4] = [
    (
        "a b c d e | x y\ne\nc x y:B\nc d x:A y:A\na\nd a x:B y\ne b x y:B\nc b\nd b x:B y:B\nc d y:A\n",
        9,
        &[4, 6, 0],
    ),
    (
        "a b c d | x y z\nd x y:B z\nd y:B z\na b x z:A\na x:A z:B\nd x\nb y:B\na y:A\nd y:A z:B\nd a x:B y\nc\nc b x:A y:A\n",
        8,
        &[10, 7, 3],
    ),
    (
        "a b c d e | x y\nb c\nb y:B\na c\nc y:A\nc e x y:B\nd\nd\ne x:A y:A\na x:A y:B\nb x:B\nb a x:B y:A\n",
        9,
        &[],
    ),
    (
        "a b c d | x y z\nc b y:A\nc d y:A\nb d x:A\nc b y:A z:B\na b x:A y:B\nd y:B\nc x:B\na\n",
        6,
        &[],
    ),
];

/// Whether a search of the empty prefix with so much fuel comes to what so many visits and the first cover say.
fn comes_to_it(searcher: &mut Searcher, fuel: u64, visits: u64, first: &[u16]) -> bool {
    if fuel < visits {
        return searcher.search(&[], fuel.max(1)) == Outcome::Spent;
    }
    finds(searcher, fuel, first)
}

/// Whether this is so with each fuel up to one more than the visits.
fn comes_to_each(searcher: &mut Searcher, visits: u64, first: &[u16]) -> bool {
    for fuel in 1..visits.saturating_add(2) {
        if !comes_to_it(searcher, fuel, visits, first) {
            return false;
        }
    }
    true
}

/// Whether two searches over one pair of tables are so.
fn come_to_each<R: Abort>(
    rt: &R,
    alloc: Global,
    tables: &Tables,
    visits: u64,
    first: &[u16],
) -> bool {
    let mut one = Searcher::of_tables(alloc, tables).expect(rt, "memory");
    let mut other = Searcher::of_tables(alloc, tables).expect(rt, "memory");
    comes_to_each(&mut one, visits, first) && comes_to_each(&mut other, visits, first)
}

/// Whether a search by links is so.
fn comes_by_links<R: Abort>(
    rt: &R,
    alloc: Global,
    problem: &Problem,
    visits: u64,
    first: &[u16],
) -> bool {
    let mut searcher = Searcher::new(alloc, problem).expect(rt, "memory");
    comes_to_each(&mut searcher, visits, first)
}

/// Whether two searches over sets of live options are so.
fn come_over_sets<R: Abort>(
    rt: &R,
    alloc: Global,
    problem: &Problem,
    visits: u64,
    first: &[u16],
) -> bool {
    let tables = Tables::of_sets(alloc, problem).expect(rt, "memory");
    come_to_each(rt, alloc, &tables, visits, first)
}

/// Whether two searches over the tables that suit the problem are so.
fn come_as_suited<R: Abort>(
    rt: &R,
    alloc: Global,
    problem: &Problem,
    visits: u64,
    first: &[u16],
) -> bool {
    let tables = Tables::build(alloc, problem).expect(rt, "memory");
    come_to_each(rt, alloc, &tables, visits, first)
}

#[test]
fn each_fuel_comes_to_the_same(rt: HostRuntime) {
    let alloc = rt.alloc();
    for (text, visits, first) in SEARCHES.iter() {
        let problem = problem_of(&rt, alloc, text);
        assert!(rt;
            comes_by_links(&rt, alloc, &problem, *visits, first),
            "{text}"
        );
        assert!(rt;
            come_over_sets(&rt, alloc, &problem, *visits, first),
            "{text}"
        );
        assert!(rt;
            come_as_suited(&rt, alloc, &problem, *visits, first),
            "{text}"
        );
    }
}
