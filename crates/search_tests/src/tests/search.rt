//! The search against a plain program: `trials/plain_search.py` gave the visits and the first covers.

use super::links::choose;
use super::texts::{LETTERS, problem_of};
use brancher::{Branch, Finding, Outcome, Searcher, Tables, branch, children};
use cover_problem::{Problem, is_prefix};
use dancing_links::Links;
use std::alloc::Global;
use std::process::Abort;

/// What a search comes to that finds this first; no cover is an empty list.
pub fn outcome_of(first: &[u16]) -> Outcome {
    if first.is_empty() {
        Outcome::Barren
    } else {
        Outcome::Cover
    }
}

/// Whether the search of the empty prefix finds this first with so much fuel.
pub fn finds(searcher: &mut Searcher, fuel: u64, first: &[u16]) -> bool {
    searcher.search(&[], fuel.max(1)) == outcome_of(first)
        && (first.is_empty() || searcher.found() == first)
}

/// Whether so many visits are enough to find this first, and one less isn't.
pub fn takes(searcher: &mut Searcher, visits: u64, first: &[u16]) -> bool {
    if visits > 1 && searcher.search(&[], visits - 1) != Outcome::Spent {
        return false;
    }
    finds(searcher, visits, first)
}

/// Whether the search by links is so.
fn ends_by_links<R: Abort>(
    rt: &R,
    alloc: Global,
    problem: &Problem,
    visits: u64,
    first: &[u16],
) -> bool {
    let mut searcher = Searcher::new(alloc, problem).expect(rt, "memory");
    takes(&mut searcher, visits, first)
}

/// Whether the search over these tables is so.
fn ends_over<R: Abort>(
    rt: &R,
    alloc: Global,
    tables: &Tables<'_>,
    visits: u64,
    first: &[u16],
) -> bool {
    let mut searcher = Searcher::of_tables(alloc, tables).expect(rt, "memory");
    takes(&mut searcher, visits, first)
}

/// Whether the search over sets of live options is so.
fn ends_over_sets<R: Abort>(
    rt: &R,
    alloc: Global,
    problem: &Problem,
    visits: u64,
    first: &[u16],
) -> bool {
    let tables = Tables::of_sets(alloc, problem).expect(rt, "memory");
    ends_over(rt, alloc, &tables, visits, first)
}

/// Whether the search of the empty prefix takes so many visits, and finds this first: by links, and over sets of live
/// options.
pub fn ends_so<R: Abort>(rt: &R, alloc: Global, text: &str, visits: u64, first: &[u16]) -> bool {
    let problem = problem_of(rt, alloc, text);
    ends_by_links(rt, alloc, &problem, visits, first)
        && ends_over_sets(rt, alloc, &problem, visits, first)
}

/// A problem, the visits of its empty prefix, and what is found first.
pub static SEARCHES: [(&str, u64, &[u16]); 30] = [
    (LETTERS, 6, &[3, 4, 0]),
    ("a b c d e f g\nc e\na d g\nb c f\na d f\nd e g\n", 3, &[]),
    ("a b | x\na x\nb x\n", 2, &[]),
    ("a b | x\na x\nb x\nb\n", 3, &[0, 2]),
    ("a\n", 1, &[]),
    ("a | x\nx\na\n", 2, &[0]),
    ("a\na\na\n", 2, &[0]),
    ("a b\nb\na\n", 3, &[1, 0]),
    ("a b c\na b\nb c\nc\na\n", 3, &[0, 2]),
    (
        "a b c d | x y z\nc z b a\nz y c a d\na y b c\na z y d\nb c\nx b y z\nd c\nb d y\nz x d y\n",
        6,
        &[3, 4],
    ),
    (
        "a b c d e | x\na d\nd x c\nc x b\nb d a x\ne b\nc\nx c b\nx d b\n",
        4,
        &[4, 0, 5],
    ),
    (
        "a b c d | x y z\ny c d\ny b c z\ny c x b z a\ny c a d x\na c y\ny a b c\nd a c\nx y b z\n",
        5,
        &[6, 7],
    ),
    (
        "a b c d | x y\nd b y c\nc y b\nb c a\nc a x y\nb c a\nx d y\n",
        4,
        &[5, 2],
    ),
    (
        "a b c d e | x y\nx y c\ny x b c a\nd y b e\nc a\ne a\nc d b\ny a\nd x a e\ny a\n",
        4,
        &[2, 3],
    ),
    (
        "a b c d | x y z\nb z d x\nb d c\nz c y\nz d a\nz a y c x\nd c z x\nx a b d y z\n",
        4,
        &[],
    ),
    (
        "a b c d\nc b\nb\nb d c\nb\nb\nb a\nc b a\nd a b\nb d\n",
        4,
        &[],
    ),
    (
        "a b c d e\nc\nd e b\na c\nd a e\ne b\nb a\nd b a\nb c d\nb e a\n",
        7,
        &[2, 1],
    ),
    (
        "a b c d e | x\na x e b\nb x\nd e x b\nb a\na c b\nc a x\na d b\nb\nc e\n",
        4,
        &[6, 8],
    ),
    ("a b c d e | x y z\ny b c a\nd b c\ne\nd\n", 4, &[0, 3, 2]),
    (
        "a b c d\na\na c\nd\na d\nc b\nb d a\nb\nd b\n",
        4,
        &[1, 6, 2],
    ),
    (
        "a b c d | x y z\nx b c y a z\nb d c\nx a z\nc b x z\nd c\ny d c x\nb\n",
        4,
        &[2, 1],
    ),
    ("a b c d e\nb\nd c\ne c\nd c e\nd a\n", 4, &[4, 0, 2]),
    (
        "a b c d e\nd a e\nc e d\na c d\nb e\nb\nd\nb e\n",
        4,
        &[2, 3],
    ),
    (
        "a b c d e | x y z\nc a\nc\ne\ny c e z b\nz y d x\na x\ny x z a b\nd y\nc d e\n",
        4,
        &[6, 8],
    ),
    (
        "a b c d e | x y\na y x\nc y x\ne c y d\nc\ne\nx d y\ne d c\ne x d a\nd b\n",
        5,
        &[8, 0, 3, 4],
    ),
    (
        "a b c d | x y\nx a b d y\nc b a\ny d a c x\nd a b\nc a b\na\nb c\n",
        4,
        &[],
    ),
    (
        "a b c d | x y\na d c\ny b c\nc b d\nb y c a\nx a c d\n",
        4,
        &[],
    ),
    ("a b c d e\nc d\nb c\ne\nd c a\nb c a\n", 4, &[]),
    (
        "a b c d | x\nd c x a\na\nx a b c\nb d a\nx c d\nd a c\nd b\n",
        4,
        &[],
    ),
    (
        "a b c d | x\nc a\nb x\nx d\nb c\nd x\na c\nx d c\nc x\n",
        5,
        &[],
    ),
];

#[test]
fn searches_agree(rt: HostRuntime) {
    for (text, visits, first) in SEARCHES.iter() {
        assert!(rt; ends_so(&rt, rt.alloc(), text, *visits, first), "{text}");
    }
}

/// A prefix and the fuel; what its search comes to, and what is found.
pub static PREFIXES: [(&[u16], u64, Outcome, &[u16]); 4] = [
    (&[], 6, Outcome::Cover, &[3, 4, 0]),
    (&[], 5, Outcome::Spent, &[]),
    (&[0, 3, 4], 1, Outcome::Cover, &[0, 3, 4]),
    (&[1], 9, Outcome::Barren, &[]),
];

/// Whether the search of a prefix comes to this, and finds this where there is a cover.
fn comes_to<R: Abort>(
    rt: &R,
    alloc: Global,
    problem: &Problem,
    (prefix, fuel): (&[u16], u64),
    (outcome, found): (Outcome, &[u16]),
) -> bool {
    let mut searcher = Searcher::new(alloc, problem).expect(rt, "memory");
    assert!(rt; is_prefix(problem, prefix));
    searcher.search(prefix, fuel.max(1)) == outcome
        && (outcome != Outcome::Cover || searcher.found() == found)
}

#[test]
fn prefixes_are_searched(rt: HostRuntime) {
    let problem = problem_of(&rt, rt.alloc(), LETTERS);
    for (prefix, fuel, outcome, found) in PREFIXES.iter() {
        let expected = (*outcome, *found);
        assert!(rt; comes_to(&rt, rt.alloc(), &problem, (prefix, *fuel), expected));
    }
}

/// The branch, with its children appended to the list.
fn branch_into<R: Abort>(rt: &R, links: &Links, list: &mut Vec<u16>) -> Branch {
    let branch = branch(links);
    if let Branch::Item(item) = branch {
        children(links, item, list).expect(rt, "memory");
    }
    branch
}

/// Whether the links branch on this item once an option is chosen, and its children stand behind a 9 as this list.
fn branches<R: Abort>(
    rt: &R,
    alloc: Global,
    links: &mut Links,
    (chosen, item): (u16, u16),
    children: &[u16],
) -> bool {
    let mut list = vec![in alloc; 9u16].expect(rt, "memory");
    choose(rt, links, chosen);
    branch_into(rt, links, &mut list) == Branch::Item(item) && list.as_slice() == children
}

#[test]
fn links_branch(rt: HostRuntime) {
    let problem = problem_of(&rt, rt.alloc(), LETTERS);
    let mut links = Links::build(rt.alloc(), &problem).expect(&rt, "memory");
    assert!(rt; branches(&rt, rt.alloc(), &mut links, (3, 1), &[9, 4]));
}

/// The finding of the empty prefix with so much fuel.
fn found<R: Abort>(rt: &R, alloc: Global, fuel: u64) -> Finding {
    let problem = problem_of(rt, alloc, LETTERS);
    let mut searcher = Searcher::new(alloc, &problem).expect(rt, "memory");
    searcher
        .find(Vec::new(alloc), fuel.max(1))
        .expect(rt, "memory")
}

/// Whether the finding is that of the empty prefix, with this fuel and this outcome.
fn is_finding(found: &Finding, fuel: u64, outcome: Outcome) -> bool {
    found.prefix().is_empty() && found.fuel() == fuel && found.outcome() == outcome
}

/// Whether the cover of the empty prefix is copied out, and the searcher has it still.
fn copies_out<R: Abort>(rt: &R, alloc: Global, searcher: &mut Searcher, cover: &[u16]) -> bool {
    let found = searcher.find(Vec::new(alloc), 6).expect(rt, "memory");
    is_finding(&found, 6, Outcome::Cover) && found.cover() == cover && searcher.found() == cover
}

#[test]
fn findings_are_copied_out(rt: HostRuntime) {
    let problem = problem_of(&rt, rt.alloc(), LETTERS);
    let mut searcher = Searcher::new(rt.alloc(), &problem).expect(&rt, "memory");
    assert!(rt; copies_out(&rt, rt.alloc(), &mut searcher, &[3, 4, 0]));
}

#[test]
fn a_spent_finding_is_copied(rt: HostRuntime) {
    let copy = found(&rt, rt.alloc(), 5).copy();
    assert!(rt; is_finding(&copy.expect(&rt, "memory"), 5, Outcome::Spent));
}
