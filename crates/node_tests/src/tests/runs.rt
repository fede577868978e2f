//! Runs of a search, and what they come to.

ghost use Rattle.std.specs.Prelude.{◌≡◌, ◌+◌, ◌≤◌, vec_len};

use cover_problem::{Answer, Problem};
use dlx_reader::read_problem;
use run_book::{Book, Run};
use std::alloc::Global;
use std::marker::Brand;
use std::sync::Wait;
use std::thread::Threads;
use std::time::Clock;
use udp_node::{Follower, Gate, Link, Plan, SiteEnd, run_sites};

/// A problem with its one cover, or none.
pub type Row = (&'static str, Option<&'static [u16]>);

/// Seven items and six options, of which three are a cover.
pub static COVERED: Row = (
    "a b c d e f g\nc e\na d g\nb c f\na d f\nb g\nd e g\n",
    Some(&[0, 3, 4]),
);

/// The same without the option `b g`.
pub static BARE: Row = ("a b c d e f g\nc e\na d g\nb c f\na d f\nd e g\n", None);

/// What a run published.
#[derive(Clone, Copy, Debug, PartialEq, Eq)]
pub enum Told {
    /// The one cover, or that there is none.
    Right,
    /// Something else.
    Wrong,
    /// Nothing.
    Nothing,
}

/// What a run came to.
#[derive(Clone, Copy, Debug, PartialEq, Eq)]
pub struct Came {
    /// What was published.
    pub told: Told,
    /// How many sites have a book: all their receipts have come back.
    pub books: usize,
}

/// What a run came to, and how its sites ended, the registry first.
#[derive(Drop)]
pub struct Ran {
    /// What it came to.
    pub came: Came,
    /// How many entries the books of its sites have together.
    pub entries: usize,
    /// How its sites ended.
    pub sites: Vec<SiteEnd>,
}

/// Runs a search of the row's problem over these links; none where memory ran out.
pub fn run<L: Link + Send, G: Gate + Follower + Sync, R: Threads + Wait + Clock + Sync>(
    rt: &R,
    alloc: Global,
    row: &Row,
    plan: Plan,
    links: Vec<L>,
    gate: &G,
) -> Option<Came>
    requires some { 1 ≤ plan.nodes }
    requires most { plan.nodes ≤ 16 }
    requires links { vec_len links ≡ plan.nodes + 1 }
{
    Some(run_whole(rt, alloc, row, plan, links, gate)?.came)
}

/// Runs a search, as `run` does, and reports its sites' ends too.
pub fn run_whole<L: Link + Send, G: Gate + Follower + Sync, R: Threads + Wait + Clock + Sync>(
    rt: &R,
    alloc: Global,
    row: &Row,
    plan: Plan,
    links: Vec<L>,
    gate: &G,
) -> Option<Ran>
    requires some { 1 ≤ plan.nodes }
    requires most { plan.nodes ≤ 16 }
    requires links { vec_len links ≡ plan.nodes + 1 }
{
    let read = read_problem(alloc, row.0.as_bytes()).ok()?;
    let case = Case {
        problem: &read.problem,
        cover: row.1,
    };
    search::<Brand, L, G, R>(rt, alloc, case, plan, links, gate)
}

/// A problem that was read, with its one cover, or none.
#[derive(Clone, Copy)]
struct Case<'a> {
    problem: &'a Problem,
    cover: Option<&'static [u16]>,
}

/// Runs a search of the problem, in a run with a name.
fn search<
    J: Run + Send + Sync,
    L: Link + Send,
    G: Gate + Follower + Sync,
    R: Threads + Wait + Clock + Sync,
>(rt: &R, alloc: Global, case: Case<'_>, plan: Plan, links: Vec<L>, gate: &G) -> Option<Ran>
    requires problem { case.problem.now ≡ J.run.problem }
    requires nodes { plan.nodes ≡ J.run.nodes }
    requires some { 1 ≤ plan.nodes }
    requires most { plan.nodes ≤ 16 }
    requires links { vec_len links ≡ plan.nodes + 1 }
{
    let end = run_sites::<J, L, G, R>(rt, alloc, case.problem, plan, links, gate).ok()?;
    let came = Came {
        told: judged(end.answer.as_ref(), case.cover),
        books: end.books.len(),
    };
    Some(Ran {
        came,
        entries: entries_of(&end.books),
        sites: end.sites,
    })
}

/// How many entries these books have together.
fn entries_of<J: Run>(books: &[Book<J>]) -> usize {
    let mut entries = 0usize;
    for book in books {
        entries = entries.saturating_add(book.entries().len());
    }
    entries
}

/// What was published, beside the one cover that there is, or none.
fn judged(answer: Option<&Answer>, cover: Option<&[u16]>) -> Told {
    let is_right = match (answer, cover) {
        (None, _) => return Told::Nothing,
        (Some(Answer::Cover(options)), Some(expected)) => options.as_slice() == expected,
        (Some(Answer::NoCover), None) => true,
        _ => false,
    };
    if is_right { Told::Right } else { Told::Wrong }
}
