//! What the books of a run over links in memory show.

ghost use Rattle.std.specs.Prelude.{◌≡◌, ◌≤◌};
ghost use Rattle.run_book.specs.Sites.{RunName};
ghost use Rattle.spawn_frame.specs.declared.site.TheConstants.{LAST_NODE};

use crate::memory_run::run_over_memory;
use brancher::Outcome;
use cover_problem::Problem;
use node_core::{Event, Reply};
use run_book::{Entry, Run};
use spawn_frame::Unit;
use std::alloc::{AllocError, Global};
use std::marker::Brand;
use std::sync::Wait;
use std::thread::Threads;
use std::time::Clock;
use udp_node::{Plan, RunEnd, SiteEnd};

/// What a site's book shows of its searches. Counts stop at the greatest number.
#[derive(Clone, Copy, Debug, PartialEq, Eq)]
pub struct Tally {
    /// How many entries the book has.
    pub entries: usize,
    /// How many searches were posted.
    pub searches: u64,
    /// How many visits were made by searches that were spent: those are made again.
    pub spent: u64,
    /// One more than the greatest serial of a child that was taken up: so many names were used at least.
    pub names: u64,
}

impl Tally {
    /// A book without entries.
    const NOTHING: Tally = Tally {
        entries: 0,
        searches: 0,
        spent: 0,
        names: 0,
    };

    /// With one entry more.
    fn with(self, entry: &Entry) -> Tally {
        let mut tally = self;
        tally.entries = tally.entries.saturating_add(1);
        if let Event::Post(_, finding) = entry.event() {
            tally.searches = tally.searches.saturating_add(1);
            if finding.outcome() == Outcome::Spent {
                tally.spent = tally.spent.saturating_add(finding.fuel());
            }
        }
        if let Reply::Taken(job, _) = entry.reply() {
            if let Unit::Own(serial) = job.unit {
                tally.names = tally.names.max(u64::from(serial) + 1);
            }
        }
        tally
    }
}

/// How a run came out.
#[derive(Drop)]
pub struct Ran {
    /// Whether the registry published an answer.
    pub is_published: bool,
    /// How each site ended, the registry first.
    pub sites: Vec<SiteEnd>,
    /// What the books show, the registry's first.
    pub tallies: Vec<Tally>,
}

/// Returns what the entries show.
fn tally_of(entries: &[Entry]) -> Tally {
    let mut tally = Tally::NOTHING;
    for entry in entries {
        tally = tally.with(entry);
    }
    tally
}

/// Lets sites search a problem; the only error is out of memory.
pub fn tally_run<R: Threads + Wait + Clock + Sync>(
    rt: &R,
    alloc: Global,
    problem: &Problem,
    plan: Plan,
) -> Result<Ran, AllocError>
    requires some { 1 ≤ plan.nodes }
    requires most { plan.nodes ≤ LAST_NODE }
{
    run_named::<Brand, R>(rt, alloc, problem, plan)
}

/// The same with the name of the run.
fn run_named<J: Run + Send + Sync, R: Threads + Wait + Clock + Sync>(
    rt: &R,
    alloc: Global,
    problem: &Problem,
    plan: Plan,
) -> Result<Ran, AllocError>
    requires run { J.run ≡ record { problem = problem.now; nodes = plan.nodes } }
    requires some { 1 ≤ plan.nodes }
    requires most { plan.nodes ≤ LAST_NODE }
{
    tallied(alloc, run_over_memory::<J, R>(rt, alloc, problem, plan)?)
}

/// What the books of a run show.
fn tallied<J: Run>(alloc: Global, end: RunEnd<J>) -> Result<Ran, AllocError> {
    let mut tallies = Vec::with_capacity(alloc, end.books.len())?;
    for book in &end.books {
        tallies.push(tally_of(book.entries()))?;
    }
    Ok(Ran {
        is_published: end.answer.is_some(),
        sites: end.sites,
        tallies,
    })
}
