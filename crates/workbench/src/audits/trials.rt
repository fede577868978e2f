//! A run of sites with threads, and audits of its books with changes.

ghost use Rattle.std.specs.Prelude.{◌≡◌, ◌≤◌, length};
ghost use Rattle.spawn_frame.specs.declared.site.TheConstants.{LAST_NODE};

use crate::audits::change::{below, drawn_change, events_of, make_change};
use crate::audits::fault::TrialFault;
use crate::audits::player::Player;
use crate::audits::playing::play;
use crate::memory_run::run_over_memory;
use audit::audit;
use brancher::Tables;
use cover_problem::Problem;
use rand_pcg::Pcg32;
use run_book::{Book, Run, distinct_sites};
use std::alloc::Global;
use std::marker::Brand;
use std::mem;
use std::sync::Wait;
use std::thread::Threads;
use std::time::{Clock, Instant};
use udp_node::Plan;

/// Prints the entries of a book from this place on: a line for each event, and behind it one for each packet that was
/// put out.
fn tell_book<J: Run>(rt: &HostRuntime, book: &Book<J>, from: usize) -> Result<(), TrialFault> {
    let site = book.site();
    println!(rt; "book {} {}", site.node, site.incarnation)?;
    for entry in book.entries().iter().skip(from) {
        println!(rt; "event {:?}", entry.event())?;
        for packet in entry.packets() {
            println!(rt; "out {packet:?}")?;
        }
    }
    Ok(())
}

/// Prints what an audit of the books finds.
fn tell_audit<J: Run>(
    rt: &HostRuntime,
    alloc: Global,
    books: &[Book<J>],
) -> Result<(), TrialFault> {
    if !distinct_sites(books) {
        return Err(TrialFault::Unexpected);
    }
    println!(rt; "found {:?}", audit(alloc, books))?;
    Ok(())
}

/// What is the same in all trials of a run.
#[derive(Drop)]
struct Trials<'a> {
    rt: &'a HostRuntime,
    alloc: Global,
    nodes: u8,
}

/// Prints all books, and what an audit of them finds.
fn tell_all<J: Run>(rt: &HostRuntime, alloc: Global, books: &[Book<J>]) -> Result<(), TrialFault> {
    for book in books {
        tell_book(rt, book, 0)?;
    }
    tell_audit(rt, alloc, books)
}

/// Changes one entry of a book, drawn at random, plays the site's events once more, and prints the change, the changed
/// book from that entry on, and what an audit finds. The books are the same afterwards.
fn try_change<J: Run, R: Wait>(
    trials: &Trials<'_>,
    threads: &R,
    player: &mut Player<'_, J>,
    rng: &mut Pcg32,
    books: &mut [Book<J>],
) -> Result<(), TrialFault>
    requires nodes { trials.now.nodes ≡ J.run.nodes }
    requires some { 1 ≤ trials.now.nodes }
    requires most { trials.now.nodes ≤ LAST_NODE }
    requires books { 1 ≤ length books.old }
    ensures { length books.new ≡ length books.old }
{
    let (rt, alloc) = (trials.rt, trials.alloc);
    let at = below(rng, books.len());
    let site = books[at].site();
    let mut events = events_of(alloc, books[at].entries())?;
    if events.is_empty() {
        return Ok(());
    }
    let place = below(rng, events.len());
    let change = drawn_change(rng);
    if !make_change(alloc, rng, &mut events, place, change)? {
        return Ok(());
    }
    let changed = play(threads, alloc, player, trials.nodes, site, events)?;
    println!(rt; "change {change:?} {place}")?;
    tell_book(rt, &changed, place)?;
    let book = mem::replace(&mut books[at], changed);
    let told = tell_audit(rt, alloc, books);
    books[at] = book;
    told
}

/// What is done with the books of a run.
#[derive(Clone, Copy, Debug, PartialEq, Eq)]
pub enum Trial {
    /// They are printed, and audited as they are and with so many changes.
    Changes(u32),
    /// Their audit is timed.
    Time,
    /// Nothing: what a run without an audit takes.
    Nothing,
}

/// Prints the books and what an audit of them finds, and then the changes.
fn tell_changes<J: Run, R: Wait>(
    trials: &Trials<'_>,
    threads: &R,
    problem: &Problem,
    rng: &mut Pcg32,
    books: &mut [Book<J>],
    changes: u32,
) -> Result<(), TrialFault>
    requires problem { problem.now ≡ J.run.problem }
    requires nodes { trials.now.nodes ≡ J.run.nodes }
    requires some { 1 ≤ trials.now.nodes }
    requires most { trials.now.nodes ≤ LAST_NODE }
{
    tell_all(trials.rt, trials.alloc, books)?;
    if books.is_empty() {
        return Err(TrialFault::Unexpected);
    }
    let tables = Tables::build(trials.alloc, problem)?;
    try_over(trials, threads, &tables, rng, books, changes)
}

/// Makes the changes, by a player over tables of the problem.
fn try_over<J: Run, R: Wait>(
    trials: &Trials<'_>,
    threads: &R,
    tables: &Tables<'_>,
    rng: &mut Pcg32,
    books: &mut [Book<J>],
    changes: u32,
) -> Result<(), TrialFault>
    requires problem { tables.now ≡ J.run.problem }
    requires nodes { trials.now.nodes ≡ J.run.nodes }
    requires some { 1 ≤ trials.now.nodes }
    requires most { trials.now.nodes ≤ LAST_NODE }
    requires books { 1 ≤ length books.old }
{
    let mut player: Player<J> = Player::new(trials.alloc, tables)?;
    for _ in 0..changes {
        try_change(trials, threads, &mut player, rng, books)?;
    }
    Ok(())
}

/// How many entries the books have together.
fn entries_of<J: Run>(books: &[Book<J>]) -> usize {
    let mut entries = 0usize;
    for book in books {
        entries = entries.saturating_add(book.entries().len());
    }
    entries
}

/// Prints how many books there are, how many entries they have, and how many nanoseconds an audit of them takes.
fn tell_time<J: Run, C: Clock>(
    trials: &Trials<'_>,
    clock: &C,
    books: &[Book<J>],
) -> Result<(), TrialFault> {
    if !distinct_sites(books) {
        return Err(TrialFault::Unexpected);
    }
    let Ok(start) = Instant::now(clock) else {
        return Err(TrialFault::Unexpected);
    };
    let found = audit(trials.alloc, books);
    let Ok(time) = start.elapsed(clock) else {
        return Err(TrialFault::Unexpected);
    };
    let (many, entries) = (books.len(), entries_of(books));
    println!(trials.rt; "{many} {entries} {} {found:?}", time.as_nanos())?;
    Ok(())
}

/// The trials of a run whose name the type has.
fn tell_run<J: Run + Send + Sync, R: Threads + Wait + Clock + Sync>(
    rt: &HostRuntime,
    threads: &R,
    problem: &Problem,
    plan: Plan,
    trial: Trial,
) -> Result<(), TrialFault>
    requires run { J.run ≡ record { problem = problem.now; nodes = plan.nodes } }
    requires some { 1 ≤ plan.nodes }
    requires most { plan.nodes ≤ LAST_NODE }
{
    let alloc = rt.alloc();
    let mut books = run_over_memory::<J, R>(threads, alloc, problem, plan)?.books;
    let trials = Trials {
        rt,
        alloc,
        nodes: plan.nodes,
    };
    let mut rng = Pcg32::new(plan.seed, 0);
    match trial {
        Trial::Changes(changes) => {
            tell_changes(&trials, threads, problem, &mut rng, &mut books, changes)
        }
        Trial::Time => tell_time(&trials, threads, &books),
        Trial::Nothing => Ok(()),
    }
}

/// Lets sites search a problem over links in memory, and does this with their books.
pub fn tell_trials<R: Threads + Wait + Clock + Sync>(
    rt: &HostRuntime,
    threads: &R,
    problem: &Problem,
    plan: Plan,
    trial: Trial,
) -> Result<(), TrialFault>
    requires some { 1 ≤ plan.nodes }
    requires most { plan.nodes ≤ LAST_NODE }
{
    tell_run::<Brand, R>(rt, threads, problem, plan, trial)
}
