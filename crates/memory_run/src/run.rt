//! A run of one node in memory.

ghost use Rattle.std.specs.Prelude.{◌≡◌, ◌+◌, ◌≤◌, vec_len, Some, IfOk, IfSome};
ghost use Rattle.cover_problem.specs.Problem.{Problem as ProblemValue};
ghost use Rattle.memory_run.specs.Settled.{IsSettled};
ghost use Rattle.run_book.specs.Runs.{IsRunEnd};

use crate::waiting_link::{WaitingLink, Wakers};
use audit::{Clean, Unclean, audit};
use cover_engines::{SolveEnd, solve_engine};
use cover_problem::{Answer, Problem};
use run_book::{Book, Run, a_book_tells_what_is_published};
use run_settings::{Mode, Settings};
use search_engines::EngineFault;
use std::alloc::{AllocError, Global};
use std::marker::Brand;
use std::sync::atomic::AtomicBool;
use std::sync::{Arc, Wait};
use std::thread::Threads;
use std::time::Clock;
use udp_node::{MemoryLink, Open, Wires};

/// By how many visits the jobs of a run are measured, as by `solve` without `--fuel`.
const FUEL: u64 = 1_000;

/// How many entries a site's book may have. Both books may take `USUAL_BOOK_BYTES` together.
const ENTRIES: u32 = 1_000_000;

/// The settings of a run of one node with so many workers.
fn settings(workers: u8) -> Settings<'static>
    requires some { 1 ≤ workers }
    requires most { workers ≤ 8 }
    ensures { result.nodes ≡ 1 }
{
    Settings {
        mode: Mode::Solve,
        file: "",
        answer: None,
        fuel: FUEL,
        nodes: 1,
        seed: 0,
        workers,
        turns: 10_000_000,
        entries: ENTRIES,
        restarts: 0,
        audit: false,
    }
}

/// The links of the registry and of one node. The only error is out of memory.
fn links<'a, 'b>(
    alloc: Global,
    wakers: &'a Wakers,
    over: &'b AtomicBool,
) -> Result<Vec<WaitingLink<'a, 'b>>, AllocError>
    ensures { IfOk result (λ links. vec_len links ≡ 2) }
{
    let wires = Arc::new(alloc, Wires::new(alloc, 2)?)?;
    let registry = MemoryLink::new(Arc::try_clone(&wires)?, 0);
    let node = MemoryLink::new(wires, 1);
    let mut links = Vec::with_capacity(alloc, 2)?;
    links.push(WaitingLink::new(registry, 0, wakers, over))?;
    links.push(WaitingLink::new(node, 1, wakers, over))?;
    Ok(links)
}

/// The answer of a run's end, if it is believed: the registry has counted a cover, and where it found none the audit of
/// the books says whether they are one run of the world. The only error is out of memory.
#[tactic(auto, using(crate::proofs::Settling::none_is_settled, crate::proofs::Settling::cover_is_settled))]
fn settled<J: Run>(
    alloc: Global,
    answer: Option<Answer>,
    books: &[Book<J>],
) -> Result<Option<Answer>, AllocError>
    requires { IsRunEnd J.run answer books.now }
    ensures { IfOk result (λ found. IfSome found (IsSettled J.run.problem)) }
{
    // (a law, empty at run time: it ties the answer to the books that are audited)
    a_book_tells_what_is_published();
    match answer {
        Some(Answer::NoCover) => match audit(alloc, books) {
            Ok(Clean) => Ok(Some(Answer::NoCover)),
            Err(Unclean::Memory) => Err(AllocError),
            Err(_) => Ok(None),
        },
        Some(Answer::Cover(options)) => Ok(Some(Answer::Cover(options))),
        None => Ok(None),
    }
}

/// Lets the run that the type names search the problem.
fn run_named<J: Run + Send + Sync, R: Threads + Wait + Clock + Sync>(
    rt: &R,
    alloc: Global,
    problem: &Problem,
    workers: u8,
    over: &AtomicBool,
) -> Result<Option<Answer>, AllocError>
    requires run { J.run ≡ record { problem = problem.now; nodes = 1 } }
    requires some { 1 ≤ workers }
    requires most { workers ≤ 8 }
    ensures { IfOk result (λ found. IfSome found (IsSettled problem.now)) }
{
    let wakers = Wakers::new();
    let links = links(alloc, &wakers, over)?;
    let settings = settings(workers);
    let solved: Result<SolveEnd<J>, EngineFault> = solve_engine(
        rt, alloc, &settings, problem, links, &Open,
    );
    match solved {
        Ok(SolveEnd { answer, books }) => settled(alloc, answer, &books),
        Err(_) => Err(AllocError),
    }
}

/// Searches the problem by one node with so many workers, which have threads of their own, and a registry; all of them
/// are in this process and speak over memory, so nobody else is heard. Returns the answer that the registry published,
/// if it is one to believe; none once `over` is raised, soon after, or where the run can't go on. The only error is out
/// of memory.
pub fn run_in_memory<R: Threads + Wait + Clock + Sync>(
    rt: &R,
    alloc: Global,
    problem: &Problem,
    workers: u8,
    over: &AtomicBool,
) -> Result<Option<Answer>, AllocError>
    requires some { 1 ≤ workers }
    requires most { workers ≤ 8 }
    ensures { IfOk result (λ found. IfSome found (IsSettled problem.now)) }
{
    // (a type names the run in the contracts of books and sites: here Brand gets the name of this one)
    run_named::<Brand, R>(rt, alloc, problem, workers, over)
}
