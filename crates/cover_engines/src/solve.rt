//! `solve`: sites with threads of their own search a problem.

ghost use Rattle.std.specs.Prelude.{◌≡◌, ◌+◌, true, false, vec_len, IfErr, IfOk};
ghost use Rattle.run_book.specs.Runs.{IsRunEnd};
ghost use Rattle.cover_engines.specs.Audit.{AuditSays};
ghost use Rattle.search_engines.specs.Output.{IsOutputOf};
ghost use Rattle.cover_engines.specs.Solve.{run_of, RunSays};
ghost use Rattle.dlx_reader.specs.Devices.{failed_once};

use crate::audited::write_audited;
use crate::memory_share::USUAL_BOOK_BYTES;
use audit::audit;
use cover_problem::{Answer, Problem};
use dlx_reader::Sink;
use run_book::{Book, Run, a_book_tells_what_is_published};
use run_settings::Settings;
use search_engines::{EngineFault, write_published};
use std::alloc::Global;
use std::marker::Brand;
use std::mem;
use std::sync::Wait;
use std::thread::Threads;
use std::time::{Clock, Duration};
use udp_node::{EndCause, Follower, Gate, Link, Plan, SiteEnd, Timing, run_sites};

/// A problem that sites are to search, and how.
#[derive(Clone, Copy)]
pub struct SolveTask<'a> {
    /// What is searched.
    pub problem: &'a Problem,
    /// How many nodes and workers search it, and how; whether the books are audited.
    pub settings: &'a Settings<'a>,
    /// How long the run may last, if it is limited.
    pub limit: Option<Duration>,
    /// How many bytes the books of all sites may take together.
    pub book_bytes: u64,
}

/// How a run ended.
#[derive(Drop)]
pub struct SolveEnd<J: Run> {
    /// What the registry published, by its book; nothing where it published nothing, or its book is not there.
    pub answer: Option<Answer>,
    /// The books of the sites that closed.
    pub books: Vec<Book<J>>,
}

/// Lets the registry and as many nodes as the settings have search a problem over these links, the registry's first,
/// each with threads of its own; node 1 restarts as often as they say. Their books may take `USUAL_BOOK_BYTES`
/// together. The only fault is `Memory`: the run itself ran out of it, or a site did and there is no answer.
pub fn solve_engine<
    J: Run + Send + Sync,
    L: Link + Send,
    H: Gate + Follower + Sync,
    R: Threads + Wait + Clock + Sync,
>(
    rt: &R,
    alloc: Global,
    settings: &Settings,
    problem: &Problem,
    links: Vec<L>,
    hooks: &H,
) -> Result<SolveEnd<J>, EngineFault>
    requires problem { problem.now ≡ J.run.problem }
    requires nodes { settings.now.nodes ≡ J.run.nodes }
    requires links { vec_len links ≡ settings.now.nodes + 1 }
    ensures run_end { IfOk result (λ end. IsRunEnd J.run end.answer end.books.items) }
    ensures memory { IfErr result (λ fault. fault ≡ EngineFault.Memory) }
{
    let task = SolveTask {
        problem,
        settings,
        limit: None,
        book_bytes: USUAL_BOOK_BYTES,
    };
    solve_within(rt, alloc, task, links, hooks)
}

/// Lets sites search as `solve_engine` does, for so much time if it is limited: then the run ends, and there is the
/// answer that the registry published by then, or none.
fn solve_within<
    J: Run + Send + Sync,
    L: Link + Send,
    H: Gate + Follower + Sync,
    R: Threads + Wait + Clock + Sync,
>(
    rt: &R,
    alloc: Global,
    task: SolveTask<'_>,
    links: Vec<L>,
    hooks: &H,
) -> Result<SolveEnd<J>, EngineFault>
    requires problem { task.problem.now ≡ J.run.problem }
    requires nodes { task.settings.now.nodes ≡ J.run.nodes }
    requires links { vec_len links ≡ task.settings.now.nodes + 1 }
    ensures run_end { IfOk result (λ end. IsRunEnd J.run end.answer end.books.items) }
    ensures memory { IfErr result (λ fault. fault ≡ EngineFault.Memory) }
{
    let ran = run_sites(rt, alloc, task.problem, plan_of(&task), links, hooks);
    let Ok(end) = ran else {
        return Err(EngineFault::Memory);
    };
    // (an answer is right whatever became of a site, so lack of memory is a fault only without one)
    if end.answer.is_none() && has_starved(&end.sites) {
        return Err(EngineFault::Memory);
    }
    hooks.finished(end.answer.is_some());
    Ok(SolveEnd {
        answer: end.answer,
        books: end.books,
    })
}

/// The plan of a run with these settings, and so much time if it is limited.
fn plan_of(task: &SolveTask<'_>) -> Plan
    ensures { result ≡ record {
      workers = task.now.settings.now.workers;
      nodes = task.now.settings.now.nodes;
      fuel = task.now.settings.now.fuel;
      seed = task.now.settings.now.seed;
      turns = task.now.settings.now.turns;
      timing = Timing.USUAL;
      entries = task.now.settings.now.entries;
      book_bytes = task.now.book_bytes;
      restarts = task.now.settings.now.restarts;
      limit = task.now.limit;
    } }
{
    let settings = task.settings;
    Plan {
        workers: settings.workers,
        nodes: settings.nodes,
        fuel: settings.fuel,
        seed: settings.seed,
        turns: u64::from(settings.turns),
        timing: Timing::USUAL,
        entries: u64::from(settings.entries),
        book_bytes: task.book_bytes,
        // (at most 100 by the type of the settings)
        restarts: settings.restarts as u8,
        limit: task.limit,
    }
}

/// Whether a site ended since it ran out of memory.
fn has_starved(sites: &[SiteEnd]) -> bool {
    sites
        .iter()
        .any(|site| matches!(site.cause, EndCause::Memory))
}

/// Lets sites search the problem that the type names, writes what the registry published, and returns the status.
fn write_run<
    J: Run + Send + Sync,
    L: Link + Send,
    H: Gate + Follower + Sync,
    W: Sink,
    R: Threads + Wait + Clock + Sync,
>(
    rt: &R,
    alloc: Global,
    task: SolveTask<'_>,
    links: Vec<L>,
    hooks: &H,
    sink: &mut W,
) -> Result<u8, EngineFault>
    requires run { J.run ≡ record { problem = task.problem.now; nodes = task.settings.now.nodes } }
    requires links { vec_len links ≡ task.settings.now.nodes + 1 }
    ensures output { IsOutputOf (RunSays J.run) (W.contents sink.old) (W.contents sink.new) result }
    ensures failed { result ≡ Err EngineFault.Write → W.failed sink.new ≡ failed_once (W.failed sink.old) }
{
    let problem = task.problem;
    let end: SolveEnd<J> = solve_within(rt, alloc, task, links, hooks)?;
    // (nobody reads them, and the process ends soon: given back one by one, their many small pieces would draw out its
    // end)
    mem::forget(end.books);
    write_published(problem, end.answer.as_ref(), sink)
}

/// Lets sites search the problem that the type names, audits their books, writes what the registry published and what
/// was found, and returns the status. Nothing is written before the audit ends.
fn write_audited_run<
    J: Run + Send + Sync,
    L: Link + Send,
    H: Gate + Follower + Sync,
    W: Sink,
    R: Threads + Wait + Clock + Sync,
>(
    rt: &R,
    alloc: Global,
    task: SolveTask<'_>,
    links: Vec<L>,
    hooks: &H,
    sink: &mut W,
) -> Result<u8, EngineFault>
    requires run { J.run ≡ record { problem = task.problem.now; nodes = task.settings.now.nodes } }
    requires links { vec_len links ≡ task.settings.now.nodes + 1 }
    ensures output { IsOutputOf (AuditSays J.run) (W.contents sink.old) (W.contents sink.new)
        result }
    ensures failed { result ≡ Err EngineFault.Write → W.failed sink.new ≡ failed_once (W.failed sink.old) }
{
    // (a law, empty at run time: it ties the answer that is written to the books that are audited)
    a_book_tells_what_is_published();
    let problem = task.problem;
    let end: SolveEnd<J> = solve_within(rt, alloc, task, links, hooks)?;
    let found = audit(alloc, &end.books);
    write_audited(alloc, problem, end.answer.as_ref(), found, sink)
}

/// Lets sites search a problem, as `solve_engine` does, writes what the registry published, or `no answer` where it
/// published nothing, and returns the status: 0 for a cover, 1 for none, 4 for no answer. A run with a limit ends once
/// that time is over.
///
/// Where the settings ask for an audit, the books of the run are audited before anything is written, and a line of what
/// was found follows: `audit clean`, and the answer is right whatever the network delivered, or `audit unclean` with
/// the cause, and the status is 6.
///
/// The faults are `Write`, where the sink failed, and `Memory`. After `Write` a beginning of the text was written,
/// after `Memory` nothing. Books that aren't audited take their memory until the process ends.
pub fn solve_problem<
    L: Link + Send,
    H: Gate + Follower + Sync,
    W: Sink,
    R: Threads + Wait + Clock + Sync,
>(
    rt: &R,
    alloc: Global,
    task: SolveTask<'_>,
    links: Vec<L>,
    hooks: &H,
    sink: &mut W,
) -> Result<u8, EngineFault>
    requires links { vec_len links ≡ task.settings.now.nodes + 1 }
    ensures output { task.entry.settings.now.audit ≡ false →
        IsOutputOf (RunSays (run_of task.entry.problem.now task.entry.settings.now)) (W.contents sink.old)
        (W.contents sink.new) result }
    ensures audited { task.entry.settings.now.audit ≡ true →
        IsOutputOf (AuditSays (run_of task.entry.problem.now task.entry.settings.now)) (W.contents sink.old)
        (W.contents sink.new) result }
    ensures failed { result ≡ Err EngineFault.Write → W.failed sink.new ≡ failed_once (W.failed sink.old) }
{
    if task.settings.audit {
        // (a type names the run in the contracts of books and sites: here Brand gets the name of this one)
        return write_audited_run::<Brand, L, H, W, R>(rt, alloc, task, links, hooks, sink);
    }
    write_run::<Brand, L, H, W, R>(rt, alloc, task, links, hooks, sink)
}
