//! A cell under load: threads that greet at once, beside a core without a lock.

ghost use Rattle.std.specs.Prelude.{◌≡◌, ◌≤◌};
ghost use Rattle.run_book.specs.Sites.{opening_of, IsRun, MayBeginIn};

use crate::cores::cycle::NODE;
use crate::cores::fault::BenchFault;
use cover_problem::Problem;
use node_core::{Core, Event, NodeCore};
use run_book::{BookFault, CellName, CellParts, Run, Seat, SiteCell, cores_step_as_their_sites};
use std::alloc::Global;
use std::marker::Brand;
use std::sync::Wait;
use std::thread::{self, Threads};

/// Lets a core of a node greet so many times.
pub fn greet_core(alloc: Global, problem: &Problem, times: u64) -> Result<(), BenchFault> {
    greet_often(
        alloc,
        &mut NodeCore::start(alloc, problem, NODE, 1, 1)?,
        times,
    )
}

/// Lets a core greet so many times.
fn greet_often<C: Core>(alloc: Global, core: &mut C, times: u64) -> Result<(), BenchFault> {
    let mut out = Vec::new(alloc);
    for _ in 0..times {
        core.act(Event::Greet, &mut out)?;
        out.clear();
    }
    Ok(())
}

/// Lets so many threads greet at one cell at once, each so many times.
pub fn greet_cell<R: Threads + Wait + Sync>(
    rt: &R,
    alloc: Global,
    problem: &Problem,
    threads: u8,
    times: u64,
) -> Result<(), BenchFault> {
    problem.recall_rules();
    let core = NodeCore::start(alloc, problem, NODE, 1, 1)?;
    let cell_parts = CellParts::new(alloc)?;
    greet_at_once::<Brand, Brand, R>(rt, alloc, cell_parts, core, threads, times)
}

/// The same with the names of the run and of the cell.
fn greet_at_once<J: Run + Send + Sync, N: CellName + Send + Sync, R: Threads + Wait + Sync>(
    rt: &R,
    alloc: Global,
    cell_parts: CellParts,
    core: NodeCore,
    threads: u8,
    times: u64,
) -> Result<(), BenchFault>
    requires here { cell_parts ≡ record { table = N.table; name = N.name } }
    requires parts { N.parts ≡ 18446744073709551615 }
    requires run { IsRun J.run }
    requires begins { MayBeginIn J.run N.site N.limit }
    requires node { 1 ≤ N.site.node }
    requires core { core ≡ record {
      problem = J.run.problem;
      view = opening_of J.run N.site N.limit;
    } }
{
    cores_step_as_their_sites();
    let limit = times.saturating_mul(u64::from(threads));
    let cell: SiteCell<J, NodeCore, N> = SiteCell::new(cell_parts, core, limit);
    let seats = seats_of(rt, alloc, &cell, threads)?;
    match thread::map_vec(rt, seats, &|seat| greet(rt, &cell, seat, times)) {
        Ok(ended) => all_well(ended),
        Err(_) => Err(BenchFault::Memory),
    }
}

/// A seat of the cell for each thread.
fn seats_of<J: Run, C: Core + Drop, N: CellName, R: Wait>(
    rt: &R,
    alloc: Global,
    cell: &SiteCell<J, C, N>,
    threads: u8,
) -> Result<Vec<Seat<N>>, BenchFault> {
    let mut seats = Vec::new(alloc);
    for _ in 0..threads {
        if seats.push(cell.seat(rt)?).is_err() {
            return Err(BenchFault::Memory);
        }
    }
    Ok(seats)
}

/// The first fault, if any thread met one.
fn all_well(ended: Vec<Result<(), BenchFault>>) -> Result<(), BenchFault> {
    for end in ended {
        end?;
    }
    Ok(())
}

/// Greets at the cell so many times; the receipts are let go.
fn greet<J: Run, C: Core + Drop, N: CellName, R: Wait>(
    rt: &R,
    cell: &SiteCell<J, C, N>,
    seat: Seat<N>,
    times: u64,
) -> Result<(), BenchFault> {
    let mut seat = seat;
    for _ in 0..times {
        match cell.act(rt, seat, Event::Greet) {
            Ok((kept, _receipt)) => seat = kept,
            Err((_seat, _event, fault)) => return Err(fault_of(fault)),
        }
    }
    Ok(())
}

/// A cell's fault as one of a count: it has room for all.
fn fault_of(fault: BookFault) -> BenchFault {
    match fault {
        BookFault::Core(fault) => BenchFault::Act(fault),
        BookFault::BookFull(_) | BookFault::Memory => BenchFault::Memory,
    }
}
