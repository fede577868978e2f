//! Cores, cells and ledgers, over and over, for benches.
//!
//! `workbench act KIND TIMES` lets cores take events, so many times over; `workbench copy KIND TIMES` only copies the
//! packets that go with them. A KIND is `cycle`, a steal from the first packet to the last, `share-1`, `share-2` or
//! `share-8`, a Steal with the Give of so many children, or the name of a packet that is delivered. `bench/cores.py`
//! takes the times of both.
//!
//! `workbench greet THREADS TIMES` lets so many threads greet at one cell, each so many times; with 0 threads a core
//! without a lock. `bench/cells.py` takes their times.
//!
//! `workbench table UNITS` times the calls of a ledger with so many own children, `workbench guests UNITS` of one with
//! so many guests: a line for each call, how often it was called, and the nanoseconds of all. `bench/table.py` reads
//! them.

mod cells;
mod cycle;
mod deliveries;
mod fault;
mod many_units;
mod shares;
mod table;

use crate::cores::cells::{greet_cell, greet_core};
use crate::cores::cycle::{act_cycles, copy_packets, packets};
use crate::cores::deliveries::{act_deliveries, packet_of};
use crate::cores::fault::BenchFault;
use crate::cores::shares::{act_shares, one_item, share_in, share_packets};
use crate::cores::table::{measure_children, measure_guests};
use std::alloc::Global;
use std::io;
use std::sync::Wait;
use std::thread::Threads;
use std::time::Clock;

/// Lets cores take the events of this kind so many times.
fn act(alloc: Global, kind: &str, times: u64) -> Result<(), BenchFault> {
    if let Some(share) = share_in(kind) {
        return act_shares(alloc, share, times);
    }
    // One item and no option: the search of the root is short, and there is no cover.
    let problem = one_item(alloc, 0)?;
    if kind == "cycle" {
        return act_cycles(alloc, &problem, times);
    }
    act_deliveries(alloc, &problem, kind, times)
}

/// Copies the packets of this kind so many times.
fn copy(alloc: Global, kind: &str, times: u64) -> Result<(), BenchFault> {
    if let Some(share) = share_in(kind) {
        return copy_packets(alloc, &share_packets(alloc, share)?, times);
    }
    if kind == "cycle" {
        return copy_packets(alloc, &packets(alloc), times);
    }
    copy_packets(alloc, &[packet_of(alloc, kind)?], times)
}

/// Runs a count.
fn count(alloc: Global, what: &str, kind: &str, times: &str) -> Result<(), BenchFault> {
    let Ok(times) = times.parse::<u64>() else {
        return Err(BenchFault::Unexpected);
    };
    match what {
        "act" => act(alloc, kind, times),
        "copy" => copy(alloc, kind, times),
        _ => Err(BenchFault::Unexpected),
    }
}

/// Greets at a cell from so many threads, or at a core without a lock.
fn greet<R: Threads + Wait + Sync>(
    rt: &R,
    alloc: Global,
    threads: &str,
    times: &str,
) -> Result<(), BenchFault> {
    let (Ok(threads), Ok(times)) = (threads.parse::<u8>(), times.parse::<u64>()) else {
        return Err(BenchFault::Unexpected);
    };
    let problem = one_item(alloc, 0)?;
    if threads == 0 {
        return greet_core(alloc, &problem, times);
    }
    greet_cell(rt, alloc, &problem, threads, times)
}

/// Times the calls of a ledger with so many children, or guests.
fn time_calls(rt: &HostRuntime, what: &str, units: &str) -> io::Result<Result<(), BenchFault>> {
    let Ok(units) = units.parse::<u32>() else {
        return Ok(Err(BenchFault::Unexpected));
    };
    let measured = match what {
        "table" => measure_children(rt, rt.alloc(), units),
        "guests" => measure_guests(rt, rt.alloc(), units),
        _ => Err(BenchFault::Unexpected),
    };
    match measured {
        Ok(rows) => {
            for row in &rows {
                println!(rt; "{},{},{}", row.name, row.calls, row.time.as_nanos())?;
            }
            Ok(Ok(()))
        }
        Err(fault) => Ok(Err(fault)),
    }
}

/// Does what the words ask for, and returns the exit status; prints why it doesn't, and returns none, where they ask
/// for something else.
pub fn command<R: Threads + Wait + Sync>(
    rt: &HostRuntime,
    threads: &R,
    what: &str,
    words: &[String],
) -> io::Result<Option<u8>> {
    let counted = match words {
        [many, times] if what == "greet" => greet(threads, rt.alloc(), many, times),
        [units] => time_calls(rt, what, units)?,
        [kind, times] => count(rt.alloc(), what, kind, times),
        _ => Err(BenchFault::Unexpected),
    };
    match counted {
        Ok(()) => Ok(Some(0)),
        Err(fault) => {
            println!(rt; "{fault:?}")?;
            Ok(None)
        }
    }
}
