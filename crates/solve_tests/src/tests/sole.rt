//! A board on which states repeat so often that one worker of a node is enough.
//!
//! Of the bugs of `udp_node` that are kept outside the gate, `one_worker_is_enough` finds `workers_never_work_alone`.

use super::held::answers;
use super::sized;
use spawn_frame::Job;
use std::alloc::{AllocError, Global};
use std::sync::atomic::{AtomicU64, Ordering};
use std::test::Fail;
use udp_node::{Follower, Gate};

/// How many rows and columns the board has: its search has more visits than one job may have.
const SIDE: u32 = 14;

/// Whether a cell is on the board without two opposite corners.
fn is_on(row: u32, column: u32) -> bool {
    row < SIDE && column < SIDE && (row, column) != (0, 0) && (row, column) != (SIDE - 1, SIDE - 1)
}

/// The options of a cell: a domino to the right, and one down.
fn push_dominoes(
    text: &mut String,
    alloc: Global,
    (row, column): (u32, u32),
) -> Result<(), AllocError> {
    let (below, beside) = (row.saturating_add(1), column.saturating_add(1));
    if is_on(row, beside) {
        text.push_str(format!(in alloc; "\n{row}-{column} {row}-{beside}")?.as_str())?;
    }
    if is_on(below, column) {
        text.push_str(format!(in alloc; "\n{row}-{column} {below}-{column}")?.as_str())?;
    }
    Ok(())
}

/// A board without two opposite corners, which dominoes can't fill.
fn board(alloc: Global) -> Result<String, AllocError> {
    let mut head = String::new(alloc);
    let mut text = String::new(alloc);
    for cell in 0..SIDE * SIDE {
        let (row, column) = (cell / SIDE, cell % SIDE);
        if is_on(row, column) {
            head.push_str(format!(in alloc; "{row}-{column} ")?.as_str())?;
            push_dominoes(&mut text, alloc, (row, column))?;
        }
    }
    head.push_str(text.as_str())?;
    Ok(head)
}

/// A gate that lets all pass, and counts what the worker posts that was the first, and what the others do.
#[derive(Drop)]
struct Posts {
    /// The first one's number, counted from 1.
    first: AtomicU64,
    by_first: AtomicU64,
    by_others: AtomicU64,
}

impl Gate for Posts {
    fn posted(&self, worker: u8, _job: &Job) {
        let number = u64::from(worker) + 1;
        let _ = self
            .first
            .compare_exchange(0, number, Ordering::SeqCst, Ordering::SeqCst);
        let posts = if self.first.load(Ordering::SeqCst) == number {
            &self.by_first
        } else {
            &self.by_others
        };
        posts.fetch_add(1, Ordering::SeqCst);
    }
}

impl Follower for Posts {}

#[test]
fn one_worker_is_enough(rt: HostRuntime) -> Result<(), Fail> {
    let gate = Posts {
        first: AtomicU64::new(0),
        by_first: AtomicU64::new(0),
        by_others: AtomicU64::new(0),
    };
    let text = board(rt.alloc())?;
    assert!(rt;
        answers(
            &rt,
            rt.alloc(),
            text.as_str(),
            &sized(1, 4, 1_000, 1),
            &gate
        )?
    );
    let by_first = gate.by_first.load(Ordering::SeqCst);
    let by_others = gate.by_others.load(Ordering::SeqCst);
    assert!(rt;
        by_first > 50 && by_others.saturating_mul(10) < by_first,
        "{by_first} and {by_others}"
    );
    Ok(())
}
