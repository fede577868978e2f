//! Times the calls of a ledger that has many units.

use crate::cores::fault::BenchFault;
use crate::cores::many_units::{CALLS, Call, ManyUnits, REDONE};
use std::alloc::Global;
use std::time::{Clock, Duration, Instant};

/// What some calls took together.
#[derive(Clone, Copy)]
pub struct Row {
    /// Their name.
    pub name: &'static str,
    /// How many they were.
    pub calls: u32,
    /// The time of all.
    pub time: Duration,
}

/// A call that is timed: in each round so often, after what has to be there was made ready.
#[derive(Clone, Copy)]
struct Case {
    name: &'static str,
    call: Call,
    rounds: u32,
    calls: u32,
}

/// A call that is timed in one round, so often.
fn one_round(name: &'static str, call: Call, calls: u32) -> Case {
    Case {
        name,
        call,
        rounds: 1,
        calls,
    }
}

/// Times the calls of a ledger with so many own children, most of which are done.
pub fn measure_children<C: Clock>(
    clock: &C,
    alloc: Global,
    children: u32,
) -> Result<Vec<Row>, BenchFault> {
    let ended = children.saturating_sub(KEPT);
    let cases = [
        one_round("take and set_result", Call::EndNext, ended),
        one_round("take", Call::Take, CALLS),
        one_round("set_result", Call::SetResult, CALLS),
        one_round("give", Call::Give, CALLS),
        one_round("redo", Call::Redo, REDONE),
        one_round("spawn", Call::Spawn, CALLS),
        Case {
            name: "finish",
            call: Call::Finish,
            rounds: CALLS,
            calls: 1,
        },
        one_round("receive_refuse", Call::ReceiveRefuse, CALLS),
        one_round("learn_members", Call::LearnMembers, CALLS),
    ];
    time_all(
        clock,
        alloc,
        &mut ManyUnits::of_children(alloc, children)?,
        &cases,
    )
}

/// Times the calls of a ledger with so many guests, all of which are settled in the end.
pub fn measure_guests<C: Clock>(
    clock: &C,
    alloc: Global,
    guests: u32,
) -> Result<Vec<Row>, BenchFault> {
    let cases = [
        one_round("receive_give", Call::ReceiveGive, guests),
        one_round("take", Call::Take, guests),
        one_round("set_result", Call::SetResult, guests),
        one_round("receive_accept", Call::ReceiveAccept, guests),
        one_round("learn_members", Call::LearnMembers, CALLS),
    ];
    time_all(clock, alloc, &mut ManyUnits::new(alloc)?, &cases)
}

/// Times these cases, one after the other.
fn time_all<C: Clock>(
    clock: &C,
    alloc: Global,
    units: &mut ManyUnits,
    cases: &[Case],
) -> Result<Vec<Row>, BenchFault> {
    let mut rows = Vec::new(alloc);
    for case in cases {
        rows.push(time_case(clock, units, *case)?)?;
    }
    Ok(rows)
}

/// Times all rounds of a case.
fn time_case<C: Clock>(clock: &C, units: &mut ManyUnits, case: Case) -> Result<Row, BenchFault> {
    let mut time = Duration::ZERO;
    for _ in 0..case.rounds {
        units.prepare(case.call)?;
        time = time.saturating_add(time_round(clock, units, case)?);
    }
    Ok(Row {
        name: case.name,
        calls: case.rounds.saturating_mul(case.calls),
        time,
    })
}

/// Times a round of a case.
fn time_round<C: Clock>(
    clock: &C,
    units: &mut ManyUnits,
    case: Case,
) -> Result<Duration, BenchFault> {
    let Ok(start) = Instant::now(clock) else {
        return Err(BenchFault::Clock);
    };
    units.call(case.call, case.calls)?;
    match start.elapsed(clock) {
        Ok(time) => Ok(time),
        Err(_) => Err(BenchFault::Clock),
    }
}

/// How many children stay ready in a large table.
const KEPT: u32 = 200;
