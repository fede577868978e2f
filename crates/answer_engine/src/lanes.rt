//! The lanes of a race: each gives a right answer, or none where another was first or the time is over.

ghost use Rattle.std.specs.Prelude.{◌≤◌, IfOk, IfSome};
ghost use Rattle.answer_engine.specs.Answers.{IsRight, IsWonOf};
ghost use Rattle.learner.specs.Found.{IsTrueOf};

use crate::basis::{Basis, Won};
use crate::race::{Race, workers_of};
use crate::race_watches::{LaneWatch, SearchLaneWatch};
use cover_problem::{Answer, Problem};
use cover_reasons::ReasonWatch;
use learner::{Found, LearnerWatch, Settings, find_cover};
use memory_run::run_in_memory;
use reason_engine::find_cause_until;
use search_engines::{EndWatch, search_until};
use std::alloc::{AllocError, Global};
use std::sync::Wait;
use std::sync::atomic::AtomicBool;
use std::thread::Threads;
use std::time::Clock;

/// Searches as `search_until` does, keeping states, and returns the answer; none where the watch stopped it. The only
/// error is out of memory.
#[tactic(auto, using(crate::proofs::Firsts::search_is_won))]
pub(crate) fn search_keeping_states<V: EndWatch, C: Clock>(
    alloc: Global,
    problem: &Problem,
    watch: &mut SearchLaneWatch<'_, '_, '_, V, C>,
) -> Result<Option<Won>, AllocError>
    ensures { IfOk result (λ found. IfSome found (IsWonOf problem.now)) }
{
    match search_until(alloc, problem, watch)? {
        Some(answer) => {
            let basis = Basis::Search(watch.states);
            Ok(Some(Won { answer, basis }))
        }
        None => Ok(None),
    }
}

/// The lane of the search. The only error is out of memory.
pub(crate) fn search_lane<V: EndWatch, C: Clock>(
    alloc: Global,
    problem: &Problem,
    watch: &mut SearchLaneWatch<'_, '_, '_, V, C>,
) -> Result<Option<Won>, AllocError>
    ensures { IfOk result (λ found. IfSome found (IsWonOf problem.now)) }
{
    let race = watch.race;
    race.begin();
    let found = search_keeping_states(alloc, problem, watch);
    // (where it has no answer it was stopped, by another lane's answer or because the time is over)
    if found.is_ok() {
        race.end();
    }
    found
}

/// What a learner found is an answer, or none where it was stopped.
fn answer_of(problem: &Problem, found: Found) -> Option<Answer>
    requires { IsTrueOf problem.now found }
    ensures { IfSome result (IsRight problem.now) }
{
    match found {
        Found::Cover(options) => Some(Answer::Cover(options)),
        Found::NoCover => Some(Answer::NoCover),
        Found::Stopped => None,
    }
}

/// Looks for a cover by learning. The only error is out of memory.
#[tactic(auto, using(crate::proofs::Firsts::right_is_won))]
fn learn<L: LearnerWatch>(
    alloc: Global,
    problem: &Problem,
    watch: &mut L,
) -> Result<Option<Won>, AllocError>
    ensures { IfOk result (λ found. IfSome found (IsWonOf problem.now)) }
{
    let (found, figures) = find_cover(alloc, problem, Settings::new(), watch)?;
    match answer_of(problem, found) {
        Some(answer) => {
            // (each conflict teaches one clause)
            let basis = Basis::Learning(figures.conflicts);
            Ok(Some(Won { answer, basis }))
        }
        None => Ok(None),
    }
}

/// The lane of the learner, which begins a tenth of a second after the search. Where its clauses have no room left it
/// ends without an answer. The only error is out of memory.
pub(crate) fn learner_lane<R: Wait, L: LearnerWatch>(
    rt: &R,
    alloc: Global,
    problem: &Problem,
    race: &Race,
    watch: &mut L,
) -> Result<Option<Won>, AllocError>
    ensures { IfOk result (λ found. IfSome found (IsWonOf problem.now)) }
{
    if !race.await_learning(rt) {
        return Ok(None);
    }
    let found = learn(alloc, problem, watch);
    if let Ok(Some(_)) = &found {
        race.end();
    }
    found
}

/// Looks for a reason why there is no cover until the watch ends that. Where memory runs out none is found, and that is
/// no error: a search may need less.
#[tactic(auto, using(crate::proofs::Firsts::cause_is_won))]
fn find_reason<W: ReasonWatch>(alloc: Global, problem: &Problem, watch: &mut W) -> Option<Won>
    ensures { IfSome result (IsWonOf problem.now) }
{
    match find_cause_until(alloc, problem, watch) {
        Ok(Some(cause)) => Some(Won {
            answer: Answer::NoCover,
            basis: Basis::Reason(cause),
        }),
        Ok(None) | Err(_) => None,
    }
}

/// Runs so many workers in memory and returns their answer, if they come to one.
fn run_workers<R: Threads + Wait + Clock + Sync>(
    rt: &R,
    alloc: Global,
    problem: &Problem,
    workers: u8,
    over: &AtomicBool,
) -> Option<Won>
    requires some { 1 ≤ workers }
    requires most { workers ≤ 8 }
    ensures { IfSome result (IsWonOf problem.now) }
{
    match run_in_memory(rt, alloc, problem, workers, over) {
        Ok(Some(answer)) => Some(Won {
            answer,
            basis: Basis::Run(u64::from(workers)),
        }),
        // (where memory runs out for it, the other lanes may go on)
        Ok(None) | Err(_) => None,
    }
}

/// Runs so many workers as `run_workers` does, if there are any. They begin some time after a reason was looked for in
/// vain, so a tenth of a second after the search at the earliest.
fn run_workers_later<R: Threads + Wait + Clock + Sync>(
    rt: &R,
    alloc: Global,
    problem: &Problem,
    workers: u8,
    race: &Race,
) -> Option<Won>
    requires { workers ≤ 8 }
    ensures { IfSome result (IsWonOf problem.now) }
{
    if workers == 0 || !race.await_run(rt) {
        return None;
    }
    run_workers(rt, alloc, problem, workers, race.over())
}

/// The lane of a reason, and then of a run in memory if so many threads are more than the other lanes need. Where
/// memory runs out for it, or the run's books are full, it ends without an answer.
pub(crate) fn run_lane<R: Threads + Wait + Clock + Sync>(
    rt: &R,
    alloc: Global,
    problem: &Problem,
    threads: u64,
    watch: &mut LaneWatch<'_, '_, R>,
) -> Option<Won>
    ensures { IfSome result (IsWonOf problem.now) }
{
    let race = watch.race;
    if !race.await_reason(rt, threads) {
        return None;
    }
    let found = match find_reason(alloc, problem, watch) {
        Some(won) => Some(won),
        None => run_workers_later(rt, alloc, problem, workers_of(threads), race),
    };
    if found.is_some() {
        race.end();
    }
    found
}
