//! The lane of a search that something hears of, so that it can be written down why there is no cover.

ghost use Rattle.std.specs.Prelude.{IfOk, IfSome};
ghost use Rattle.answer_engine.specs.Answers.{IsWonOf};

use crate::basis::{Basis, Won};
use crate::lanes::search_keeping_states;
use crate::race::{Race, short_limit};
use crate::race_watches::SearchLaneWatch;
use brancher::Unwatched;
use cover_problem::{Answer, Problem};
use cover_reasons::{ReasonWatch, find_reason_until};
use decider::Trace;
use reason_engine::Cause;
use search_engines::{EndWatch, ReasonListener, certified_until};
use std::alloc::{AllocError, Global};
use std::time::Clock;

/// Returns whether it is a cover.
fn is_cover(found: &Option<Won>) -> bool {
    match found {
        Some(won) => matches!(won.answer, Answer::Cover(_)),
        None => false,
    }
}

/// Searches unheard within the time that the search has before other lanes begin, and returns the answer, if it came to
/// one. The only error is out of memory.
fn search_briefly<C: Clock>(
    clock: &C,
    race: &Race,
    alloc: Global,
    problem: &Problem,
) -> Result<Option<Won>, AllocError>
    ensures { IfOk result (λ found. IfSome found (IsWonOf problem.now)) }
{
    let inner = &mut Unwatched;
    let mut short = SearchLaneWatch {
        clock,
        race,
        time: Some(short_limit(clock)),
        inner,
        states: 0,
    };
    search_keeping_states(alloc, problem, &mut short)
}

/// Searches, keeping states, while the listener hears of each step, and returns the answer; none where the watch
/// stopped it. The only error is out of memory.
#[tactic(auto, using(crate::proofs::Firsts::search_is_won))]
fn search_heard<V: EndWatch, T: Trace + ReasonListener, C: Clock>(
    alloc: Global,
    problem: &Problem,
    watch: &mut SearchLaneWatch<'_, '_, '_, V, C>,
    listener: &mut T,
) -> Result<Option<Won>, AllocError>
    ensures { IfOk result (λ found. IfSome found (IsWonOf problem.now)) }
{
    match certified_until(watch.clock, alloc, problem, watch, listener)? {
        Some(answer) => {
            let basis = Basis::Search(watch.states);
            Ok(Some(Won { answer, basis }))
        }
        None => Ok(None),
    }
}

/// Looks for a reason of the problem as it stands until the watch ends that: no line of a certificate says any other.
/// The listener hears of it. Where memory runs out none is found, and that is no error.
#[tactic(auto, using(crate::proofs::Firsts::cause_is_won))]
fn find_reason_heard<W: ReasonWatch, T: ReasonListener>(
    alloc: Global,
    problem: &Problem,
    watch: &mut W,
    listener: &mut T,
) -> Option<Won>
    ensures { IfSome result (IsWonOf problem.now) }
{
    match find_reason_until(alloc, problem, watch) {
        Ok(Some(reason)) => {
            listener.hears(&reason);
            Some(Won {
                answer: Answer::NoCover,
                basis: Basis::Reason(Cause::AsItStands(reason)),
            })
        }
        Ok(None) | Err(_) => None,
    }
}

/// The answer of a short search if that is a cover, of a reason that excludes covers, or of a search that the listener
/// hears of. The only error is out of memory.
fn search_briefly_then_heard<V: EndWatch, T: Trace + ReasonListener, C: Clock>(
    alloc: Global,
    problem: &Problem,
    watch: &mut SearchLaneWatch<'_, '_, '_, V, C>,
    listener: &mut T,
) -> Result<Option<Won>, AllocError>
    ensures { IfOk result (λ found. IfSome found (IsWonOf problem.now)) }
{
    // (most covers are found so soon, and lines about them would be thrown away)
    let short = search_briefly(watch.clock, watch.race, alloc, problem)?;
    if is_cover(&short) {
        return Ok(short);
    }
    if short.is_none() {
        if let Some(won) = find_reason_heard(alloc, problem, watch, listener) {
            return Ok(Some(won));
        }
    }
    search_heard(alloc, problem, watch, listener)
}

/// The lane of a search that the listener hears of, and of a reason. The only error is out of memory.
pub(crate) fn heard_search_lane<V: EndWatch, T: Trace + ReasonListener, C: Clock>(
    alloc: Global,
    problem: &Problem,
    watch: &mut SearchLaneWatch<'_, '_, '_, V, C>,
    listener: &mut T,
) -> Result<Option<Won>, AllocError>
    ensures { IfOk result (λ found. IfSome found (IsWonOf problem.now)) }
{
    let race = watch.race;
    race.begin();
    let found = search_briefly_then_heard(alloc, problem, watch, listener);
    // (where it has no answer it was stopped, by another lane's answer or because the time is over)
    if found.is_ok() {
        race.end();
    }
    found
}
