//! The answer to a problem by a search alone.
//!
//! There are two searches with the same first cover: the loop of `alone`, which counts its visits, and a recursion that
//! doesn't, for problems of more visits than can be counted. The loop takes up to a twentieth fewer instructions. So it
//! is tried first, and where it sees that it can't count on, what it did is lost.

ghost use Rattle.std.specs.Prelude.{◌≡◌, ◌≤◌, [], Some, true, IfOk, IfSome, MatchOption};
ghost use Rattle.cover_problem.specs.Search.{first};
ghost use Rattle.dlx_reader.specs.Writing.{IsWritable};
ghost use Rattle.search_engines.specs.Alone.{IsGivenIf, answer_by, answer_or, why_spent};

use crate::unanswered::Unanswered;
use brancher::{Finding, Outcome, STATE_BYTES, Searcher, Tables, Watch};
use cover_problem::{Answer, Problem, in_order};
use decider::{Decider, Decision, Trace, Untraced};
use std::alloc::{AllocError, Global};

/// Returns the answer of a search with so much fuel that came to this finding of the empty prefix, with a cover's
/// options in the order of the file; or why there is none. The only error is out of memory.
fn found_answer(
    alloc: Global,
    problem: &Problem,
    finding: &Finding,
    fuel: u64,
) -> Result<Result<Answer, Unanswered>, AllocError>
    ensures answer { IfOk result (λ given.
        given ≡ answer_or problem.now (why_spent fuel) finding.now.outcome) }
    ensures order { IfOk result (λ given. IfOk given (IsWritable problem.now)) }
{
    match finding.outcome() {
        Outcome::Cover => Ok(Ok(Answer::Cover(in_order(alloc, problem, finding.cover())?))),
        Outcome::Barren => Ok(Ok(Answer::NoCover)),
        Outcome::Spent => Ok(Err(Unanswered::by_fuel(fuel))),
    }
}

/// Searches until it has counted so many visits, those below a skipped state too, and returns the answer, or why there
/// is none: it would count more, or the watch stopped it. The only error is out of memory.
#[tactic(auto, using(crate::proofs::Outcomes::given_by, crate::proofs::Outcomes::given_stopped))]
fn search_counting<V: Watch>(
    alloc: Global,
    tables: &Tables<'_>,
    fuel: u64,
    watch: &mut V,
) -> Result<Result<Answer, Unanswered>, AllocError>
    requires { 1 ≤ fuel }
    ensures answer { IfOk result (IsGivenIf (V.may_stop ≡ true) tables.now (Some fuel)) }
    ensures order { IfOk result (λ given. IfOk given (IsWritable tables.now)) }
{
    let mut searcher = Searcher::keeping(alloc, tables, STATE_BYTES)?;
    match searcher.find_until(Vec::new(alloc), fuel, watch) {
        Ok(Some((finding, _visits))) => found_answer(alloc, tables.problem(), &finding, fuel),
        Ok(None) => Ok(Err(Unanswered::Time)),
        // (the prefix comes back for a caller that tries again; here the search ends)
        Err(_prefix) => Err(AllocError),
    }
}

/// Searches a problem until it has counted so many visits, those below a skipped state too, and returns the answer, or
/// why there is none: it would count more, or the watch stopped it. The only error is out of memory.
pub(crate) fn fueled_answer<V: Watch>(
    alloc: Global,
    problem: &Problem,
    fuel: u64,
    watch: &mut V,
) -> Result<Result<Answer, Unanswered>, AllocError>
    requires { 1 ≤ fuel }
    ensures answer { IfOk result (IsGivenIf (V.may_stop ≡ true) problem.now (Some fuel)) }
    ensures order { IfOk result (λ given. IfOk given (IsWritable problem.now)) }
{
    search_counting(alloc, &Tables::build(alloc, problem)?, fuel, watch)
}

/// Searches the problem without counting until it is decided or the watch stops it, and returns the answer, or none
/// where it was stopped. The trace hears of each step. The only error is out of memory.
pub(crate) fn search_uncounted<V: Watch, T: Trace>(
    alloc: Global,
    tables: &Tables<'_>,
    watch: &mut V,
    trace: &mut T,
) -> Result<Option<Answer>, AllocError>
    ensures answer { IfOk result (λ found. MatchOption found (V.may_stop ≡ true)
        (λ answer. answer ≡ answer_by tables.now (first tables.now []))) }
    ensures order { IfOk result (λ found. IfSome found (IsWritable tables.now)) }
{
    let problem = tables.problem();
    let mut decider = Decider::new(alloc, tables, STATE_BYTES)?;
    match decider.decide_traced(watch, trace) {
        Decision::Found => Ok(Some(Answer::Cover(in_order(alloc, problem, decider.found())?))),
        Decision::Barren(_) => Ok(Some(Answer::NoCover)),
        Decision::Stopped => Ok(None),
    }
}

/// Searches as `alone` does, and once more without counting where the visits are more than can be counted. Returns the
/// answer, or none where the watch stopped it. The only error is out of memory.
#[tactic(auto, using(crate::proofs::Outcomes::given_is_first, crate::proofs::Outcomes::time_stops))]
pub(crate) fn search_counting_first<V: Watch>(
    alloc: Global,
    tables: &Tables<'_>,
    watch: &mut V,
) -> Result<Option<Answer>, AllocError>
    ensures answer { IfOk result (λ found. MatchOption found (V.may_stop ≡ true)
        (λ answer. answer ≡ answer_by tables.now (first tables.now []))) }
    ensures order { IfOk result (λ found. IfSome found (IsWritable tables.now)) }
{
    match search_counting(alloc, tables, u64::MAX, watch)? {
        Ok(answer) => Ok(Some(answer)),
        Err(Unanswered::Time) => Ok(None),
        Err(_) => search_uncounted(alloc, tables, watch, &mut Untraced),
    }
}

/// Returns the answer of a problem by a search alone: its first cover, with its options in the order of the file, or
/// that there is none; no answer where the watch stopped it. The only error is out of memory.
pub fn search_until<V: Watch>(
    alloc: Global,
    problem: &Problem,
    watch: &mut V,
) -> Result<Option<Answer>, AllocError>
    ensures answer { IfOk result (λ found. MatchOption found (V.may_stop ≡ true)
        (λ answer. answer ≡ answer_by problem.now (first problem.now []))) }
    ensures order { IfOk result (λ found. IfSome found (IsWritable problem.now)) }
{
    search_counting_first(alloc, &Tables::build(alloc, problem)?, watch)
}
