//! The answer to a problem within limits of visits and of time.

ghost use Rattle.std.specs.Prelude.{◌≡◌, ◌≤◌, true, false, IfOk};
ghost use Rattle.std.specs.Option.{ForSome};
ghost use Rattle.dlx_reader.specs.Writing.{IsWritable};
ghost use Rattle.search_engines.specs.Alone.{IsAnswerWithin, IsGivenIf};

use crate::deciding::answer_until;
use crate::progress_watch::EndWatch;
use crate::search_limits::SearchLimits;
use crate::searching::fueled_answer;
use crate::timed_watch::TimedWatch;
use crate::unanswered::Unanswered;
use brancher::Watch;
use cover_problem::{Answer, Problem};
use std::alloc::{AllocError, Global};
use std::time::Clock;

/// Searches until it has counted so many visits, or without such a limit, and returns the answer, or why there is none:
/// it would count more, or the watch stopped it.
#[tactic(auto, using(crate::proofs::Outcomes::given_first, crate::proofs::Given::ordered))]
fn given_answer<V: Watch, C: Clock>(
    clock: &C,
    alloc: Global,
    problem: &Problem,
    fuel: Option<u64>,
    watch: &mut V,
) -> Result<Result<Answer, Unanswered>, AllocError>
    requires { ForSome fuel (λ fuel. 1 ≤ fuel) }
    ensures answer { IfOk result (IsGivenIf (V.may_stop ≡ true) problem.now fuel) }
    ensures order { IfOk result (λ given. IfOk given (IsWritable problem.now)) }
{
    match fuel {
        Some(fuel) => fueled_answer(alloc, problem, fuel, watch),
        None => {
            let answer = answer_until(clock, alloc, problem, watch)?;
            Ok(answer.ok_or(Unanswered::Time))
        }
    }
}

/// Returns the answer of a problem: its first cover, with its options in the order of the file, or that there is none;
/// or why it has no answer: the search would count more visits than the limits allow, or has lasted as long as they do.
/// Where visits have no limit, a reason is looked for after a hundredth of a second, shortly and only in small problems,
/// and after a tenth. The only error is out of memory.
#[tactic(auto, using(crate::proofs::Outcomes::whole_by, crate::proofs::Outcomes::timed_by))]
pub fn answer_within<V: EndWatch, C: Clock>(
    clock: &C,
    alloc: Global,
    problem: &Problem,
    limits: &SearchLimits,
    watch: &mut V,
) -> Result<Result<Answer, Unanswered>, AllocError>
    requires watch { V.may_stop ≡ false }
    ensures answer { IfOk result (IsAnswerWithin problem.now limits.now.fuel limits.now.time) }
    ensures order { IfOk result (λ given. IfOk given (IsWritable problem.now)) }
{
    // (two ways: without a limit of time the watch stops nothing, so the contract names the one answer)
    match &limits.time {
        Some(_) => {
            let mut timed = TimedWatch {
                clock,
                limits,
                inner: watch,
            };
            given_answer(clock, alloc, problem, limits.fuel, &mut timed)
        }
        None => given_answer(clock, alloc, problem, limits.fuel, watch),
    }
}
