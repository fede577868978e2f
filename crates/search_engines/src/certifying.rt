//! The answer to a problem, and what shows that there is no cover, for whoever is to write that down.

ghost use Rattle.std.specs.Prelude.{◌≡◌, [], true, false, None, IfOk, IfSome, MatchOption};
ghost use Rattle.cover_problem.specs.Search.{first};
ghost use Rattle.dlx_reader.specs.Devices.{failed_once};
ghost use Rattle.dlx_reader.specs.Writing.{IsWritable};
ghost use Rattle.search_engines.specs.Alone.{AloneSaysWithin, IsGiven, answer_by, outcome_said, whole_outcome};
ghost use Rattle.search_engines.specs.Output.{IsOutput, IsOutputOf, status_in};

use crate::deciding::{RootWatch, ShortWatch};
use crate::engine::Written;
use crate::fault::EngineFault;
use crate::lines::{write_given, write_solution};
use crate::progress_watch::EndWatch;
use crate::searching::{search_counting_first, search_uncounted};
use crate::stopwatch::Stopwatch;
use crate::unanswered::Unanswered;
use brancher::{Tables, Watch};
use cover_problem::{Answer, Problem};
use cover_reasons::{Reason, find_reason_until, holds_of};
use decider::Trace;
use dlx_reader::Sink;
use std::alloc::{AllocError, Global};
use std::time::Clock;

/// What hears of a reason why there is no cover. No contract speaks of it.
pub trait ReasonListener {
    /// Hears of a reason that holds of the problem.
    fn hears(&mut self, reason: &Reason);
}

/// What lets a reason pass unheard.
#[derive(Clone, Copy, Debug, PartialEq, Eq)]
pub struct Unheard;

impl ReasonListener for Unheard {
    fn hears(&mut self, _reason: &Reason) {}
}

/// Returns whether a reason is found why there is no cover, before the watch ends that, and lets it be heard. One that
/// counts more items as primary isn't looked for: no line of a certificate says that.
fn is_excluded_aloud<V: Watch, T: ReasonListener>(
    alloc: Global,
    problem: &Problem,
    watch: &mut V,
    listener: &mut T,
) -> bool
    ensures { result ≡ true → first problem.now [] ≡ None }
{
    let mut root = RootWatch { watch };
    let Ok(Some(reason)) = find_reason_until(alloc, problem, &mut root) else {
        return false;
    };
    let is_excluded = holds_of(problem, &reason);
    if is_excluded {
        listener.hears(&reason);
    }
    is_excluded
}

/// Returns the answer that `answer_until` gives. Where there is no cover, the listener hears of what shows that: of a
/// reason, or of each step of a search. It hears of the search that ends without an answer or finds a cover after a
/// tenth of a second, too.
///
/// A reason that counts more items as primary isn't looked for, so it may take longer than `answer_until` does.
pub fn certified_until<V: Watch, T: Trace + ReasonListener, C: Clock>(
    clock: &C,
    alloc: Global,
    problem: &Problem,
    watch: &mut V,
    listener: &mut T,
) -> Result<Option<Answer>, AllocError>
    ensures answer { IfOk result (λ found. MatchOption found (V.may_stop ≡ true)
        (λ answer. answer ≡ answer_by problem.now (first problem.now []))) }
    ensures given { IfOk result (IsGiven problem.now None) }
    ensures order { IfOk result (λ found. IfSome found (IsWritable problem.now)) }
{
    let tables = Tables::build(alloc, problem)?;
    let stopwatch = Stopwatch::new(clock);
    let mut short = ShortWatch { clock, stopwatch };
    match search_counting_first(alloc, &tables, &mut short)? {
        Some(Answer::Cover(options)) => Ok(Some(Answer::Cover(options))),
        // (once more, and aloud: most covers are found sooner, and lines about them would be thrown away)
        Some(Answer::NoCover) => search_uncounted(alloc, &tables, watch, listener),
        None => {
            if is_excluded_aloud(alloc, problem, watch, listener) {
                return Ok(Some(Answer::NoCover));
            }
            search_uncounted(alloc, &tables, watch, listener)
        }
    }
}

/// Returns the answer that `certified_until` gives under a watch that stops nothing, so there is always one.
fn certified_first<V: Watch, T: Trace + ReasonListener, C: Clock>(
    clock: &C,
    alloc: Global,
    problem: &Problem,
    watch: &mut V,
    listener: &mut T,
) -> Result<Answer, AllocError>
    requires { V.may_stop ≡ false }
    ensures answer { IfOk result (λ answer. answer ≡ answer_by problem.now (first problem.now [])) }
    ensures order { IfOk result (IsWritable problem.now) }
{
    match certified_until(clock, alloc, problem, watch, listener)? {
        Some(answer) => Ok(answer),
        None => unreachable!(),
    }
}

/// Writes the first cover of a problem, or that there is none, or that there is no answer where the watch stopped the
/// search since its time was over, and returns how that ended. The listener hears of what shows that there is no cover,
/// as by `certified_until`.
///
/// # Errors
///
/// `Write` where the sink failed, after a beginning of the text, and `Memory`, before any of it.
#[tactic(auto, using(crate::proofs::Given::certified_said, crate::proofs::Given::ordered))]
pub fn write_certified_within<V: EndWatch, T: Trace + ReasonListener, W: Sink, C: Clock>(
    clock: &C,
    alloc: Global,
    problem: &Problem,
    watch: &mut V,
    listener: &mut T,
    sink: &mut W,
) -> Result<Written, EngineFault>
    ensures output { IsOutputOf (AloneSaysWithin None problem.now)
        (W.contents sink.old) (W.contents sink.new) (status_in result) }
    ensures failed { result ≡ Err EngineFault.Write → W.failed sink.new ≡ failed_once (W.failed sink.old) }
{
    let Ok(answer) = certified_until(clock, alloc, problem, watch, listener) else {
        return Err(EngineFault::Memory);
    };
    watch.end();
    let given = answer.ok_or(Unanswered::Time);
    write_given(problem, &given, sink)
}

/// Does the same under a watch that stops nothing, so it writes the first cover, or that there is none.
///
/// # Errors
///
/// `Write` where the sink failed, after a beginning of the text, and `Memory`, before any of it.
#[tactic(auto, using(crate::proofs::Given::first_said))]
pub fn write_certified<V: EndWatch, T: Trace + ReasonListener, W: Sink, C: Clock>(
    clock: &C,
    alloc: Global,
    problem: &Problem,
    watch: &mut V,
    listener: &mut T,
    sink: &mut W,
) -> Result<Written, EngineFault>
    requires watch { V.may_stop ≡ false }
    ensures output { IsOutput (outcome_said problem.now (whole_outcome problem.now None))
        (W.contents sink.old) (W.contents sink.new) (status_in result) }
    ensures failed { result ≡ Err EngineFault.Write → W.failed sink.new ≡ failed_once (W.failed sink.old) }
{
    let Ok(answer) = certified_first(clock, alloc, problem, watch, listener) else {
        return Err(EngineFault::Memory);
    };
    watch.end();
    let status = write_solution(problem, &answer, sink)?;
    Ok(Written { status, why: None })
}
