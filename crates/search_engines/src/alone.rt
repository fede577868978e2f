//! `alone`: one thread searches a file's problem.

ghost use Rattle.std.specs.Prelude.{◌≡◌, ◌≢◌, ◌≤◌, [], false, IfErr, IfOk, IfSome};
ghost use Rattle.std.specs.Io.KnownBytes.{IsAtEnd};
ghost use Rattle.cover_problem.specs.Search.{outcome};
ghost use Rattle.dlx_reader.specs.Devices.{failed_once};
ghost use Rattle.search_engines.specs.Alone.{AloneSays, IsLimited, IsUnanswered, LimitedSays, SaysWhy, SaysWhyOf, outcome_said};
ghost use Rattle.search_engines.specs.Engines.{IsEnded, refuses_none};
ghost use Rattle.search_engines.specs.Failures.{Tells, plain};
ghost use Rattle.search_engines.specs.Output.{IsOutput, IsOutputOf, status_in};

use crate::answering::answer_within;
use crate::engine::{EngineEnd, Written, ended_with};
use crate::failure::Failure;
use crate::fault::EngineFault;
use crate::input::read_whole;
use crate::lines::write_given;
use crate::progress_log::ProgressLog;
use crate::progress_watch::{EndWatch, ProgressWatch};
use crate::search_limits::SearchLimits;
use crate::searching::fueled_answer;
use brancher::Unwatched;
use cover_problem::Problem;
use dlx_reader::{Sink, Source};
use std::alloc::Global;
use std::time::Clock;

/// How a run of `alone` ended: with status 0 for a cover, 1 for none, 4 for no answer within its limits.
pub type AloneEnd = EngineEnd;

/// Searches until it has counted so many visits, writes the answer, or that there is none yet, and returns how that
/// ended.
#[tactic(auto, using(crate::proofs::Given::fueled_said))]
fn write_fueled<W: Sink>(
    alloc: Global,
    problem: &Problem,
    fuel: u64,
    sink: &mut W,
) -> Result<Written, EngineFault>
    requires fuel { 1 ≤ fuel }
    ensures output { IsOutput (outcome_said problem.now (outcome problem.now [] fuel))
        (W.contents sink.old) (W.contents sink.new) (status_in result) }
    ensures failed { result ≡ Err EngineFault.Write → W.failed sink.new ≡ failed_once (W.failed sink.old) }
{
    match fueled_answer(alloc, problem, fuel, &mut Unwatched) {
        Ok(given) => write_given(problem, &given, sink),
        Err(_) => Err(EngineFault::Memory),
    }
}

/// Reads a problem to its end, searches it until so many visits are counted, those below a skipped state too, and
/// writes its first cover, with the options in the order of the file, or `none`, or `no answer` where it would count
/// more. Only tests call this: the program calls `alone_within`.
///
/// # Errors
///
/// `Read` and `Write` if that device failed, `File` with the text's first fault, and `Memory`. After `Write` a
/// beginning of the answer's text was written, after another fault nothing. At `Memory` the source may have been read
/// in part.
#[tactic(auto, using(crate::proofs::Ended::unread_plain))]
pub fn alone_engine<R: Source, W: Sink>(
    alloc: Global,
    fuel: u64,
    source: &mut R,
    sink: &mut W,
) -> Result<AloneEnd, EngineFault>
    requires fuel { 1 ≤ fuel }
    ensures ended { IfSome (R.remaining source.old) (λ text.
        IsEnded (AloneSays fuel) refuses_none text (W.contents sink.old)
        (W.contents sink.new) result) }
    ensures read { result ≢ Err EngineFault.Read → result ≢ Err EngineFault.Memory →
        IsAtEnd (R.remaining source.new) }
    ensures read_fault { result ≡ Err EngineFault.Read → R.failed source.new ≡ failed_once (R.failed source.old) }
    ensures write_fault { result ≡ Err EngineFault.Write → W.failed sink.new ≡ failed_once (W.failed sink.old) }
{
    let read = read_whole(alloc, source)?;
    let written = write_fueled(alloc, &read.problem, fuel, sink)?;
    Ok(EngineEnd {
        status: written.status,
        ignored: read.ignored,
        why: written.why,
    })
}

/// Searches under a watch until a limit is met, writes the answer, or that there is none yet, and returns how that
/// ended.
#[tactic(auto, using(crate::proofs::Outcomes::says_within, crate::proofs::Outcomes::output_of, crate::proofs::Given::given_why))]
fn write_limited<V: EndWatch, W: Sink, C: Clock>(
    clock: &C,
    alloc: Global,
    problem: &Problem,
    limits: &SearchLimits,
    watch: &mut V,
    sink: &mut W,
) -> Result<Written, EngineFault>
    requires watch { V.may_stop ≡ false }
    ensures output { IsOutputOf (LimitedSays limits.now.fuel limits.now.time problem.now)
        (W.contents sink.old) (W.contents sink.new) (status_in result) }
    ensures failed { result ≡ Err EngineFault.Write → W.failed sink.new ≡ failed_once (W.failed sink.old) }
    ensures why { IfOk result (λ written. SaysWhy
        (IsUnanswered (IsLimited limits.now.time) problem.now limits.now.fuel)
        written.status written.why) }
{
    let Ok(given) = answer_within(clock, alloc, problem, limits, watch) else {
        return Err(EngineFault::Memory);
    };
    watch.end();
    write_given(problem, &given, sink)
}

/// Does what `alone_engine` does within limits: it writes the first cover, or `none`, or `no answer` once a limit is
/// met, of visits or of time. Without a limit it decides; where visits have none, it looks for a reason that there is
/// no cover after a hundredth of a second, shortly and only in small problems, and after a tenth of a second, before it
/// searches on.
///
/// Meanwhile it writes to the log how far the search has come, by the visits that it made itself: what lies below a
/// state that it knows is skipped. The log changes no answer: a fault of its sink is passed over. `Memory` also comes
/// where there is none for the estimate that a log with lines shows.
///
/// Where there is no answer the end says which limit was met, and where the text is refused since no item has a name,
/// the failure has that.
#[tactic(auto, using(crate::proofs::Ended::ends_unread, crate::proofs::Ended::ends_written, crate::proofs::Ended::told_written, crate::proofs::Ended::write_failed, crate::proofs::Ended::read_well, crate::proofs::Ended::says_why))]
pub fn alone_within<R: Source, W: Sink, E: Sink, C: Clock>(
    clock: &C,
    alloc: Global,
    limits: &SearchLimits,
    source: &mut R,
    sink: &mut W,
    log: ProgressLog<'_, E>,
) -> Result<AloneEnd, Failure>
    ensures ended { IfSome (R.remaining source.old) (λ text.
        IsEnded (LimitedSays limits.now.fuel limits.now.time) refuses_none text
        (W.contents sink.old) (W.contents sink.new) (plain result)) }
    ensures read { plain result ≢ Err EngineFault.Read → plain result ≢ Err EngineFault.Memory →
        IsAtEnd (R.remaining source.new) }
    ensures read_fault { plain result ≡ Err EngineFault.Read → R.failed source.new ≡ failed_once (R.failed source.old) }
    ensures write_fault { plain result ≡ Err EngineFault.Write → W.failed sink.new ≡ failed_once (W.failed sink.old) }
    ensures why { IfSome (R.remaining source.old) (λ text.
        IfOk result (SaysWhyOf limits.now.fuel limits.now.time text)) }
    ensures told { IfSome (R.remaining source.old) (λ text. IfErr result (Tells text)) }
{
    let read = read_whole(alloc, source)?;
    // (a search without a limit counts down from the greatest number, from which the log takes its visits)
    let fuel = limits.fuel.unwrap_or(u64::MAX);
    let Ok(mut watch) = ProgressWatch::new(clock, alloc, &read.problem, fuel, log) else {
        return Err(Failure::Other(EngineFault::Memory));
    };
    let written = write_limited(clock, alloc, &read.problem, limits, &mut watch, sink);
    ended_with(written, read.ignored)
}
