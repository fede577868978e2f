//! `why`: a reason why a file's problem has no exact cover.

ghost use Rattle.std.specs.Prelude.{◌≡◌, ◌≢◌, Some, IfErr, IfSome};
ghost use Rattle.std.specs.Io.KnownBytes.{IsAtEnd};
ghost use Rattle.dlx_reader.specs.Devices.{failed_once};
ghost use Rattle.reason_engine.specs.Why.{WhySays, why_said};
ghost use Rattle.search_engines.specs.Engines.{IsEnded, refuses_none};
ghost use Rattle.search_engines.specs.Failures.{Tells, plain};
ghost use Rattle.search_engines.specs.Output.{IsOutput, IsOutputOf, status_in};

use crate::cause::{Cause, find_cause_until, text_of};
use cover_problem::Problem;
use cover_reasons::Endless;
use dlx_reader::{Sink, Source};
use search_engines::{
    EngineEnd, EngineFault, Failure, ReasonListener, Unheard, Written, ended_with, read_whole,
    write_line,
};
use std::alloc::Global;

/// How a run of `why` ended: with status 1 where a reason was written, 4 where none was found.
pub type WhyEnd = EngineEnd;

/// Writes a cause, and returns the status.
fn write_cause<W: Sink>(
    alloc: Global,
    problem: &Problem,
    cause: &Cause,
    sink: &mut W,
) -> Result<u8, EngineFault>
    ensures output { IsOutput (why_said problem.now (Some cause.now)) (W.contents sink.old)
        (W.contents sink.new) result }
    ensures failed { result ≡ Err EngineFault.Write → W.failed sink.new ≡ failed_once (W.failed sink.old) }
{
    // (the whole text before its first byte is written, so that nothing is written if memory runs out)
    let Ok(text) = text_of(alloc, problem, cause) else {
        return Err(EngineFault::Memory);
    };
    write_line(&text, 1, sink)
}

/// Writes that no reason was found, and returns the status.
fn write_none_found<W: Sink>(_problem: &Problem, sink: &mut W) -> Result<u8, EngineFault>
    ensures output { IsOutputOf (WhySays _problem.now) (W.contents sink.old)
        (W.contents sink.new) result }
    ensures failed { result ≡ Err EngineFault.Write → W.failed sink.new ≡ failed_once (W.failed sink.old) }
{
    write_line(b"no reason found\n", 4, sink)
}

/// Lets a listener hear of a reason of the problem as it stands.
fn tell_reason<T: ReasonListener>(cause: &Cause, listener: &mut T) {
    if let Cause::AsItStands(reason) = cause {
        listener.hears(reason);
    }
}

/// Looks for a reason, writes it, or that none was found, and returns the status.
fn write_found<T: ReasonListener, W: Sink>(
    alloc: Global,
    problem: &Problem,
    listener: &mut T,
    sink: &mut W,
) -> Result<u8, EngineFault>
    ensures output { IsOutputOf (WhySays problem.now) (W.contents sink.old)
        (W.contents sink.new) result }
    ensures failed { result ≡ Err EngineFault.Write → W.failed sink.new ≡ failed_once (W.failed sink.old) }
{
    match find_cause_until(alloc, problem, &mut Endless) {
        Ok(Some(cause)) => {
            tell_reason(&cause, listener);
            write_cause(alloc, problem, &cause, sink)
        }
        Ok(None) => write_none_found(problem, sink),
        Err(_) => Err(EngineFault::Memory),
    }
}

/// Looks for a reason why the problem has no exact cover, as [`find_cause_until`] does, writes it, or that none was
/// found, and returns how that ended. It has no limit, so nothing is said of why there is no reason. The listener hears
/// of a reason of the problem as it stands.
///
/// # Errors
///
/// `Write` where the sink failed, after a beginning of the text, and `Memory`, before any of it.
pub fn why_problem<T: ReasonListener, W: Sink>(
    alloc: Global,
    problem: &Problem,
    listener: &mut T,
    sink: &mut W,
) -> Result<Written, EngineFault>
    ensures output { IsOutputOf (WhySays problem.now) (W.contents sink.old)
        (W.contents sink.new) (status_in result) }
    ensures failed { result ≡ Err EngineFault.Write → W.failed sink.new ≡ failed_once (W.failed sink.old) }
{
    let status = write_found(alloc, problem, listener, sink)?;
    Ok(Written { status, why: None })
}

/// Reads a problem to its end, looks for a reason why it has no exact cover, and writes `none` and the reason, or `no
/// reason found`, whether it has a cover or not.
///
/// # Errors
///
/// `Read` and `Write` if that device failed, `File` with the text's first fault, and `Memory`. After `Write` a
/// beginning of the text was written, after another fault nothing. At `Memory` the source may have been read in part.
pub fn why_engine<R: Source, W: Sink>(
    alloc: Global,
    source: &mut R,
    sink: &mut W,
) -> Result<WhyEnd, Failure>
    ensures ended { IfSome (R.remaining source.old) (λ text.
        IsEnded WhySays refuses_none text (W.contents sink.old) (W.contents sink.new) (plain result)) }
    ensures read { plain result ≢ Err EngineFault.Read → plain result ≢ Err EngineFault.Memory →
        IsAtEnd (R.remaining source.new) }
    ensures read_fault { plain result ≡ Err EngineFault.Read → R.failed source.new ≡ failed_once (R.failed source.old) }
    ensures write_fault { plain result ≡ Err EngineFault.Write → W.failed sink.new ≡ failed_once (W.failed sink.old) }
    ensures told { IfSome (R.remaining source.old) (λ text. IfErr result (Tells text)) }
{
    let read = read_whole(alloc, source)?;
    let written = why_problem(alloc, &read.problem, &mut Unheard, sink);
    ended_with(written, read.ignored)
}
