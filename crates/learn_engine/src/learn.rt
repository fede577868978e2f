//! `learn`: any exact cover of a file's problem.

ghost use Rattle.std.specs.Prelude.{◌≡◌, ◌≢◌, IfErr, IfOk, IfSome};
ghost use Rattle.std.specs.Io.KnownBytes.{IsAtEnd};
ghost use Rattle.dlx_reader.specs.Devices.{failed_once};
ghost use Rattle.learn_engine.specs.Learn.{LearnSays, found_said};
ghost use Rattle.learner.specs.Found.{IsTrueOf};
ghost use Rattle.search_engines.specs.Engines.{IsEnded, refuses_none};
ghost use Rattle.search_engines.specs.Failures.{Tells, plain};
ghost use Rattle.search_engines.specs.Output.{IsOutput, IsOutputOf, status_in};

use crate::heard_stop::HeardStop;
use cover_problem::{Answer, Problem};
use dlx_reader::{Sink, Source};
use learner::{Found, LearnerWatch, Settings, find_cover};
use search_engines::{
    EngineEnd, EngineFault, Failure, Unanswered, Written, ended_with, read_whole, write_given,
};
use std::alloc::{AllocError, Global};

/// How a run of `learn` ended: with status 0 for a cover, 1 for none, 4 where the watch stopped it or there was no
/// room.
pub type LearnEnd = EngineEnd;

/// Writes what a learner found, and returns how that ended: where it found nothing, for this reason.
fn write_found<W: Sink>(
    problem: &Problem,
    found: Found,
    why: Unanswered,
    sink: &mut W,
) -> Result<Written, EngineFault>
    requires found { IsTrueOf problem.now found }
    ensures output { IsOutput (found_said problem.now found) (W.contents sink.old)
        (W.contents sink.new) (status_in result) }
    ensures failed { result ≡ Err EngineFault.Write → W.failed sink.new ≡ failed_once (W.failed sink.old) }
{
    match found {
        Found::Cover(options) => write_given(problem, &Ok(Answer::Cover(options)), sink),
        Found::NoCover => write_given(problem, &Ok(Answer::NoCover), sink),
        Found::Stopped => write_given(problem, &Err(why), sink),
    }
}

/// Looks for a cover; the only error is out of memory.
fn found_of<L: LearnerWatch>(
    alloc: Global,
    problem: &Problem,
    settings: Settings,
    watch: &mut L,
) -> Result<Found, AllocError>
    ensures { IfOk result (IsTrueOf problem.now) }
{
    let (found, _) = find_cover(alloc, problem, settings, watch)?;
    Ok(found)
}

/// Learns until it has an answer or the watch stops it, writes an exact cover, with the options in the order of the
/// file, or `none`, or `no answer`, and returns how that ended: without an answer since the time was over, if the watch
/// stopped it, or else since there was no room.
///
/// # Errors
///
/// `Write` where the sink failed, after a beginning of the text, and `Memory`, before any of it.
pub fn learn_problem<L: LearnerWatch, W: Sink>(
    alloc: Global,
    problem: &Problem,
    settings: Settings,
    watch: &mut L,
    sink: &mut W,
) -> Result<Written, EngineFault>
    ensures output { IsOutputOf (LearnSays problem.now) (W.contents sink.old)
        (W.contents sink.new) (status_in result) }
    ensures failed { result ≡ Err EngineFault.Write → W.failed sink.new ≡ failed_once (W.failed sink.old) }
{
    let mut heard = HeardStop::new(watch);
    match found_of(alloc, problem, settings, &mut heard) {
        Ok(found) => write_found(problem, found, heard.why(), sink),
        Err(_) => Err(EngineFault::Memory),
    }
}

/// Reads a problem to its end, learns until it has an answer or the watch stops it, and writes an exact cover, with the
/// options in the order of the file, or `none`, or `no answer`.
///
/// # Errors
///
/// `Read` and `Write` if that device failed, `File` with the text's first fault, and `Memory`. After `Write` a
/// beginning of the answer's text was written, after another fault nothing. At `Memory` the source may have been read
/// in part.
pub fn learn_engine<R: Source, W: Sink, L: LearnerWatch>(
    alloc: Global,
    settings: Settings,
    source: &mut R,
    sink: &mut W,
    watch: &mut L,
) -> Result<LearnEnd, Failure>
    ensures ended { IfSome (R.remaining source.old) (λ text.
        IsEnded LearnSays refuses_none text (W.contents sink.old) (W.contents sink.new) (plain result)) }
    ensures read { plain result ≢ Err EngineFault.Read → plain result ≢ Err EngineFault.Memory →
        IsAtEnd (R.remaining source.new) }
    ensures read_fault { plain result ≡ Err EngineFault.Read → R.failed source.new ≡ failed_once (R.failed source.old) }
    ensures write_fault { plain result ≡ Err EngineFault.Write → W.failed sink.new ≡ failed_once (W.failed sink.old) }
    ensures told { IfSome (R.remaining source.old) (λ text. IfErr result (Tells text)) }
{
    let read = read_whole(alloc, source)?;
    let written = learn_problem(alloc, &read.problem, settings, watch, sink);
    ended_with(written, read.ignored)
}
