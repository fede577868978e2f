//! `check`: tests an answer to a file's problem.

ghost use Rattle.std.specs.Prelude.{◌≡◌, ◌≢◌, ◌<◌, ◌≤◌, ◌⊎◌, [], length, Some, None, IfErr, IfOk, IfSome, IsErrOf};
ghost use Rattle.std.specs.Result.{result_err, result_ok};
ghost use Rattle.std.specs.Io.KnownBytes.{IsAtEnd};
ghost use Rattle.cover_problem.specs.Search.{outcome};
ghost use Rattle.cover_problem.specs.Verdict.{verdict_of};
ghost use Rattle.dlx_reader.specs.Devices.{failed_once};
ghost use Rattle.search_engines.specs.Alone.{IsLimited, IsUnanswered, SaysWhy, SaysWhyOf};
ghost use Rattle.search_engines.specs.Check.{CheckRefuses, CheckSays, CheckSaysWithin, IsListed, IsListedAnswer, MayCheck, NoneSaysWithin, check_said, item_said, none_by, none_said, verdict_said};
ghost use Rattle.search_engines.specs.Engines.{IsEnded};
ghost use Rattle.search_engines.specs.Failures.{Tells, plain};
ghost use Rattle.search_engines.specs.Output.{IsOutput, IsOutputOf, status_in};

use crate::answering::answer_within;
use crate::engine::{EngineEnd, Written, ended_with};
use crate::failure::{Failure, Unread};
use crate::fault::EngineFault;
use crate::input::read_given;
use crate::lines::write_line;
use crate::search_limits::SearchLimits;
use crate::searching::fueled_answer;
use crate::unanswered::Unanswered;
use brancher::Unwatched;
use cover_problem::{Answer, Problem, Verdict, check_cover};
use dlx_reader::{Sink, Source};
use std::alloc::{AllocError, Global};
use std::time::Clock;

/// How a run of `check` ended: with status 0 for right, 1 for wrong, 4 where the fuel was spent.
pub type CheckEnd = EngineEnd;

/// Returns the line that says what is wrong with an item. The only error is out of memory.
fn item_line(
    alloc: Global,
    problem: &Problem,
    wrong: &[u8],
    item: u16,
) -> Result<Vec<u8>, AllocError>
    requires { item < length problem.now.names }
    ensures { IfOk result (λ line. line.items ≡ (item_said problem.now wrong.now item).text) }
{
    let mut line = Vec::from_slice(alloc, wrong)?;
    line.extend_from_slice(problem.name(item))?;
    line.push(b'\n')?;
    Ok(line)
}

/// Writes what is wrong with an item, and returns the status.
fn write_wrong<W: Sink>(
    alloc: Global,
    problem: &Problem,
    wrong: &[u8],
    item: u16,
    sink: &mut W,
) -> Result<u8, EngineFault>
    requires item { item < length problem.now.names }
    ensures output { IsOutput (item_said problem.now wrong.now item) (W.contents sink.old)
        (W.contents sink.new) result }
    ensures failed { result ≡ Err EngineFault.Write → W.failed sink.new ≡ failed_once (W.failed sink.old) }
{
    // (the whole line before its first byte is written, so that nothing is written if memory runs out)
    match item_line(alloc, problem, wrong, item) {
        Ok(line) => write_line(&line, 1, sink),
        Err(_) => Err(EngineFault::Memory),
    }
}

/// Tests a list of options, writes the verdict, and returns the status.
fn write_verdict<W: Sink>(
    alloc: Global,
    problem: &Problem,
    options: &[u16],
    sink: &mut W,
) -> Result<u8, EngineFault>
    requires options { IsListed problem.now options.now }
    ensures output { IsOutput (verdict_said problem.now (verdict_of problem.now options.now))
        (W.contents sink.old) (W.contents sink.new) result }
    ensures failed { result ≡ Err EngineFault.Write → W.failed sink.new ≡ failed_once (W.failed sink.old) }
{
    match check_cover(problem, options) {
        Verdict::Exact => write_line(b"right\n", 0, sink),
        Verdict::Uncovered(item) => {
            write_wrong(alloc, problem, b"wrong: Uncovered ", item, sink)
        }
        Verdict::CoveredTwice(item) => {
            write_wrong(alloc, problem, b"wrong: CoveredTwice ", item, sink)
        }
        // (the answer was read into options of the problem, each once, and the requirement above shows it to the
        // prover)
        Verdict::NoSuchOption | Verdict::ChosenTwice => unreachable!(),
    }
}

/// Does so, and returns how that ended: never without an answer.
fn write_tested<W: Sink>(
    alloc: Global,
    problem: &Problem,
    options: &[u16],
    sink: &mut W,
) -> Result<Written, EngineFault>
    requires options { IsListed problem.now options.now }
    ensures output { IsOutput (verdict_said problem.now (verdict_of problem.now options.now))
        (W.contents sink.old) (W.contents sink.new) (status_in result) }
    ensures failed { result ≡ Err EngineFault.Write → W.failed sink.new ≡ failed_once (W.failed sink.old) }
    ensures why { IfOk result (λ written. written.why ≡ None) }
{
    let status = write_verdict(alloc, problem, options, sink)?;
    Ok(Written { status, why: None })
}

/// Writes whether none is right where a search gave this answer, and returns the status.
fn write_none_given<W: Sink>(given: &Answer, sink: &mut W) -> Result<u8, EngineFault>
    ensures output { IsOutput (none_by (Some given.now)) (W.contents sink.old)
        (W.contents sink.new) result }
    ensures failed { result ≡ Err EngineFault.Write → W.failed sink.new ≡ failed_once (W.failed sink.old) }
{
    match given {
        Answer::Cover(_) => write_line(b"wrong: a cover exists\n", 1, sink),
        Answer::NoCover => write_line(b"right\n", 0, sink),
    }
}

/// Writes whether none is right where a search gave this answer, or none in its limits, and returns the status, with
/// why there is none.
#[tactic(auto, using(crate::proofs::Given::none_ok, crate::proofs::Given::none_err, crate::proofs::Given::why_ok, crate::proofs::Given::why_err))]
fn write_none_by<W: Sink>(
    given: &Result<Answer, Unanswered>,
    sink: &mut W,
) -> Result<Written, EngineFault>
    ensures output { IsOutput (none_by (result_ok given.now))
        (W.contents sink.old) (W.contents sink.new) (status_in result) }
    ensures failed { result ≡ Err EngineFault.Write → W.failed sink.new ≡ failed_once (W.failed sink.old) }
    ensures why { IfOk result (λ written. written.why ≡ result_err given.now) }
{
    match given {
        Ok(answer) => {
            let status = write_none_given(answer, sink)?;
            Ok(Written { status, why: None })
        }
        Err(why) => {
            let status = write_line(b"no answer\n", 4, sink)?;
            Ok(Written {
                status,
                why: Some(*why),
            })
        }
    }
}

/// Searches for a cover until so many visits are counted, writes whether none is right, and returns how that ended.
#[tactic(auto, using(crate::proofs::Given::fueled_none))]
fn write_none<W: Sink>(
    alloc: Global,
    problem: &Problem,
    fuel: u64,
    sink: &mut W,
) -> Result<Written, EngineFault>
    requires fuel { 1 ≤ fuel }
    ensures output { IsOutput (none_said problem.now (outcome problem.now [] fuel))
        (W.contents sink.old) (W.contents sink.new) (status_in result) }
    ensures failed { result ≡ Err EngineFault.Write → W.failed sink.new ≡ failed_once (W.failed sink.old) }
{
    match fueled_answer(alloc, problem, fuel, &mut Unwatched) {
        Ok(given) => write_none_by(&given, sink),
        Err(_) => Err(EngineFault::Memory),
    }
}

/// Searches for a cover until a limit is met, writes whether none is right, and returns how that ended.
#[tactic(auto, using(crate::proofs::Outcomes::checks_within, crate::proofs::Outcomes::output_of, crate::proofs::Given::none_why))]
fn write_none_within<W: Sink, C: Clock>(
    clock: &C,
    alloc: Global,
    problem: &Problem,
    limits: &SearchLimits,
    sink: &mut W,
) -> Result<Written, EngineFault>
    ensures output { IsOutputOf (NoneSaysWithin limits.now.fuel limits.now.time problem.now)
        (W.contents sink.old) (W.contents sink.new) (status_in result) }
    ensures failed { result ≡ Err EngineFault.Write → W.failed sink.new ≡ failed_once (W.failed sink.old) }
    ensures why { IfOk result (λ written. SaysWhy
        (IsUnanswered (IsLimited limits.now.time) problem.now limits.now.fuel)
        written.status written.why) }
{
    match answer_within(clock, alloc, problem, limits, &mut Unwatched) {
        Ok(given) => write_none_by(&given, sink),
        Err(_) => Err(EngineFault::Memory),
    }
}

/// Tests an answer, writes whether it is right, and returns how that ended.
#[tactic(auto, unfolding(crate::specs::Check::check_said))]
fn write_check<W: Sink>(
    alloc: Global,
    problem: &Problem,
    answer: &Answer,
    fuel: u64,
    sink: &mut W,
) -> Result<Written, EngineFault>
    requires options { IsListedAnswer problem.now answer.now }
    requires fuel { 1 ≤ fuel }
    ensures output { IsOutput (check_said problem.now answer.now fuel) (W.contents sink.old)
        (W.contents sink.new) (status_in result) }
    ensures failed { result ≡ Err EngineFault.Write → W.failed sink.new ≡ failed_once (W.failed sink.old) }
{
    match answer {
        Answer::Cover(options) => write_tested(alloc, problem, options.as_slice(), sink),
        Answer::NoCover => write_none(alloc, problem, fuel, sink),
    }
}

/// Tests an answer within limits, writes whether it is right, and returns how that ended.
#[tactic(auto, using(crate::proofs::Given::verdict_why))]
fn write_check_within<W: Sink, C: Clock>(
    clock: &C,
    alloc: Global,
    problem: &Problem,
    answer: &Answer,
    limits: &SearchLimits,
    sink: &mut W,
) -> Result<Written, EngineFault>
    requires options { IsListedAnswer problem.now answer.now }
    ensures output { IsOutputOf (MayCheck problem.now answer.now limits.now.fuel limits.now.time)
        (W.contents sink.old) (W.contents sink.new) (status_in result) }
    ensures failed { result ≡ Err EngineFault.Write → W.failed sink.new ≡ failed_once (W.failed sink.old) }
    ensures why { IfOk result (λ written. SaysWhy
        (IsUnanswered (IsLimited limits.now.time) problem.now limits.now.fuel)
        written.status written.why) }
{
    match answer {
        Answer::Cover(options) => write_tested(alloc, problem, options.as_slice(), sink),
        Answer::NoCover => write_none_within(clock, alloc, problem, limits, sink),
    }
}

/// Reads a problem and an answer to it, both to their ends, tests the answer, and writes `right`, or what is wrong, or
/// `no answer`: a cover is tested by counting, and that there is none by a search that counts so many visits at most.
/// Only tests call this: the program calls `check_within`.
///
/// # Errors
///
/// `Read` and `Write` if that device failed, `File` with the first fault of the problem's text, else `Answer` with that
/// of the answer's, and `Memory`. After `Write` a beginning of the line was written, after another fault nothing. At
/// `Memory` both sources may have been read in part.
#[tactic(auto, using(crate::proofs::Ended::checks_unread_plain))]
pub fn check_engine<R: Source, S: Source, W: Sink>(
    alloc: Global,
    fuel: u64,
    file: &mut R,
    answer: &mut S,
    sink: &mut W,
) -> Result<CheckEnd, EngineFault>
    requires fuel { 1 ≤ fuel }
    ensures ended { IfSome (R.remaining file.old) (λ text. IfSome (S.remaining answer.old) (λ given.
        IsEnded (CheckSays given fuel) (CheckRefuses given) text (W.contents sink.old)
        (W.contents sink.new) result)) }

    // Both texts are read to their ends before either is tested, so a refusal of one says that the other can be read.
    ensures file_read { result ≢ Err EngineFault.Read → result ≢ Err EngineFault.Memory →
        IsAtEnd (R.remaining file.new) }
    ensures answer_read { result ≢ Err EngineFault.Read → result ≢ Err EngineFault.Memory →
        IsAtEnd (S.remaining answer.new) }
    ensures read_fault { result ≡ Err EngineFault.Read →
        (R.failed file.new ≡ failed_once (R.failed file.old)) ⊎ (S.failed answer.new ≡ failed_once (S.failed answer.old)) }
    ensures write_fault { result ≡ Err EngineFault.Write → W.failed sink.new ≡ failed_once (W.failed sink.old) }
{
    let given = read_given(alloc, file, answer)?;
    let written = write_check(alloc, &given.read.problem, &given.answer, fuel, sink)?;
    Ok(EngineEnd {
        status: written.status,
        ignored: given.read.ignored,
        why: written.why,
    })
}

/// Does what `check_engine` does within limits: that there is no cover is tested by a search, and `no answer` is
/// written once a limit is met, of visits or of time. Without a limit it decides. Where there is no answer the end says
/// which limit was met, and where a read failed the failure says of which input.
#[tactic(auto, using(crate::proofs::Ended::checks_unread, crate::proofs::Ended::checks_written, crate::proofs::Ended::told_written, crate::proofs::Ended::write_failed, crate::proofs::Ended::read_well, crate::proofs::Ended::not_unread, crate::proofs::Ended::says_why))]
pub fn check_within<R: Source, S: Source, W: Sink, C: Clock>(
    clock: &C,
    alloc: Global,
    limits: &SearchLimits,
    file: &mut R,
    answer: &mut S,
    sink: &mut W,
) -> Result<CheckEnd, Failure>
    ensures ended { IfSome (R.remaining file.old) (λ text. IfSome (S.remaining answer.old) (λ given.
        IsEnded (CheckSaysWithin given limits.now.fuel limits.now.time) (CheckRefuses given) text
        (W.contents sink.old) (W.contents sink.new) (plain result))) }
    ensures file_read { plain result ≢ Err EngineFault.Read → plain result ≢ Err EngineFault.Memory →
        IsAtEnd (R.remaining file.new) }
    ensures answer_read { plain result ≢ Err EngineFault.Read → plain result ≢ Err EngineFault.Memory →
        IsAtEnd (S.remaining answer.new) }
    ensures read_fault { plain result ≡ Err EngineFault.Read →
        (R.failed file.new ≡ failed_once (R.failed file.old)) ⊎ (S.failed answer.new ≡ failed_once (S.failed answer.old)) }
    ensures write_fault { plain result ≡ Err EngineFault.Write → W.failed sink.new ≡ failed_once (W.failed sink.old) }
    ensures unread_file { IsErrOf result (Failure.Unread Unread.File) →
        R.failed file.new ≡ failed_once (R.failed file.old) }
    ensures unread_answer { IsErrOf result (Failure.Unread Unread.Answer) →
        S.failed answer.new ≡ failed_once (S.failed answer.old) }
    ensures why { IfSome (R.remaining file.old) (λ text.
        IfOk result (SaysWhyOf limits.now.fuel limits.now.time text)) }
    ensures told { IfSome (R.remaining file.old) (λ text. IfErr result (Tells text)) }
{
    let given = read_given(alloc, file, answer)?;
    let problem = &given.read.problem;
    let written = write_check_within(clock, alloc, problem, &given.answer, limits, sink);
    ended_with(written, given.read.ignored)
}
