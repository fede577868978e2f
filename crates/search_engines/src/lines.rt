//! The lines that an engine writes, each with the status that goes with it.

ghost use Rattle.std.specs.Prelude.{◌≡◌, option_map, IfErr, IfOk, IfSome};
ghost use Rattle.std.specs.Result.{result_err, result_ok};
ghost use Rattle.dlx_reader.specs.Devices.{failed_once, IsCounted};
ghost use Rattle.dlx_reader.specs.Writing.{IsWritable};
ghost use Rattle.search_engines.specs.Output.{answer_said, published_said, said, status_in, IsOutput};

use crate::engine::Written;
use crate::fault::EngineFault;
use crate::unanswered::Unanswered;
use cover_problem::{Answer, Problem};
use dlx_reader::{Sink, WriteFault, write_answer, write_bytes};

/// Writes all of a text, and returns the status that is given for it. The only fault is `Write`; then a beginning was
/// written.
pub fn write_line<W: Sink>(text: &[u8], status: u8, sink: &mut W) -> Result<u8, EngineFault>
    ensures output { IsOutput (said text.now status) (W.contents sink.old)
        (W.contents sink.new) result }
    ensures failed { result ≡ Err EngineFault.Write → W.failed sink.new ≡ failed_once (W.failed sink.old) }
    ensures fault { IfErr result (λ fault. fault ≡ EngineFault.Write) }
    ensures counted { IsCounted (W.failed sink.old) (W.failed sink.new) result }
{
    match write_bytes(text, sink) {
        Ok(()) => Ok(status),
        Err(WriteFault) => Err(EngineFault::Write),
    }
}

/// Writes the text of an answer, and returns the status: 0 for a cover, 1 for none.
pub fn write_solution<W: Sink>(
    problem: &Problem,
    answer: &Answer,
    sink: &mut W,
) -> Result<u8, EngineFault>
    requires order { IsWritable problem.now answer.now }
    ensures output { IsOutput (answer_said problem.now answer.now) (W.contents sink.old)
        (W.contents sink.new) result }
    ensures failed { result ≡ Err EngineFault.Write → W.failed sink.new ≡ failed_once (W.failed sink.old) }
    ensures counted { IsCounted (W.failed sink.old) (W.failed sink.new) result }
{
    if write_answer(problem, answer, sink).is_err() {
        return Err(EngineFault::Write);
    }
    match answer {
        Answer::Cover(_) => Ok(0),
        Answer::NoCover => Ok(1),
    }
}

/// Writes the answer that a search gave, or that there is none, and returns the status, with why there is none.
#[tactic(auto, using(crate::proofs::Given::said_ok, crate::proofs::Given::said_err, crate::proofs::Given::why_ok, crate::proofs::Given::why_err))]
pub fn write_given<W: Sink>(
    problem: &Problem,
    given: &Result<Answer, Unanswered>,
    sink: &mut W,
) -> Result<Written, EngineFault>
    requires order { IfOk given.now (IsWritable problem.now) }
    ensures output { IsOutput (published_said problem.now (result_ok given.now))
        (W.contents sink.old) (W.contents sink.new) (status_in result) }
    ensures failed { result ≡ Err EngineFault.Write → W.failed sink.new ≡ failed_once (W.failed sink.old) }
    ensures why { IfOk result (λ written. written.why ≡ result_err given.now) }
{
    match given {
        Ok(answer) => {
            let status = write_solution(problem, answer, sink)?;
            Ok(Written { status, why: None })
        }
        Err(why) => {
            let status = write_line(b"no answer\n", 4, sink)?;
            Ok(Written {
                status,
                why: Some(*why),
            })
        }
    }
}

/// Writes what is published, or that nothing is, and returns the status.
pub fn write_published<W: Sink>(
    problem: &Problem,
    published: Option<&Answer>,
    sink: &mut W,
) -> Result<u8, EngineFault>
    requires order { IfSome published (λ answer. IsWritable problem.now answer.now) }
    ensures output { IsOutput (published_said problem.now (option_map
        (λ answer. answer.now) published.entry))
        (W.contents sink.old) (W.contents sink.new) result }
    ensures failed { result ≡ Err EngineFault.Write → W.failed sink.new ≡ failed_once (W.failed sink.old) }
    ensures counted { IsCounted (W.failed sink.old) (W.failed sink.new) result }
{
    match published {
        Some(answer) => write_solution(problem, answer, sink),
        None => write_line(b"no answer\n", 4, sink),
    }
}
