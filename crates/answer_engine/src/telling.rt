//! The text of an answer, and of what it rests on.

ghost use Rattle.std.specs.Prelude.{◌≡◌, option_map, true, IfSome};
ghost use Rattle.answer_engine.specs.Answers.{IsWonOf, told_said, won_said};
ghost use Rattle.dlx_reader.specs.Devices.{failed_once};
ghost use Rattle.search_engines.specs.Output.{IsOutput, status_in};

use crate::basis::{Won, basis_lines};
use cover_problem::Problem;
use dlx_reader::Sink;
use search_engines::{EngineFault, Unanswered, Written, write_line, write_published};
use std::alloc::Global;

/// Writes an answer and behind it what it rests on, and returns the status.
#[tactic(auto, using(crate::proofs::Firsts::right_is_writable))]
fn write_with_basis<W: Sink>(
    alloc: Global,
    problem: &Problem,
    won: &Won,
    sink: &mut W,
) -> Result<u8, EngineFault>
    requires won { IsWonOf problem.now won.now }
    ensures output { IsOutput (won_said true problem.now won.now) (W.contents sink.old)
        (W.contents sink.new) result }
    ensures failed { result ≡ Err EngineFault.Write → W.failed sink.new ≡ failed_once (W.failed sink.old) }
{
    // (before the first byte of the answer, so that nothing is written if memory runs out)
    let Ok(lines) = basis_lines(alloc, problem, &won.basis) else {
        return Err(EngineFault::Memory);
    };
    let status = write_published(problem, Some(&won.answer), sink)?;
    write_line(&lines, status, sink)
}

/// Writes an answer, behind it what it rests on, if that is asked for, and returns the status.
#[tactic(auto, using(crate::proofs::Firsts::right_is_writable))]
fn write_won<W: Sink>(
    alloc: Global,
    problem: &Problem,
    won: &Won,
    is_asked: bool,
    sink: &mut W,
) -> Result<u8, EngineFault>
    requires won { IsWonOf problem.now won.now }
    ensures output { IsOutput (won_said is_asked problem.now won.now) (W.contents sink.old)
        (W.contents sink.new) result }
    ensures failed { result ≡ Err EngineFault.Write → W.failed sink.new ≡ failed_once (W.failed sink.old) }
{
    if is_asked {
        write_with_basis(alloc, problem, won, sink)
    } else {
        write_published(problem, Some(&won.answer), sink)
    }
}

/// Writes an answer as `write_won` does, or that there is none since the time of all ways is over, and returns how that
/// ended.
pub(crate) fn write_told<W: Sink>(
    alloc: Global,
    problem: &Problem,
    won: Option<&Won>,
    is_asked: bool,
    sink: &mut W,
) -> Result<Written, EngineFault>
    requires won { IfSome won (λ won. IsWonOf problem.now won.now) }
    ensures output { IsOutput (told_said is_asked problem.now
        (option_map (λ won. won.now) won.entry)) (W.contents sink.old) (W.contents sink.new)
        (status_in result) }
    ensures failed { result ≡ Err EngineFault.Write → W.failed sink.new ≡ failed_once (W.failed sink.old) }
{
    match won {
        Some(won) => Ok(Written {
            status: write_won(alloc, problem, won, is_asked, sink)?,
            why: None,
        }),
        None => Ok(Written {
            status: write_published(problem, None, sink)?,
            why: Some(Unanswered::TimeOfAllWays),
        }),
    }
}
