//! Answers from text.

ghost use Rattle.std.specs.Prelude.{◌≡◌, ◌≢◌, ℕ, ◌<◌, length, IfSome, IfNone, IfOk, IfErr, ◌↔◌, IsTrue, Result};
ghost use Rattle.cover_problem.specs.declared.answer.Answer.{Answer as AnswerValue};
ghost use Rattle.dlx_reader.specs.declared.answer_fault.AnswerFault.{AnswerFault as Fault};
ghost use Rattle.dlx_reader.specs.Answers.{AreOptionsOf, IsFirstUnknown, IsAnswerOf, IsFaultOf, IsReadOf};
ghost use Rattle.dlx_reader.specs.Left.{worded_left};
ghost use Rattle.dlx_reader.specs.AnswerSteps.{IsOptionFault};

use crate::answer_fault::AnswerFault;
use crate::answer_head::{Head, head_before};
use crate::lines::Lines;
use crate::names::Names;
use crate::option_index::{OptionIndex, keys_of, name_key};
use cover_problem::{Answer, Numbers, Problem};
use std::alloc::Global;

/// The options of the lines that aren't blank, in their order.
fn options_of(alloc: Global, mut lines: Lines, problem: &Problem) -> Result<Numbers, AnswerFault>
    ensures options { IfOk result (AreOptionsOf problem.now (worded_left lines.entry)) }
    ensures fault { IfErr result (IsOptionFault problem.now (worded_left lines.entry)) }
{
    let names = Names::of_problem(alloc, problem)?;
    let colour_names = Names::of_colours(alloc, problem)?;
    let keys = keys_of(alloc, problem)?;
    // (the index borrows the keys, as no type can own what it borrows)
    let mut index = OptionIndex::new(alloc, problem, &keys)?;
    let mut key = Vec::new(alloc);
    let mut colours = Vec::new(alloc);
    while let Some(line) = lines.take_worded() {
        name_key(&names, &colour_names, line.text, &mut key, &mut colours)?;
        let Some(_option) = index.take(&key)? else {
            return Err(AnswerFault::UnknownOption(line.number));
        };
    }
    Ok(Numbers::from_vec(index.into_options()))
}

/// The answer of the text, or its fault.
fn answer_of(alloc: Global, text: &[u8], problem: &Problem) -> Result<Answer, AnswerFault>
    ensures answer { IfOk result (IsAnswerOf text.now problem.now) }
    ensures fault { IfErr result (λ fault.
        fault ≢ AnswerFault.Memory → IsFaultOf text.now problem.now fault) }
{
    let mut lines = Lines::of(text);
    let Some(first) = lines.take_worded() else {
        return Err(AnswerFault::BadHead);
    };
    // (the lines are counted before one is read: a wrong count is reported before an unknown option)
    match head_before(first.text, lines.count_worded())? {
        Head::NoCover => Ok(Answer::NoCover),
        Head::Cover(_) => options_of(alloc, lines, problem).map(Answer::Cover),
    }
}

/// The answer that a text gives for a problem.
///
/// Lines and words are those of problem files, but there are no comments. The first line that isn't blank is `none`, or
/// `cover` and the number of options in one to five decimal digits. As many lines follow that aren't blank, each with
/// the names of an option's items in its order, each with a `:` and the name of its colour where it has one. Of equal
/// options, those with the same items and colours, a line means the one of lowest number that no earlier line means.
/// The options of a cover stand in the order of their lines.
///
/// A fault is the first of these: `BadHead`, `WrongCount`, then `UnknownOption` of the first such line. `Memory` comes
/// only where a growth was refused. Beside the text it takes memory of the order of the problem, and of the longest
/// line.
pub fn read_answer(alloc: Global, text: &[u8], problem: &Problem) -> Result<Answer, AnswerFault>
    ensures answer { IfOk result (IsAnswerOf text.now problem.now) }
    ensures fault { IfErr result (λ fault.
        fault ≢ AnswerFault.Memory → IsFaultOf text.now problem.now fault) }

    // An answer or a fault that the text has is the one that is read, unless memory ran out.
    ensures only { (read : Result AnswerValue Fault) → IsReadOf text.now problem.now read →
        result ≢ Err AnswerFault.Memory → result ≡ read }
{
    answer_of(alloc, text, problem)
}
