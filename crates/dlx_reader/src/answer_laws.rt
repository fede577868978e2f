//! What holds of the definitions of answers: each function is a law, and does nothing.

ghost use Rattle.std.specs.Prelude.{◌≡◌, ℕ, List, Result};
ghost use Rattle.cover_problem.specs.Problem.{Problem as ProblemValue, IsProblem};
ghost use Rattle.cover_problem.specs.Prefix.{InFileOrder};
ghost use Rattle.cover_problem.specs.declared.answer.Answer.{Answer as AnswerValue};
ghost use Rattle.cover_problem.specs.declared.answer.Answer.TheVariants.{Cover, NoCover};
ghost use Rattle.dlx_reader.specs.declared.answer_fault.AnswerFault.{AnswerFault as Fault};
ghost use Rattle.dlx_reader.specs.Writing.{answer_text};
ghost use Rattle.dlx_reader.specs.Answers.{IsAnswerOf, IsReadOf};
ghost use Rattle.dlx_reader.specs.AnswerLaws.{GivesCover};

/// What was written is read again: the text of a cover in file order gives the same lists of items in the same order,
/// where equal options may stand for one another, and the text of `none` gives `none`.
pub fn written_answers_are_read()
    ensures cover { (problem : ProblemValue) (options : List ℕ) → IsProblem problem →
        InFileOrder problem options →
        GivesCover (answer_text problem (Cover options)) problem options }
    ensures none { (problem : ProblemValue) →
        IsAnswerOf (answer_text problem NoCover) problem NoCover }
{}

/// Each text gives an answer or a first fault, and no other.
pub fn each_text_gives_one_read()
    ensures some { (text : List ℕ) (problem : ProblemValue) → (read : Result AnswerValue Fault)
        × IsReadOf text problem read }
    ensures one { (text : List ℕ) (problem : ProblemValue) (read other : Result AnswerValue Fault) →
        IsReadOf text problem read → IsReadOf text problem other → read ≡ other }
{}
