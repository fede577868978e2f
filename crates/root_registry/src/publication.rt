//! What the registry publishes of its problem.

ghost use Rattle.std.specs.Prelude.{◌≡◌, IfOk, option_map};
ghost use Rattle.root_registry.specs.Published.{answer_of};

use cover_problem::{Answer, Problem, in_order};
use spawn_frame::ChildResult;
use std::alloc::{AllocError, Global};
use std::marker::Model;

/// A problem, and the answer to it that is published, once there is one.
#[derive(Drop)]
pub(crate) struct Publication<'a> {
    problem: &'a Problem,
    // (kept beside the root's result: file order takes memory, and a look at the answer must not fail)
    answer: Option<Answer>,
}

impl<'a> Model for Publication<'a> {
    ghost use Rattle.root_registry.specs.Published.{Publication as PublicationValue};

    ghost Value = { PublicationValue };

    ghost view = { λ p. record { problem = p.problem.now; answer = p.answer } };
}

impl<'a> Publication<'a> {
    ghost use Rattle.root_registry.specs.Published.{answered, unanswered};

    /// Nothing is published yet of this problem.
    pub(crate) fn new(problem: &'a Problem) -> Publication<'a>
        ensures { result ≡ unanswered problem.now }
    {
        Publication {
            problem,
            answer: None,
        }
    }

    /// The problem.
    pub(crate) fn problem(&self) -> &Problem
        ensures { result.now ≡ self.now.problem }
    {
        self.problem
    }

    /// The answer, once it is published.
    pub(crate) fn answer(&self) -> Option<&Answer>
        ensures { option_map (λ answer. answer.now) result ≡ self.now.answer }
    {
        self.answer.as_ref()
    }

    /// Publishes this answer.
    pub(crate) fn publish(&mut self, answer: Answer)
        ensures { self.new ≡ answered self.old answer }
    {
        self.answer = Some(answer);
    }
}

/// A result as an answer, with the options of a cover in the order of the file; the only error is out of memory.
pub fn answer_of(
    alloc: Global,
    problem: &Problem,
    child_result: &ChildResult,
) -> Result<Answer, AllocError>
    ensures { IfOk result (λ answer. answer ≡ answer_of problem.now child_result.now) }
{
    match child_result {
        ChildResult::Cover(options) => {
            let options = in_order(alloc, problem, options.as_slice())?;
            Ok(Answer::Cover(options))
        }
        ChildResult::Empty => Ok(Answer::NoCover),
    }
}
