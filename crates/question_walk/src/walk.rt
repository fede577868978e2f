//! Where a walk stands: the chosen options, and what is known of the last of them.

ghost use Rattle.std.specs.Prelude.{◌≡◌, [], true, IfOk, MatchOption};
ghost use Rattle.cover_problem.specs.Numbers.{is_in};
ghost use Rattle.cover_problem.specs.Prefix.{IsBarren, IsCoverOver};
ghost use Rattle.cover_problem.specs.Search.{first};
ghost use Rattle.question_walk.specs.Walks.{IsReached};
ghost use Rattle.question_walk.specs.Ends.{IsStepOf};

use crate::walk_end::{Step, WalkEnd};
use cover_problem::{Numbers, Problem};
use dancing_links::Links;
use std::alloc::{AllocError, Global};
use std::marker::Model;

/// Where a walk to the first cover stands. The options before the last one are the beginning of the first cover, if
/// there is one; so is the last one, if it isn't in question.
#[derive(Drop)]
pub(crate) struct Walk<'a> {
    links: Links<'a>,
    /// The option that was chosen last, where it isn't known yet whether an exact cover begins so.
    asked: Option<u16>,
    /// A cover that was found last, which answers for its own options.
    cover: Option<Numbers>,
}

impl<'a> Model for Walk<'a> {
    ghost use Rattle.question_walk.specs.Walks.{Walk as WalkValue, IsOnTheWay};

    ghost Value = { WalkValue };

    ghost view = { λ w. record {
      problem = w.links.problem;
      chosen = w.links.chosen;
      asked = w.asked;
      cover = w.cover;
    } };

    ghost invariant = { λ w. IsOnTheWay w.links w.asked w.cover };
}

/// Whether a cover has the option.
fn has(cover: &[u16], option: u16) -> bool
    ensures { result ≡ is_in cover.now option }
{
    cover.contains(&option)
}

impl<'a> Walk<'a> {
    /// A walk that has chosen nothing. The only error is out of memory.
    pub(crate) fn new(alloc: Global, problem: &'a Problem) -> Result<Walk<'a>, AllocError>
        ensures problem { IfOk result (λ walk. walk.problem ≡ problem.now) }
        ensures chosen { IfOk result (λ walk. walk.chosen ≡ []) }
    {
        Ok(Walk {
            links: Links::build(alloc, problem)?,
            asked: None,
            cover: None,
        })
    }

    /// The chosen options, in the order of the choices.
    pub(crate) fn chosen(&self) -> &[u16]
        ensures { result.now ≡ self.now.chosen }
    {
        self.links.chosen()
    }

    /// Whether the cover at hand shows that an exact cover begins with the chosen options.
    fn is_known(&self) -> bool
        ensures { result ≡ true →
            IsReached self.now.problem self.now.chosen self.now.cover }
    {
        match (&self.cover, self.asked) {
            (Some(cover), Some(option)) => has(cover.as_slice(), option),
            (Some(_), None) => true,
            (None, _) => false,
        }
    }

    /// Whether an option is in question, where none means that there is no cover.
    fn onward(&self) -> Step
        ensures { MatchOption self.now.asked (result ≡ Step.End WalkEnd.NoCover) (λ _. result ≡ Step.On) }
    {
        match self.asked {
            Some(_) => Step::On,
            None => Step::End(WalkEnd::NoCover),
        }
    }

    /// Chooses the first live option of the branch item, which is in question then. Without a branch item the chosen
    /// options are the first cover.
    fn descend(&mut self) -> Step
        requires { self.old.asked ≡ None }
        ensures problem { self.new.problem ≡ self.old.problem }
        ensures step { IsStepOf (first self.old.problem []) self.new.chosen result }
    {
        let Some(item) = self.links.branch_item() else {
            return Step::End(WalkEnd::Found);
        };
        self.asked = self.links.choose_first(item);
        self.onward()
    }

    /// Goes on by one choice, if it is known that an exact cover begins with the chosen options.
    pub(crate) fn step(&mut self) -> Step
        ensures problem { self.new.problem ≡ self.old.problem }
        ensures step { IsStepOf (first self.old.problem []) self.new.chosen result }
    {
        if !self.is_known() {
            return Step::Ask;
        }
        self.asked = None;
        self.descend()
    }

    /// Hears of an exact cover that begins with the chosen options.
    pub(crate) fn accept(&mut self, cover: Numbers)
        requires { IsCoverOver self.old.problem self.old.chosen cover }
        ensures { self.new.problem ≡ self.old.problem }
    {
        self.asked = None;
        self.cover = Some(cover);
    }

    /// Hears that no exact cover begins with the chosen options. Then the next live option of the branch item is in
    /// question.
    pub(crate) fn deny(&mut self) -> Step
        requires { IsBarren self.old.problem self.old.chosen }
        ensures problem { self.new.problem ≡ self.old.problem }
        ensures step { IsStepOf (first self.old.problem []) self.new.chosen result }
    {
        if self.asked.is_some() {
            self.asked = self.links.choose_next();
            return self.onward();
        }
        Step::End(WalkEnd::NoCover)
    }
}
