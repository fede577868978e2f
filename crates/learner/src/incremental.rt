//! Questions with given options, one after the other, by one learner that keeps its clauses (Eén and Sörensson,
//! "Temporal induction by incremental SAT solving").

ghost use Rattle.std.specs.Prelude.{◌≡◌, true, IfOk, IfSome};
ghost use Rattle.cover_problem.specs.Numbers.{is_in};
ghost use Rattle.cover_problem.specs.Prefix.{IsBarren, extends};
ghost use Rattle.learner.specs.Covers.{IsCoverOf};
ghost use Rattle.learner.specs.Found.{IsTrueWith};

use crate::figures::{Figures, LearnerWatch};
use crate::find::{Found, counted};
use crate::learner::{End, Learner};
use crate::settings::Settings;
use cover_problem::{Numbers, Problem};
use std::alloc::{AllocError, Global};
use std::marker::Model;

/// A learner that is asked for exact covers with given options, and keeps what it learned from one question to the
/// next. Contracts see its problem.
#[derive(Drop)]
pub struct IncrementalLearner<'a> {
    alloc: Global,
    learner: Learner<'a>,
}

impl<'a> Model for IncrementalLearner<'a> {
    ghost use Rattle.cover_problem.specs.Problem.{Problem as ProblemValue};

    ghost Value = { ProblemValue };

    ghost view = { λ l. l.learner };
}

/// Returns whether all given options are among the chosen ones.
fn has_all(chosen: &[u16], given: &[u16]) -> bool
    ensures { result ≡ extends (is_in chosen.now) given.now }
{
    given.iter().all(|option| chosen.contains(option))
}

/// Returns the cover that was counted, if there is one and it has all given options.
fn cover_with(problem: &Problem, given: &[u16], cover: Option<Numbers>) -> Found
    requires { IfSome cover (IsCoverOf problem.now) }
    ensures { IsTrueWith problem.now given.now result }
{
    match cover {
        Some(cover) if has_all(cover.as_slice(), given) => Found::Cover(cover),
        _ => Found::Stopped,
    }
}

/// Returns that no cover has all given options, if that is known.
fn none_with(problem: &Problem, given: &[u16], is_denied: bool) -> Found
    requires { is_denied ≡ true → IsBarren problem.now given.now }
    ensures { IsTrueWith problem.now given.now result }
{
    if is_denied {
        Found::NoCover
    } else {
        Found::Stopped
    }
}

impl<'a> IncrementalLearner<'a> {
    /// A learner that has learned nothing yet. The only error is out of memory.
    pub fn new(
        alloc: Global,
        problem: &'a Problem,
        settings: Settings,
    ) -> Result<IncrementalLearner<'a>, AllocError>
        ensures { IfOk result (λ learner. learner ≡ problem.now) }
    {
        let learner = Learner::new(alloc, problem, settings)?;
        Ok(IncrementalLearner { alloc, learner })
    }

    /// Returns what was done so far, for all questions together.
    pub fn figures(&self) -> Figures {
        self.learner.figures()
    }

    /// Returns what a search that ended so has found.
    fn found_at(&mut self, given: &[u16], end: End) -> Result<Found, AllocError>
        ensures kept { self.new ≡ self.old }
        ensures found { IfOk result (IsTrueWith self.old given.now) }
    {
        match end {
            End::Assigned => {
                let chosen = self.learner.chosen()?;
                let problem = self.learner.problem();
                let cover = counted(self.alloc, problem, &chosen)?;
                Ok(cover_with(problem, given, cover))
            }
            End::Refuted => {
                let is_refuted = self.learner.is_refuted();
                Ok(none_with(self.learner.problem(), given, is_refuted))
            }
            End::Excluded(option) => {
                let is_denied = self.learner.denies(given, option)?;
                Ok(none_with(self.learner.problem(), given, is_denied))
            }
            End::Stopped => Ok(Found::Stopped),
        }
    }

    /// Searches for an exact cover that has all given options, until one is found, it is known that there is none, or
    /// the watch stops the search. `NoCover` says that none has all of them. Without given options it is a question for
    /// any exact cover.
    ///
    /// # Errors
    ///
    /// Out of memory. Later questions may end `Stopped` then; what they find is true.
    pub fn find<W: LearnerWatch>(
        &mut self,
        given: &[u16],
        watch: &mut W,
    ) -> Result<Found, AllocError>
        ensures kept { self.new ≡ self.old }
        ensures found { IfOk result (IsTrueWith self.old given.now) }
    {
        if self.learner.is_refuted() {
            return Ok(Found::NoCover);
        }
        self.learner.begin(given)?;
        let end = self.learner.search(watch)?;
        self.found_at(given, end)
    }
}
