//! A walk with its learner.

ghost use Rattle.std.specs.Prelude.{◌≡◌, [], IfOk};
ghost use Rattle.cover_problem.specs.Search.{first};
ghost use Rattle.question_walk.specs.Ends.{IsEndOf};
ghost use Rattle.used_items.specs.Covers.{HaveSameCovers};

use crate::asking::go_on;
use crate::walk::Walk;
use crate::walk_end::WalkEnd;
use cover_problem::Problem;
use learner::{Figures, IncrementalLearner, LearnerWatch, Settings};
use std::alloc::{AllocError, Global};
use std::marker::Model;

/// A walk to the first cover of a problem, with the learner that it asks. It can be stopped and goes on later from
/// where it stood, with all that the learner has learned. Contracts see the problem and the chosen options.
#[derive(Drop)]
pub struct QuestionWalk<'a> {
    walk: Walk<'a>,
    learner: IncrementalLearner<'a>,
    end: WalkEnd,
}

impl<'a> Model for QuestionWalk<'a> {
    ghost use Rattle.std.specs.Prelude.{[]};
    ghost use Rattle.cover_problem.specs.Search.{first};
    ghost use Rattle.used_items.specs.Covers.{HaveSameCovers};
    ghost use Rattle.question_walk.specs.Walks.{Walked};
    ghost use Rattle.question_walk.specs.Ends.{IsEndOf};

    ghost Value = { Walked };

    ghost view = { λ w. record { problem = w.walk.problem; chosen = w.walk.chosen } };

    ghost invariant = { λ w. HaveSameCovers w.walk.problem w.learner
        × IsEndOf (first w.walk.problem []) w.walk.chosen w.end };
}

impl<'a> QuestionWalk<'a> {
    /// A walk that has chosen nothing, with a learner of the problem. The only error is out of memory.
    pub fn new(
        alloc: Global,
        problem: &'a Problem,
        settings: Settings,
    ) -> Result<QuestionWalk<'a>, AllocError>
        ensures { IfOk result (λ walk. walk.problem ≡ problem.now) }
    {
        QuestionWalk::asking(alloc, problem, problem, settings)
    }

    /// A walk that has chosen nothing, with a learner of another problem with the same exact covers, such as one in
    /// which further items are primary since each cover uses them. The only error is out of memory.
    pub fn asking(
        alloc: Global,
        problem: &'a Problem,
        asked: &'a Problem,
        settings: Settings,
    ) -> Result<QuestionWalk<'a>, AllocError>
        requires { HaveSameCovers problem.now asked.now }
        ensures { IfOk result (λ walk. walk.problem ≡ problem.now) }
    {
        let walk = Walk::new(alloc, problem)?;
        let learner = IncrementalLearner::new(alloc, asked, settings)?;
        let end = WalkEnd::Stopped;
        Ok(QuestionWalk { walk, learner, end })
    }

    /// Goes on to the first cover, or until it is known that there is none, or the watch stops the learner.
    ///
    /// # Errors
    ///
    /// Out of memory. It may go on later; what it says then is true.
    pub fn search<W: LearnerWatch>(&mut self, watch: &mut W) -> Result<WalkEnd, AllocError>
        ensures problem { self.new.problem ≡ self.old.problem }
        ensures end { IfOk result (IsEndOf (first self.old.problem []) self.new.chosen) }
    {
        self.end = WalkEnd::Stopped;
        let end = go_on(&mut self.walk, &mut self.learner, watch)?;
        self.end = end;
        Ok(end)
    }

    /// What the last search came to.
    pub fn end(&self) -> WalkEnd
        ensures { IsEndOf (first self.now.problem []) self.now.chosen result }
    {
        self.end
    }

    /// The chosen options, in the order of the choices.
    pub fn chosen(&self) -> &[u16]
        ensures { result.now ≡ self.now.chosen }
    {
        self.walk.chosen()
    }

    /// What the learner has done so far.
    pub fn figures(&self) -> Figures {
        self.learner.figures()
    }
}
