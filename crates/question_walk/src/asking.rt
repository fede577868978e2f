//! A walk that asks a learner where it has to.

ghost use Rattle.std.specs.Prelude.{◌≡◌, [], IfOk};
ghost use Rattle.cover_problem.specs.Search.{first};
ghost use Rattle.question_walk.specs.Ends.{IsEndOf, IsStepOf};
ghost use Rattle.used_items.specs.Covers.{HaveSameCovers};

use crate::walk::Walk;
use crate::walk_end::{Step, WalkEnd};
use learner::{Found, IncrementalLearner, LearnerWatch};
use std::alloc::AllocError;

/// Asks the learner whether an exact cover begins with the chosen options, and goes on by what it says. The only error
/// is out of memory.
fn ask<W: LearnerWatch>(
    walk: &mut Walk<'_>,
    learner: &mut IncrementalLearner<'_>,
    watch: &mut W,
) -> Result<Step, AllocError>
    requires { HaveSameCovers walk.old.problem learner.old }
    ensures problem { walk.new.problem ≡ walk.old.problem }
    ensures asked { learner.new ≡ learner.old }
    ensures step { IfOk result (IsStepOf (first walk.old.problem []) walk.new.chosen) }
{
    match learner.find(walk.chosen(), watch)? {
        Found::Cover(cover) => {
            walk.accept(cover);
            Ok(Step::On)
        }
        Found::NoCover => Ok(walk.deny()),
        Found::Stopped => Ok(Step::End(WalkEnd::Stopped)),
    }
}

/// Goes on by one choice or one question. The only error is out of memory.
fn turn<W: LearnerWatch>(
    walk: &mut Walk<'_>,
    learner: &mut IncrementalLearner<'_>,
    watch: &mut W,
) -> Result<Step, AllocError>
    requires { HaveSameCovers walk.old.problem learner.old }
    ensures problem { walk.new.problem ≡ walk.old.problem }
    ensures asked { learner.new ≡ learner.old }
    ensures step { IfOk result (IsStepOf (first walk.old.problem []) walk.new.chosen) }
{
    match walk.step() {
        Step::Ask => ask(walk, learner, watch),
        step => Ok(step),
    }
}

/// Goes on to the first cover, or until it is known that there is none, or the watch stops the learner. The only error
/// is out of memory.
pub(crate) fn go_on<W: LearnerWatch>(
    walk: &mut Walk<'_>,
    learner: &mut IncrementalLearner<'_>,
    watch: &mut W,
) -> Result<WalkEnd, AllocError>
    requires { HaveSameCovers walk.old.problem learner.old }
    ensures problem { walk.new.problem ≡ walk.old.problem }
    ensures asked { learner.new ≡ learner.old }
    ensures end { IfOk result (IsEndOf (first walk.old.problem []) walk.new.chosen) }
{
    // (far fewer turns end it: each option comes into question at most once at each length)
    for _turn in 0..u64::MAX {
        if let Step::End(end) = turn(walk, learner, watch)? {
            return Ok(end);
        }
    }
    Ok(WalkEnd::Stopped)
}
