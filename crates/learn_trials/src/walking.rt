//! Walks that ask a learner, and are stopped again and again.

use brancher::Outcome;
use cover_problem::Problem;
use learner::{Figures, LearnerWatch, Settings};
use question_walk::{QuestionWalk, WalkEnd};
use std::alloc::{AllocError, Global};
use used_items::with_used_items;

/// A watch that stops a learner each time that it looks so often.
#[derive(Drop)]
struct Halts {
    /// How often it has looked since it last stopped one.
    looks: u64,
    /// How often it looks before it stops one.
    most: u64,
}

impl LearnerWatch for Halts {
    fn look(&mut self, _figures: &Figures) -> bool {
        self.looks = self.looks.wrapping_add(1);
        if self.looks < self.most {
            return false;
        }
        self.looks = 0;
        true
    }
}

/// Walks to the end, and is stopped on the way. Each time that it is stopped it may go on for longer, so it comes to an
/// end.
fn walked(walk: &mut QuestionWalk<'_>) -> Result<WalkEnd, AllocError> {
    for most in 1..u64::MAX {
        let end = walk.search(&mut Halts { looks: 0, most })?;
        if end != WalkEnd::Stopped {
            return Ok(end);
        }
    }
    Ok(WalkEnd::Stopped)
}

/// Whether the end of a walk says the same as a search that ended so and found these options.
fn is_end_of(walk: &QuestionWalk<'_>, end: WalkEnd, outcome: Outcome, found: &[u16]) -> bool {
    match end {
        WalkEnd::Found => outcome == Outcome::Cover && walk.chosen() == found,
        WalkEnd::NoCover => outcome == Outcome::Barren,
        WalkEnd::Stopped => false,
    }
}

/// Whether a walk ends as such a search did; the only error is out of memory.
fn ends_so(
    mut walk: QuestionWalk<'_>,
    outcome: Outcome,
    found: &[u16],
) -> Result<bool, AllocError> {
    let end = walked(&mut walk)?;
    Ok(is_end_of(&walk, end, outcome, found))
}

/// Whether walks find the first cover where a search found these options, and else that there is none: one asks about
/// the problem itself, and one about the problem with those items made primary that each cover uses, if there are some.
/// The only error is out of memory.
pub fn is_first(
    alloc: Global,
    problem: &Problem,
    settings: Settings,
    outcome: Outcome,
    found: &[u16],
) -> Result<bool, AllocError> {
    let walk = QuestionWalk::new(alloc, problem, settings)?;
    if !ends_so(walk, outcome, found)? {
        return Ok(false);
    }
    let Some(made) = with_used_items(alloc, problem)? else {
        return Ok(true);
    };
    let walk = QuestionWalk::asking(alloc, problem, &made.problem, settings)?;
    ends_so(walk, outcome, found)
}
