//! A watch of a search that lets a walk go on while it looks.

ghost use Rattle.std.specs.Prelude.{◌≡◌};

use crate::stopwatch::Stopwatch;
use brancher::Watch;
use learner::{Figures, LearnerWatch};
use question_walk::{QuestionWalk, WalkEnd};
use std::marker::{Brand, PhantomData};
use std::time::{Clock, Duration};

/// For how many milliseconds the search and the walk go on in turn. Chosen: what the search decides in a tenth of a
/// second takes little longer, and what takes it longer at most twice as long (docs/DECISIONS.md).
const TURN: u64 = 50;

/// Names a problem to the prover. Nothing of it is there when the program runs.
pub(crate) trait ForProblem {
    ghost use Rattle.cover_problem.specs.Problem.{Problem};

    ghost problem: { Problem };
}

impl ForProblem for Brand {
    ghost use Rattle.cover_problem.specs.Examples.{bare};

    ghost problem = { bare };
}

/// Stops the learner of a walk once its turn is over.
#[derive(Drop)]
struct TurnWatch<'a, C: Clock> {
    clock: &'a C,
    began: Stopwatch,
    is_over: bool,
}

impl<'a, C: Clock> LearnerWatch for TurnWatch<'a, C> {
    fn look(&mut self, _figures: &Figures) -> bool {
        self.is_over = is_turn_over(self.clock, &self.began).unwrap_or(true);
        self.is_over
    }
}

/// Whether a turn that began then is over; none where the clock can't be read.
fn is_turn_over<C: Clock>(clock: &C, began: &Stopwatch) -> Option<bool> {
    let elapsed = began.elapsed(clock)?;
    Some(elapsed >= Duration::from_millis(TURN))
}

/// A watch that does what another one does, and lets a walk to the first cover go on, as long as the search did since
/// then. It stops the search once the walk has ended. Where the clock can't be read the walk doesn't go on.
#[derive(Drop)]
pub(crate) struct WalkWatch<'a, 'b, P: ForProblem, V: Watch, C: Clock> {
    clock: &'a C,
    inner: &'a mut V,
    walk: QuestionWalk<'b>,
    /// When the search went on.
    began: Stopwatch,
    /// There was no memory for the walk, or no room for what was learned.
    is_given_up: bool,
    problem: PhantomData<P>,
    ghost same: { walk.problem ≡ P.problem },
}

impl<'a, 'b, P: ForProblem, V: Watch, C: Clock> WalkWatch<'a, 'b, P, V, C> {
    /// The watch of a search that begins now, beside a walk over the problem that the type names.
    pub(crate) fn new(
        clock: &'a C,
        inner: &'a mut V,
        walk: QuestionWalk<'b>,
    ) -> WalkWatch<'a, 'b, P, V, C>
        requires { walk.problem ≡ P.problem }
    {
        WalkWatch {
            clock,
            inner,
            walk,
            began: Stopwatch::new(clock),
            is_given_up: false,
            problem: PhantomData,
        }
    }

    /// The walk.
    pub(crate) fn walk(&self) -> &QuestionWalk<'b>
        ensures { result.now.problem ≡ P.problem }
    {
        &self.walk
    }

    /// Whether it is the walk's turn.
    fn is_due(&self) -> bool {
        !self.is_given_up && is_turn_over(self.clock, &self.began).unwrap_or(false)
    }

    /// Lets the walk go on for a turn. Returns whether it has ended, so that the search is to stop.
    fn go_on(&mut self) -> bool {
        // (the watch of the search doesn't look meanwhile: a turn is short)
        let mut turn = TurnWatch {
            clock: self.clock,
            began: Stopwatch::new(self.clock),
            is_over: false,
        };
        let ended = self.walk.search(&mut turn);
        self.began = Stopwatch::new(self.clock);
        match ended {
            Ok(WalkEnd::Found | WalkEnd::NoCover) => true,
            Ok(WalkEnd::Stopped) => {
                self.is_given_up = !turn.is_over;
                false
            }
            Err(_) => {
                self.is_given_up = true;
                false
            }
        }
    }
}

impl<'a, 'b, P: ForProblem, V: Watch, C: Clock> Watch for WalkWatch<'a, 'b, P, V, C> {
    ghost use Rattle.std.specs.Prelude.{true};

    ghost may_stop = { true };

    fn look(&mut self, chosen: &[u16], left: u64) -> bool {
        self.inner.look(chosen, left) || (self.is_due() && self.go_on())
    }

    #[inline(always)]
    fn wait(&self) -> u64 {
        self.inner.wait()
    }

    #[inline(always)]
    fn made(&mut self, visits: u64, left: u64) {
        self.inner.made(visits, left);
    }
}
