//! The answers of a learner, and of a walk that asks one, beside that of the search in the defined order.

use crate::walking::is_first;
use brancher::{Outcome, Searcher};
use cover_problem::Problem;
use learner::{Figures, Found, LearnerWatch, Settings, find_cover};
use rand_core::utils::NextWord;
use rand_pcg::Pcg32;
use std::alloc::{AllocError, Global};
use std::fmt::{self, Display, Formatter, Write};

/// A watch that stops nothing.
#[derive(Drop)]
struct Unstopped;

impl LearnerWatch for Unstopped {
    fn look(&mut self, _figures: &Figures) -> bool {
        false
    }
}

/// What was seen.
#[derive(Clone, Copy, Debug, Default)]
pub struct Seen {
    /// How many problems there were.
    problems: u64,
    /// How many of them have a cover.
    covers: u64,
    /// How many conflicts the learners met.
    conflicts: u64,
    /// How many answers differ.
    pub differ: u64,
}

impl Display for Seen {
    fn fmt<W: Write>(&self, f: &mut Formatter<W>) -> fmt::Result {
        write!(
            f,
            "{} problems: {} covers, {} conflicts; {} differ",
            self.problems, self.covers, self.conflicts, self.differ
        )
    }
}

/// Whether two answers say the same: that there is a cover, or that there is none.
fn is_same(found: &Found, outcome: Outcome) -> bool {
    match found {
        Found::Cover(_) => outcome == Outcome::Cover,
        Found::NoCover => outcome == Outcome::Barren,
        Found::Stopped => false,
    }
}

/// Counts a problem, and whether the answers to it are the same; the only error is out of memory.
pub fn compare(
    alloc: Global,
    problem: &Problem,
    rng: &mut Pcg32,
    seen: &mut Seen,
) -> Result<(), AllocError> {
    let settings = Settings {
        seed: u64::from(rng.next_word()),
        ..Settings::new()
    };
    let (found, figures) = find_cover(alloc, problem, settings, &mut Unstopped)?;
    let mut searcher = Searcher::new(alloc, problem)?;
    let outcome = searcher.search(&[], u64::MAX);
    let is_right = is_same(&found, outcome)
        && is_first(alloc, problem, settings, outcome, searcher.found())?;
    seen.problems = seen.problems.saturating_add(1);
    seen.covers = seen
        .covers
        .saturating_add(u64::from(outcome == Outcome::Cover));
    seen.conflicts = seen.conflicts.saturating_add(figures.conflicts);
    seen.differ = seen.differ.saturating_add(u64::from(!is_right));
    Ok(())
}
