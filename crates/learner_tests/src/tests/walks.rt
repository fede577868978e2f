//! Walks to first covers, by questions.

use crate::tests::problem_of;
use brancher::{Outcome, Searcher};
use cover_problem::Problem;
use known_problems::{board, langford};
use learner::{Figures, LearnerWatch, Settings};
use question_walk::{QuestionWalk, WalkEnd};
use std::alloc::{AllocError, Global};
use std::test::Fail;
use used_items::with_used_items;

/// A watch that stops a learner at each look but so many.
#[derive(Drop)]
struct Looks(u64);

impl LearnerWatch for Looks {
    fn look(&mut self, _figures: &Figures) -> bool {
        let is_over = self.0 == 0;
        self.0 = self.0.saturating_sub(1);
        is_over
    }
}

/// Small problems and their first covers, in the order of the choices: the one of Knuth's paper "Dancing Links", the
/// same without a cover, colours that leave one of two first choices, an item in no option, a secondary item that
/// leaves one option, an option with both items.
static FIRST: [(&str, Option<&[u16]>); 6] = [
    (
        "a b c d e f g\nc e\na d g\nb c f\na d f\nb g\nd e g\n",
        Some(&[3, 4, 0]),
    ),
    ("a b c d e f g\nc e\na d g\nb c f\na d f\nd e g\n", None),
    (
        "p q r | x y\np q x y:A\np r x:A y\np x:B\nq x:A\nr y:B\n",
        Some(&[3, 1]),
    ),
    ("p q\np\n", None),
    ("p q | x\np x\nq x\nq\n", Some(&[0, 2])),
    ("p q\np\np q\nq\n", Some(&[0, 2])),
];

/// What a walk comes to that is stopped after so many looks, and again and again, each time after one more.
fn end_of(walk: &mut QuestionWalk<'_>, looks: u64) -> Result<WalkEnd, AllocError> {
    for more in 0..10_000u64 {
        let end = walk.search(&mut Looks(looks.saturating_add(more)))?;
        if end != WalkEnd::Stopped {
            return Ok(end);
        }
    }
    Ok(WalkEnd::Stopped)
}

/// Whether a walk has found this first cover, or that there is none.
fn has_found(walk: &QuestionWalk<'_>, first: Option<&[u16]>) -> bool {
    match first {
        Some(options) => walk.end() == WalkEnd::Found && walk.chosen() == options,
        None => walk.end() == WalkEnd::NoCover,
    }
}

/// Whether a walk has found the first cover, or that there is none, as a search does.
fn is_as_searched(
    alloc: Global,
    problem: &Problem,
    walk: &QuestionWalk<'_>,
) -> Result<bool, AllocError> {
    let mut searcher = Searcher::new(alloc, problem)?;
    Ok(match searcher.search(&[], u64::MAX) {
        Outcome::Cover => has_found(walk, Some(searcher.found())),
        Outcome::Barren => has_found(walk, None),
        Outcome::Spent => false,
    })
}

/// Whether a walk comes to this.
fn finds(alloc: Global, problem: &Problem, first: Option<&[u16]>) -> Result<bool, AllocError> {
    let mut walk = QuestionWalk::new(alloc, problem, Settings::new())?;
    end_of(&mut walk, u64::MAX)?;
    Ok(has_found(&walk, first))
}

#[test]
fn first_covers_of_small_problems(rt: HostRuntime) -> Result<(), Fail> {
    for (text, first) in FIRST.iter() {
        let problem = problem_of(&rt, rt.alloc(), text);
        assert!(rt; finds(rt.alloc(), &problem, *first)?, "{text}");
    }
    Ok(())
}

/// Whether a walk that is stopped at each look at first, and so goes on later from where it stood, comes to what a
/// search comes to.
fn finds_in_pieces(alloc: Global, problem: &Problem) -> Result<bool, AllocError> {
    let mut walk = QuestionWalk::new(alloc, problem, Settings::new())?;
    end_of(&mut walk, 0)?;
    is_as_searched(alloc, problem, &walk)
}

/// Walks over pairs of numbers.
#[test]
fn first_covers_by_walks_that_are_stopped(rt: HostRuntime) -> Result<(), Fail> {
    for size in 3..=8u8 {
        let text = langford(rt.alloc(), size)?;
        let problem = problem_of(&rt, rt.alloc(), text.as_str());
        assert!(rt; finds_in_pieces(rt.alloc(), &problem)?, "{size}");
    }
    Ok(())
}

#[test]
fn walks_that_are_stopped_find_none(rt: HostRuntime) -> Result<(), Fail> {
    let text = board(rt.alloc(), 6)?;
    let problem = problem_of(&rt, rt.alloc(), text.as_str());
    assert!(rt; finds_in_pieces(rt.alloc(), &problem)?);
    Ok(())
}

/// Three lessons of a class that has three periods, two of them with a teacher who has only two.
const LESSONS: &str =
    "art bio chess | m t w mr tr\nart m\nart t\nart w\nbio m mr\nbio t tr\nchess m mr\nchess t tr\n";

/// Whether a walk that asks about the problem in which items are primary that each cover uses comes to what a search of
/// the problem itself comes to; not where there are none.
fn finds_by_used_items(alloc: Global, problem: &Problem) -> Result<bool, AllocError> {
    let Some(made) = with_used_items(alloc, problem)? else {
        return Ok(false);
    };
    let mut walk = QuestionWalk::asking(alloc, problem, &made.problem, Settings::new())?;
    end_of(&mut walk, u64::MAX)?;
    is_as_searched(alloc, problem, &walk)
}

#[test]
fn first_covers_by_used_items(rt: HostRuntime) -> Result<(), Fail> {
    let problem = problem_of(&rt, rt.alloc(), LESSONS);
    assert!(rt; finds_by_used_items(rt.alloc(), &problem)?);
    Ok(())
}

/// What a walk comes to that has little room for what is learned.
fn end_with_little(alloc: Global, problem: &Problem) -> Result<WalkEnd, AllocError> {
    let little = Settings {
        memory: 20_000,
        ..Settings::new()
    };
    let mut walk = QuestionWalk::new(alloc, problem, little)?;
    walk.search(&mut Looks(u64::MAX))?;
    Ok(walk.end())
}

/// Where there is too little room for what is learned, a walk comes to nothing.
#[test]
fn walks_without_room(rt: HostRuntime) -> Result<(), Fail> {
    let text = langford(rt.alloc(), 13)?;
    let problem = problem_of(&rt, rt.alloc(), text.as_str());
    assert!(rt; end_with_little(rt.alloc(), &problem)? == WalkEnd::Stopped);
    Ok(())
}
