//! Problems whose answers are known from elsewhere.

mod walks;

use cover_problem::Problem;
use dlx_reader::read_problem;
use known_problems::{board, langford};
use learner::{Figures, Found, IncrementalLearner, LearnerWatch, Settings, find_cover};
use std::alloc::{AllocError, Global};
use std::process::Abort;
use std::test::Fail;

/// The problem of a text.
fn problem_of<R: Abort>(rt: &R, alloc: Global, text: &str) -> Problem {
    read_problem(alloc, text.as_bytes())
        .expect(rt, "a problem")
        .problem
}

/// A watch that stops a learner after so many conflicts.
#[derive(Drop)]
struct Limit(u64);

impl LearnerWatch for Limit {
    fn look(&mut self, figures: &Figures) -> bool {
        figures.conflicts >= self.0
    }
}

/// What is found.
#[derive(Clone, Copy, PartialEq, Eq, Debug)]
enum Kind {
    Cover,
    NoCover,
    Stopped,
}

/// Small problems: the one of Knuth's paper "Dancing Links", the same without a cover, colours that agree and that
/// don't, secondary items alone, an item in no option.
static SMALL: [(&str, Kind); 7] = [
    (
        "a b c d e f g\nc e\na d g\nb c f\na d f\nb g\nd e g\n",
        Kind::Cover,
    ),
    (
        "a b c d e f g\nc e\na d g\nb c f\na d f\nd e g\n",
        Kind::NoCover,
    ),
    ("p q | x y\np x:A\nq x:A\nq x:B y\n", Kind::Cover),
    ("p q | x y\np x:A\nq x:C\nq x:B y\n", Kind::NoCover),
    ("p q | x\np x\nq x\n", Kind::NoCover),
    ("p q | x\np x\nq x\nq\n", Kind::Cover),
    ("p q\np\n", Kind::NoCover),
];

/// What is found of a problem within so many conflicts.
fn kind_of(
    alloc: Global,
    problem: &Problem,
    conflicts: u64,
    settings: Settings,
) -> Result<Kind, AllocError> {
    let (found, _) = find_cover(alloc, problem, settings, &mut Limit(conflicts))?;
    Ok(kind_found(&found))
}

fn kind_found(found: &Found) -> Kind {
    match found {
        Found::Cover(_) => Kind::Cover,
        Found::NoCover => Kind::NoCover,
        Found::Stopped => Kind::Stopped,
    }
}

/// Questions to one learner, one after the other, of the first of the small problems, whose one cover has the options
/// 0, 3 and 4; an option may be given twice, and 6 is no option.
static QUESTIONS: [(&[u16], Kind); 10] = [
    (&[3], Kind::Cover),
    (&[1], Kind::NoCover),
    (&[3, 0], Kind::Cover),
    (&[0, 2], Kind::NoCover),
    (&[4, 4, 0, 3, 0], Kind::Cover),
    (&[0, 3, 5], Kind::NoCover),
    (&[1], Kind::NoCover),
    (&[], Kind::Cover),
    (&[6], Kind::Stopped),
    (&[4], Kind::Cover),
];

#[test]
fn questions_with_given_options(rt: HostRuntime) -> Result<(), Fail> {
    let (text, _) = SMALL[0];
    let problem = problem_of(&rt, rt.alloc(), text);
    let mut learner = IncrementalLearner::new(rt.alloc(), &problem, Settings::new())?;
    for (given, answer) in QUESTIONS.iter() {
        let found = learner.find(given, &mut Limit(u64::MAX))?;
        assert!(rt; kind_found(&found) == *answer, "{given:?}: {found:?}");
    }
    Ok(())
}

/// A learner that was stopped, or that knows that there is no cover, answers the next question.
#[test]
fn questions_after_others(rt: HostRuntime) -> Result<(), Fail> {
    let text = board(rt.alloc(), 6)?;
    let problem = problem_of(&rt, rt.alloc(), text.as_str());
    let mut learner = IncrementalLearner::new(rt.alloc(), &problem, Settings::new())?;
    for conflicts in 0..20 {
        let found = learner.find(&[5, 9], &mut Limit(conflicts))?;
        assert!(rt; kind_found(&found) != Kind::Cover, "{conflicts}");
    }
    for given in [[].as_slice(), [5, 9].as_slice(), [].as_slice()] {
        let found = learner.find(given, &mut Limit(u64::MAX))?;
        assert!(rt; kind_found(&found) == Kind::NoCover, "{given:?}");
    }
    Ok(())
}

#[test]
fn small_problems(rt: HostRuntime) -> Result<(), Fail> {
    for (text, kind) in SMALL.iter() {
        let problem = problem_of(&rt, rt.alloc(), text);
        let found = kind_of(rt.alloc(), &problem, u64::MAX, Settings::new())?;
        assert!(rt; found == *kind, "{text}: {found:?}");
    }
    Ok(())
}

/// Langford pairs exist exactly if the number is 0 or 3 modulo 4.
#[test]
fn langford_pairs(rt: HostRuntime) -> Result<(), Fail> {
    for size in 3..=8u8 {
        let text = langford(rt.alloc(), size)?;
        let problem = problem_of(&rt, rt.alloc(), text.as_str());
        let found = kind_of(rt.alloc(), &problem, u64::MAX, Settings::new())?;
        let has_cover = size % 4 == 0 || size % 4 == 3;
        assert!(rt; (found == Kind::Cover) == has_cover, "{size}");
        assert!(rt; (found == Kind::NoCover) != has_cover, "{size}");
    }
    Ok(())
}

/// Boards without two opposite corners have no dominoes that cover them.
#[test]
fn boards_without_corners(rt: HostRuntime) -> Result<(), Fail> {
    for seed in 0..4 {
        let text = board(rt.alloc(), 6)?;
        let problem = problem_of(&rt, rt.alloc(), text.as_str());
        let settings = Settings {
            seed,
            ..Settings::new()
        };
        let found = kind_of(rt.alloc(), &problem, u64::MAX, settings)?;
        assert!(rt; found == Kind::NoCover, "{seed}");
    }
    Ok(())
}

#[test]
fn stops_where_it_is_told_to(rt: HostRuntime) -> Result<(), Fail> {
    let text = langford(rt.alloc(), 13)?;
    let problem = problem_of(&rt, rt.alloc(), text.as_str());
    let found = kind_of(rt.alloc(), &problem, 200, Settings::new())?;
    assert!(rt; found == Kind::Stopped);
    let little = Settings {
        memory: 20_000,
        ..Settings::new()
    };
    let found = kind_of(rt.alloc(), &problem, u64::MAX, little)?;
    assert!(rt; found == Kind::Stopped);
    Ok(())
}
