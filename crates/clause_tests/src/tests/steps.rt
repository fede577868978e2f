//! The steps, which were worked out by hand.

use cover_problem::Problem;
use dlx_reader::read_problem;
use implied_clauses::Hint::{Clash, Clause};
use implied_clauses::Literal::{Chosen, Left};
use implied_clauses::{Hint, Literal};
use std::alloc::Global;
use std::process::Abort;

/// What is done with the clauses of a problem.
pub enum Step {
    /// A clause is to be learned by hints, and put at the next place; whether it follows.
    Learn(&'static [Literal], &'static [Hint], bool),
    /// The clause at a place is forgotten.
    Forget(usize),
    /// A place has this clause.
    Holds(usize, &'static [Literal]),
    /// Whether the empty clause was learned.
    Refuted(bool),
}

/// Seven items, a to g with places 0 to 6, and six options, of which 3, 4 and 0 are the one exact cover.
const LETTERS: &str = "a b c d e f g\nc e\na d g\nb c f\na d f\nb g\nd e g\n";

/// The same without `b g`: there is no exact cover.
const BARREN: &str = "a b c d e f g\nc e\na d g\nb c f\na d f\nd e g\n";

/// Options 0 and 1 agree on x, 0 and 2 don't.
const COLOURED: &str = "p q | x y\np x:A\nq x:A\nq x:B y\n";

/// The text of each problem and the steps.
pub static SCRIPTS: [(&str, &[Step]); 5] = [
    (
        LETTERS,
        &[
            Step::Holds(0, &[Chosen(1), Chosen(3)]),
            Step::Holds(6, &[Chosen(1), Chosen(4), Chosen(5)]),
            // if 3 is left, 1 is chosen, 4 and 5 are left, 2 and 0 are chosen, and these clash
            Step::Learn(
                &[Chosen(3)],
                &[
                    Clause(0),
                    Clash(1, 4),
                    Clause(1),
                    Clash(1, 5),
                    Clause(4),
                    Clash(0, 2),
                ],
                true,
            ),
            Step::Holds(7, &[Chosen(3)]),
            Step::Learn(&[Left(1)], &[Clause(7), Clash(1, 3)], true),
            Step::Learn(&[Left(1), Chosen(5)], &[Clause(8)], true),
            Step::Refuted(false),
            Step::Forget(7),
            Step::Learn(&[Left(1)], &[Clause(7), Clash(1, 3)], false),
            Step::Learn(&[Left(1)], &[Clause(8)], true),
        ],
    ),
    // wrong clauses, and hints that don't do
    (
        LETTERS,
        &[
            Step::Learn(
                &[Left(3)],
                &[Clash(1, 3), Clash(2, 3), Clash(3, 5), Clause(1)],
                false,
            ),
            Step::Learn(&[Chosen(3)], &[], false),
            Step::Learn(&[Chosen(3)], &[Clause(0), Clash(1, 4), Clause(1)], false),
            // as above, but for the clash of 1 and 5
            Step::Learn(
                &[Chosen(3)],
                &[Clause(0), Clash(1, 4), Clause(1), Clause(4), Clash(0, 2)],
                false,
            ),
            // in a wrong order
            Step::Learn(
                &[Chosen(3)],
                &[
                    Clash(0, 2),
                    Clause(4),
                    Clash(1, 5),
                    Clause(1),
                    Clash(1, 4),
                    Clause(0),
                ],
                false,
            ),
            Step::Learn(&[], &[Clause(0), Clause(1), Clause(2), Clause(3)], false),
            Step::Learn(&[Left(1), Left(4)], &[Clause(6)], false),
            Step::Refuted(false),
        ],
    ),
    // hints of nothing: an option that clashes with itself, options that don't clash, that there aren't, places that
    // there aren't
    (
        LETTERS,
        &[
            Step::Learn(&[Left(0)], &[Clash(0, 0)], false),
            Step::Learn(&[Left(0), Left(1)], &[Clash(0, 1)], false),
            Step::Learn(&[Left(0), Left(2)], &[Clash(0, 2)], true),
            Step::Learn(&[Left(0), Left(6)], &[Clash(0, 6)], false),
            Step::Learn(&[Left(65535), Left(0)], &[Clash(65535, 0)], false),
            Step::Learn(&[Left(0)], &[Clause(99), Clause(4294967295)], false),
            Step::Learn(&[Chosen(6)], &[Clause(0)], false),
            Step::Learn(&[Left(0), Chosen(0)], &[Clause(2)], false),
        ],
    ),
    (
        BARREN,
        &[
            Step::Learn(&[], &[Clause(0)], false),
            Step::Learn(&[Chosen(2)], &[Clause(1)], true),
            Step::Learn(&[Left(3)], &[Clause(7), Clash(2, 3)], true),
            Step::Learn(&[Chosen(1)], &[Clause(8), Clause(0)], true),
            Step::Refuted(false),
            Step::Learn(
                &[],
                &[Clause(7), Clause(9), Clash(1, 4), Clause(4), Clash(0, 2)],
                true,
            ),
            Step::Refuted(true),
            Step::Forget(10),
            Step::Refuted(true),
        ],
    ),
    (
        COLOURED,
        &[
            Step::Holds(0, &[Chosen(0)]),
            Step::Holds(1, &[Chosen(1), Chosen(2)]),
            Step::Learn(&[Left(1)], &[Clause(0), Clash(0, 1)], false),
            Step::Learn(&[Left(2)], &[Clause(0), Clash(0, 2)], true),
            Step::Learn(&[Chosen(1)], &[Clause(2), Clause(1)], true),
        ],
    ),
];

/// The problem of a text.
pub fn problem_of<R: Abort>(rt: &R, alloc: Global, text: &str) -> Problem {
    read_problem(alloc, text.as_bytes())
        .expect(rt, "a problem")
        .problem
}
