//! The checker of covers. It shares nothing with the searches: only the problem and the list count.
//!
//! The registry asks it before a cover enters, under its lock; the learner before it answers with one; `solve_cli
//! check` for an answer in a file. Hence one pass over the items that the list names, with marks on the stack
//! (`naming`), and no memory that could be refused. The order of the tests is part of the verdict; a number that is no
//! option's is found before any option is read.

ghost use Rattle.std.specs.Prelude.{◌≡◌, true, ◌↔◌};
ghost use Rattle.cover_problem.specs.ExactCover.{IsExactCover};
ghost use Rattle.cover_problem.specs.Numbers.{is_in, is_distinct};
ghost use Rattle.cover_problem.specs.Problem.{IsProblem};
ghost use Rattle.cover_problem.specs.Verdict.{verdict_of, TellsItemOf};

use crate::naming::{first_split, first_unnamed, namings_of};
use crate::prefix::are_options;
use crate::problem::Problem;
use crate::verdict::Verdict;

/// How many numbers there are that an option can have: 2^16, as they have 16 bits.
const NUMBERS: usize = 65536;

/// Whether no number stands in the list twice.
fn is_distinct(numbers: &[u16]) -> bool
    ensures { result ≡ is_distinct numbers.now }
{
    // (a mark for each number of 16 bits, on the stack: it is never refused memory, and no number is out of its bounds)
    let mut seen = [false; NUMBERS];
    for number in numbers {
        let place = usize::from(*number);
        if seen[place] {
            return false;
        }
        seen[place] = true;
    }
    true
}

/// The first thing that is wrong with the list.
fn verdict_on(problem: &Problem, options: &[u16]) -> Verdict
    requires { IsProblem problem.now }
    ensures { result ≡ verdict_of problem.now options.now }
{
    if !are_options(problem, options) {
        return Verdict::NoSuchOption;
    }
    // (before the items: an option that is there twice might else be reported as an item covered twice)
    if !is_distinct(options) {
        return Verdict::ChosenTwice;
    }
    let namings = namings_of(problem, options);
    if let Some(item) = first_unnamed(problem, &namings) {
        return Verdict::Uncovered(item);
    }
    match first_split(problem, &namings) {
        Some(item) => Verdict::CoveredTwice(item),
        None => Verdict::Exact,
    }
}

/// Tests whether the list is an exact cover with each option once, and returns the first thing that is wrong.
///
/// It takes no memory but 70 KiB of the stack, and time of the order of the items of the list's options.
pub fn check_cover(problem: &Problem, options: &[u16]) -> Verdict
    ensures verdict { result ≡ verdict_of problem.now options.now }
    ensures item { TellsItemOf problem.now result }
    ensures exact { (result ≡ Verdict.Exact) ↔ ((is_distinct options.now ≡ true)
        × IsExactCover problem.now (is_in options.now)) }
{
    problem.recall_rules();
    verdict_on(problem, options)
}
