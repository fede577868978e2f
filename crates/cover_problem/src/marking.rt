//! Whether no two of some options clash, in one pass over their items.

ghost use Rattle.std.specs.Prelude.{◌≡◌, ℕ, ◌<◌, ◌≤◌, length, None, slice_index_or};
ghost use Rattle.cover_problem.specs.Marks.{admits, fits, marked_by};
ghost use Rattle.cover_problem.specs.Prefix.{are_apart, AreOptions};

use crate::limits::MOST_ITEMS;
use crate::problem::Problem;

/// Whether no two of the options clash. Each item gets a mark from the options that name it: their colour, 0 for none.
pub(crate) fn are_apart(problem: &Problem, options: &[u16]) -> bool
    requires { AreOptions problem.now options.now }
    ensures { result ≡ are_apart problem.now options.now }
{
    // (for the rule that there are at most 1,000 items: each has a mark)
    problem.recall_rules();
    let mut marks = [None; MOST_ITEMS];
    for option in options {
        if !fits(problem, &marks, *option) {
            return false;
        }
        mark(problem, &mut marks, *option);
    }
    true
}

/// Whether each item of the option has no mark, or that of the colour which the option gives it.
fn fits(problem: &Problem, marks: &[Option<u16>], option: u16) -> bool
    requires option { option < length problem.now.options }
    requires marks { length problem.now.names ≤ length marks.now }
    ensures { result ≡ fits problem.now marks.now option }
{
    let items = problem.option(option);
    let colours = problem.colours(option);
    for (place, item) in items.iter().enumerate() {
        if !admits(marks[*item as usize], colours[place]) {
            return false;
        }
    }
    true
}

/// Whether an item with this mark, if any, may get this colour, 0 for none.
fn admits(mark: Option<u16>, colour: u16) -> bool
    ensures { result ≡ admits mark colour }
{
    match mark {
        // (0 is no colour, so two options that both give none clash)
        Some(own) => colour >= 1 && own == colour,
        None => true,
    }
}

/// Marks the items of the option by the colours that it gives them.
fn mark(problem: &Problem, marks: &mut [Option<u16>], option: u16)
    requires option { option < length problem.now.options }
    requires marks { length problem.now.names ≤ length marks.old }
    ensures long { length marks.new ≡ length marks.old }
    ensures each { (item : ℕ) → item < length marks.old → slice_index_or marks.new item None
        ≡ marked_by problem.now option item (slice_index_or marks.old item None) }
{
    let items = problem.option(option);
    let colours = problem.colours(option);
    for (place, item) in items.iter().enumerate() {
        // (what is overwritten is the same colour: the option was seen to fit)
        marks[*item as usize] = Some(colours[place]);
    }
}
