//! What the options of a list make of each item, in one pass over their items.

ghost use Rattle.std.specs.Prelude.{◌≡◌, ℕ, ◌<◌, ◌≤◌, length, find, slice_index_or};
ghost use Rattle.std.specs.List.{range_with_len};
ghost use Rattle.cover_problem.specs.Naming.{named_by, naming_by, naming_after, is_unnamed, is_split};
ghost use Rattle.cover_problem.specs.declared.naming.Naming.TheVariants.{Unnamed};
ghost use Rattle.cover_problem.specs.Prefix.{AreOptions};
ghost use Rattle.cover_problem.specs.Problem.{IsProblem};

use crate::limits::MOST_ITEMS;
use crate::problem::Problem;

/// What the options of a list make of an item.
#[derive(Clone, Copy, Debug)]
pub(crate) enum Naming {
    /// None of them names it.
    Unnamed,
    /// One names it, or each that names it gives it this one colour. 0 is for none.
    United(u16),
    /// Two of them name it, and don't give it one colour.
    Split,
}

/// What an item becomes by one more option that names it and gives it this colour, 0 for none.
fn named_by(naming: Naming, colour: u16) -> Naming
    ensures { result ≡ named_by naming colour }
{
    match naming {
        Naming::Unnamed => Naming::United(colour),
        Naming::United(own) => {
            if colour >= 1 && own == colour {
                naming
            } else {
                Naming::Split
            }
        }
        Naming::Split => Naming::Split,
    }
}

/// Adds what one more option makes of the items that it names.
fn add_option(problem: &Problem, namings: &mut [Naming], option: u16)
    requires problem { IsProblem problem.now }
    requires option { option < length problem.now.options }
    requires namings { length problem.now.names ≤ length namings.old }
    ensures long { length namings.new ≡ length namings.old }
    ensures each { (item : ℕ) → item < length namings.old → slice_index_or namings.new item Unnamed
        ≡ naming_by problem.now option item (slice_index_or namings.old item Unnamed) }
{
    let items = problem.option(option);
    let colours = problem.colours(option);
    for (place, item) in items.iter().enumerate() {
        let own = &mut namings[*item as usize];
        *own = named_by(*own, colours[place]);
    }
}

/// What the options make of each item, by its number.
pub(crate) fn namings_of(problem: &Problem, options: &[u16]) -> [Naming; MOST_ITEMS]
    requires { AreOptions problem.now options.now }
    ensures long { length problem.now.names ≤ length result }
    ensures each { (item : ℕ) → item < length result → slice_index_or result item Unnamed
        ≡ naming_after problem.now item Unnamed options.now }
{
    problem.recall_rules();
    let mut namings = [Naming::Unnamed; MOST_ITEMS];
    for option in options {
        add_option(problem, &mut namings, *option);
    }
    namings
}

/// The first primary item that none of the options names.
pub(crate) fn first_unnamed(problem: &Problem, namings: &[Naming]) -> Option<u16>
    requires { length problem.now.names ≤ length namings.now }
    ensures { result ≡ find (λ item. is_unnamed (slice_index_or namings.now item Unnamed))
        (range_with_len 0 problem.now.primary) }
{
    // (the cast loses nothing: by what the getter says there are at most 1,000 items)
    (0..problem.primary() as u16).find(|item| matches!(namings[*item as usize], Naming::Unnamed))
}

/// The first item that several of the options name without giving it one colour.
pub(crate) fn first_split(problem: &Problem, namings: &[Naming]) -> Option<u16>
    requires { length problem.now.names ≤ length namings.now }
    ensures { result ≡ find (λ item. is_split (slice_index_or namings.now item Unnamed))
        (range_with_len 0 (length problem.now.names)) }
{
    (0..problem.items() as u16).find(|item| matches!(namings[*item as usize], Naming::Split))
}
