//! Prefixes: partial covers, lists of options of which no two clash, as Algorithm X has them on its way down.
//!
//! Two kinds of functions are here. `clash`, `is_live` and `is_covered` follow their definitions pair by pair. They
//! serve where few options are looked at: a hint of a learned clause, an option of a clique, the option that a gift
//! adds. `is_prefix` has to be fast: a node tests by it each new prefix that a packet brings, under its lock. So it
//! makes one pass over the items with a mark for each (`marking`), on the stack.
//!
//! Options may agree on a secondary item in a colour (DLX2); `agree` says so of two, the marks of `marking` of many.

ghost use Rattle.std.specs.Prelude.{◌≡◌, ◌<◌, ◌≤◌, ◌+◌, length, not, ◌&&◌, ◌↔◌, IfOk, IsTrue};
ghost use Rattle.cover_problem.specs.ExactCover.{in_order};
ghost use Rattle.cover_problem.specs.Problem.{names_item, colour_of};
ghost use Rattle.cover_problem.specs.Prefix.{are_options, is_covered, agree, clash, is_live, is_prefix, AreOptions, InFileOrder};
ghost use Rattle.std.specs.List.Sorted.{IsStrictlyIncreasing};

use crate::laws::in_order_is_in_file_order;
use crate::lists::Numbers;
use crate::marking::are_apart;
use crate::problem::Problem;
use std::alloc::{AllocError, Global};

/// Whether the option names the item.
pub fn option_names(problem: &Problem, option: u16, item: u16) -> bool
    requires { option < length problem.now.options }
    ensures { result ≡ names_item problem.now option item }
{
    problem.option(option).iter().any(|own| *own == item)
}

/// The colour that the option gives the item, 0 where it gives none.
pub(crate) fn colour_of(problem: &Problem, option: u16, item: u16) -> u16
    requires { option < length problem.now.options }
    ensures { result ≡ colour_of problem.now option item }
{
    let items = problem.option(option);
    let colours = problem.colours(option);
    for (place, own) in items.iter().enumerate() {
        if *own == item {
            return colours[place];
        }
    }
    0
}

/// Whether one of the options names the item.
pub fn is_covered(problem: &Problem, chosen: &[u16], item: u16) -> bool
    requires { AreOptions problem.now chosen.now }
    ensures { result ≡ is_covered problem.now chosen.now item }
{
    chosen
        .iter()
        .any(|option| option_names(problem, *option, item))
}

/// Whether the item is secondary, and both options give it one and the same colour.
fn agree(problem: &Problem, first: u16, second: u16, item: u16) -> bool
    requires first { first < length problem.now.options }
    requires second { second < length problem.now.options }
    ensures { result ≡ agree problem.now first second item }
{
    // (that a primary item has no colour is a rule of problems; with this test the laws hold of records that keep no
    // rules, too) (without colours there is nothing to look for)
    if (item as usize) < problem.primary() || problem.colour_names() == 0 {
        return false;
    }
    let colour = colour_of(problem, first, item);
    colour != 0 && colour == colour_of(problem, second, item)
}

/// Whether the second option names this item of the first too, and they don't agree on it.
fn clash_on(problem: &Problem, first: u16, second: u16, item: u16) -> bool
    requires first { first < length problem.now.options }
    requires second { second < length problem.now.options }
    ensures { result
        ≡ (names_item problem.now second item && not (agree problem.now first second item)) }
{
    option_names(problem, second, item) && !agree(problem, first, second, item)
}

/// Whether both options name an item on which they don't agree: it is primary, or they give it no equal colour.
pub fn clash(problem: &Problem, first: u16, second: u16) -> bool
    requires first { first < length problem.now.options }
    requires second { second < length problem.now.options }
    ensures { result ≡ clash problem.now first second }
{
    problem
        .option(first)
        .iter()
        .any(|item| clash_on(problem, first, second, *item))
}

/// Whether the option clashes with none of the chosen ones.
pub fn is_live(problem: &Problem, chosen: &[u16], option: u16) -> bool
    requires chosen { AreOptions problem.now chosen.now }
    requires option { option < length problem.now.options }
    ensures { result ≡ is_live problem.now chosen.now option }
{
    chosen.iter().all(|own| !clash(problem, *own, option))
}

/// Whether all of these are numbers of options.
pub fn are_options(problem: &Problem, numbers: &[u16]) -> bool
    ensures test { result ≡ are_options problem.now numbers.now }
    ensures each { IsTrue result ↔ AreOptions problem.now numbers.now }
{
    numbers.iter().all(|o| (*o as usize) < problem.options())
}

/// Whether these are options of the problem, no two of which clash.
///
/// It takes no memory but 4 KB of the stack, and time of the order of the items of the list's options.
pub fn is_prefix(problem: &Problem, options: &[u16]) -> bool
    ensures { result ≡ is_prefix problem.now options.now }
{
    // (numbers first: the second test reads the items of each)
    are_options(problem, options) && are_apart(problem, options)
}

fn ascends(numbers: &[u16]) -> bool
    ensures { IsTrue result ↔ IsStrictlyIncreasing numbers.now }
{
    for place in 1..numbers.len() {
        if numbers[place - 1] >= numbers[place] {
            return false;
        }
    }
    true
}

/// Whether these are options of the problem, in the order of the file and none of them twice. What the program writes
/// is so by its contracts, so only tests ask.
pub fn in_file_order(problem: &Problem, options: &[u16]) -> bool
    ensures { IsTrue result ↔ InFileOrder problem.now options.now }
{
    are_options(problem, options) && ascends(options)
}

/// The options of the list in the order of the file, each of them once; the only error is out of memory.
pub fn in_order(alloc: Global, problem: &Problem, chosen: &[u16]) -> Result<Numbers, AllocError>
    ensures options { IfOk result (λ options. options ≡ in_order problem.now chosen.now) }
    ensures order { IfOk result (InFileOrder problem.now) }
{
    in_order_is_in_file_order();
    let options = chosen_in_order(alloc, problem, chosen)?;
    Ok(Numbers::from_vec(options))
}

fn chosen_in_order(alloc: Global, problem: &Problem, chosen: &[u16]) -> Result<Vec<u16>, AllocError>
    ensures { IfOk result (λ options. options.items ≡ in_order problem.now chosen.now) }
{
    // (the room is taken at once, so that no growth is refused later)
    let mut options = Vec::with_capacity(alloc, chosen.len())?;
    for option in 0..problem.options() as u16 {
        if chosen.contains(&option) {
            options.push(option)?;
        }
    }
    Ok(options)
}
