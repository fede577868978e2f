//! A problem with a further secondary item, which the options of a clique name.

ghost use Rattle.std.specs.Prelude.{◌≡◌, ◌<◌, ◌∷◌, ◌++◌, [], length, map, true, IfOk, if◌then◌else◌};
ghost use Rattle.cover_problem.specs.Numbers.{is_in};
ghost use Rattle.cover_problem.specs.Problem.{option_numbers};
ghost use Rattle.clash_cliques.specs.Cliques.{is_clique, items_with, colours_with, with_clique};
ghost use Rattle.used_items.specs.Covers.{HaveSameCovers};

use crate::clique::Clique;
use crate::laws::one_clique_keeps_covers;
use cover_problem::{Name, Numbers, Problem};
use problem_copies::{colour_names_of, name_by, names_of};
use std::alloc::{AllocError, Global};

/// These names, and behind them another one.
fn names_with(alloc: Global, problem: &Problem, name: &[u8]) -> Result<Vec<Name>, AllocError>
    ensures { IfOk result (λ names. names.items ≡ problem.now.names ++ name.now ∷ []) }
{
    let mut names = names_of(alloc, problem)?;
    let last = name_by(alloc, name)?;
    names.push(last)?;
    Ok(names)
}

/// These numbers, and one behind them if that is asked for.
fn numbers_with(
    alloc: Global,
    numbers: &[u16],
    is_longer: bool,
    last: u16,
) -> Result<Numbers, AllocError>
    ensures { IfOk result (λ longer. longer
        ≡ if is_longer then numbers.now ++ last ∷ [] else numbers.now) }
{
    let mut longer = Vec::from_slice(alloc, numbers)?;
    if is_longer {
        longer.push(last)?;
    }
    Ok(Numbers::from_vec(longer))
}

/// Of each option its items, and behind them the further one if it is of the clique.
#[tactic(auto, using(problem_copies::proofs::Growing::one_more))]
fn options_with(
    alloc: Global,
    problem: &Problem,
    clique: &[u16],
) -> Result<Vec<Numbers>, AllocError>
    requires { length problem.now.names < 1000 }
    ensures { IfOk result (λ options. options.items
        ≡ map (items_with problem.now clique.now) (option_numbers problem.now)) }
{
    let item = problem.items() as u16;
    let mut options = Vec::with_capacity(alloc, problem.options())?;
    for option in 0..problem.options() as u16 {
        let is_longer = clique.contains(&option);
        let items = numbers_with(alloc, problem.option(option), is_longer, item)?;
        options.push(items)?;
    }
    Ok(options)
}

/// Of each option the colours of its items, none of the further one.
#[tactic(auto, using(problem_copies::proofs::Growing::one_more))]
fn colours_with(
    alloc: Global,
    problem: &Problem,
    clique: &[u16],
) -> Result<Vec<Numbers>, AllocError>
    ensures { IfOk result (λ colours. colours.items
        ≡ map (colours_with problem.now clique.now) (option_numbers problem.now)) }
{
    let mut colours = Vec::with_capacity(alloc, problem.options())?;
    for option in 0..problem.options() as u16 {
        let is_longer = clique.contains(&option);
        let own = numbers_with(alloc, problem.colours(option), is_longer, 0)?;
        colours.push(own)?;
    }
    Ok(colours)
}

/// The problem with a further secondary item, which the options of the clique name. It has the same exact covers. The
/// only error is out of memory.
pub fn with_clique(alloc: Global, problem: &Problem, clique: &Clique) -> Result<Problem, AllocError>
    requires { is_clique problem.now clique.now ≡ true }
    ensures made { IfOk result (λ made. made ≡ with_clique problem.now clique.now) }
    ensures covers { IfOk result (λ made. HaveSameCovers problem.now made) }
{
    one_clique_keeps_covers();
    problem.recall_rules();
    let names = names_with(alloc, problem, clique.name.as_slice())?;
    let options = options_with(alloc, problem, clique.options.as_slice())?;
    let colours = colours_with(alloc, problem, clique.options.as_slice())?;
    let colour_names = colour_names_of(alloc, problem)?;
    Ok(Problem::from_parts(names, problem.primary(), options, colours, colour_names))
}
