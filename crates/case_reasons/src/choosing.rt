//! A problem once an option is chosen.

ghost use Rattle.std.specs.Prelude.{◌≡◌, ◌<◌, length, map, nat_le, true, IfOk, IfSome};
ghost use Rattle.std.specs.List.{sum_by};
ghost use Rattle.cover_problem.specs.Prefix.{AreOptions};
ghost use Rattle.cover_problem.specs.Problem.{option_numbers, items_of, colours_of};
ghost use Rattle.case_reasons.specs.Cases.{stand_in, after_choice, has_room_after};

use crate::laws::a_choice_keeps_its_covers;
use cover_problem::{MOST_NODES, Numbers, Problem, clash};
use problem_copies::{colour_names_of, names_of, numbers_by};
use std::alloc::{AllocError, Global};

/// The option that stands for another one once an option is chosen: the chosen one, if they clash.
fn stand_in(problem: &Problem, chosen: u16, option: u16) -> u16
    requires chosen { chosen < length problem.now.options }
    requires option { option < length problem.now.options }
    ensures stands { result ≡ stand_in problem.now chosen option }
    ensures option { result < length problem.now.options }
{
    if clash(problem, chosen, option) {
        chosen
    } else {
        option
    }
}

/// Of each option the one that stands for it. The only error is out of memory.
#[tactic(auto, using(crate::proofs::Choices::stand_ins_are_options))]
fn stand_ins(alloc: Global, problem: &Problem, chosen: u16) -> Result<Vec<u16>, AllocError>
    requires { chosen < length problem.now.options }
    ensures stand { IfOk result (λ list. list.items
        ≡ map (stand_in problem.now chosen) (option_numbers problem.now)) }
    ensures options { IfOk result (λ list. AreOptions problem.now list.items) }
{
    (0..problem.options() as u16)
        .map(|option| stand_in(problem, chosen, option))
        .collect(alloc)
}

/// Of each of these options a copy of its items.
#[tactic(auto, using(crate::proofs::Growing::one_more_mapped))]
fn items_of_each(
    alloc: Global,
    problem: &Problem,
    options: &[u16],
) -> Result<Vec<Numbers>, AllocError>
    requires { AreOptions problem.now options.now }
    ensures { IfOk result (λ lists. lists.items ≡ map (items_of problem.now) options.now) }
{
    let mut lists = Vec::with_capacity(alloc, options.len())?;
    for option in options {
        let items = numbers_by(alloc, problem.option(*option))?;
        lists.push(items)?;
    }
    Ok(lists)
}

/// Of each of these options a copy of its colours.
#[tactic(auto, using(crate::proofs::Growing::one_more_mapped))]
fn colours_of_each(
    alloc: Global,
    problem: &Problem,
    options: &[u16],
) -> Result<Vec<Numbers>, AllocError>
    requires { AreOptions problem.now options.now }
    ensures { IfOk result (λ lists. lists.items ≡ map (colours_of problem.now) options.now) }
{
    let mut lists = Vec::with_capacity(alloc, options.len())?;
    for option in options {
        let colours = numbers_by(alloc, problem.colours(*option))?;
        lists.push(colours)?;
    }
    Ok(lists)
}

/// Whether the options name no more items, together, than those of a problem may.
fn keeps_limit(options: &[Numbers]) -> bool
    ensures { result ≡ nat_le (sum_by length options.now) 200000 }
{
    let mut count = 0;
    for items in options {
        let more = items.as_slice().len();
        if more > MOST_NODES - count {
            return false;
        }
        count += more;
    }
    true
}

/// The problem once the option is chosen: each option that clashes with it is a copy of it. None where all options
/// together would have more items than those of a problem may have. The only error is out of memory.
#[tactic(auto, using(crate::proofs::Choices::items_stand, crate::proofs::Choices::colours_stand))]
pub fn after_choice(
    alloc: Global,
    problem: &Problem,
    chosen: u16,
) -> Result<Option<Problem>, AllocError>
    requires { chosen < length problem.now.options }
    ensures made { IfOk result (λ found. IfSome found (λ made. made ≡ after_choice problem.now chosen)) }
    ensures room { IfOk result (λ found. IfSome found (λ made. has_room_after problem.now chosen ≡ true)) }
{
    a_choice_keeps_its_covers();
    problem.recall_rules();
    let stand_ins = stand_ins(alloc, problem, chosen)?;
    let options = items_of_each(alloc, problem, &stand_ins)?;
    if !keeps_limit(&options) {
        return Ok(None);
    }
    let colours = colours_of_each(alloc, problem, &stand_ins)?;
    let names = names_of(alloc, problem)?;
    let colour_names = colour_names_of(alloc, problem)?;
    Ok(Some(Problem::from_parts(names, problem.primary(), options, colours, colour_names)))
}
