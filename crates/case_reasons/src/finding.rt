//! The search for an item whose options all have a case.

ghost use Rattle.std.specs.Prelude.{◌≡◌, ◌<◌, [], length, true, None, IfOk, IfSome};
ghost use Rattle.cover_problem.specs.Prefix.{IsBarren};
ghost use Rattle.cover_problem.specs.Search.{first};
ghost use Rattle.case_reasons.specs.Cases.{AreCases, is_case};

use crate::case::{Case, Cases};
use crate::choosing::after_choice;
use crate::laws::cases_exclude_covers;
use crate::trying::{items_to_try, shortest_of};
use cover_problem::{Problem, option_names};
use cover_reasons::{ReasonWatch, find_reason_until};
use std::alloc::{AllocError, Global};

/// A reason of the problem once the option is chosen, if one is found before the watch ends that. The only error is out
/// of memory.
fn case_of<W: ReasonWatch>(
    alloc: Global,
    problem: &Problem,
    option: u16,
    watch: &mut W,
) -> Result<Option<Case>, AllocError>
    requires { option < length problem.now.options }
    ensures case { IfOk result (λ found. IfSome found (λ case. is_case problem.now case ≡ true)) }
    ensures option { IfOk result (λ found. IfSome found (λ case. case.option ≡ option)) }
{
    match after_choice(alloc, problem, option)? {
        Some(made) => match find_reason_until(alloc, &made, watch)? {
            Some(reason) => Ok(Some(Case { option, reason })),
            None => Ok(None),
        },
        None => Ok(None),
    }
}

/// The known case, which is taken, if it is one of this option, and else a case that is looked for.
fn known_or_case_of<W: ReasonWatch>(
    alloc: Global,
    problem: &Problem,
    option: u16,
    known: &mut Option<Case>,
    watch: &mut W,
) -> Result<Option<Case>, AllocError>
    requires inside { option < length problem.now.options }
    requires known { IfSome known.old (λ case. is_case problem.now case ≡ true) }
    ensures case { IfOk result (λ found. IfSome found (λ case. is_case problem.now case ≡ true)) }
    ensures option { IfOk result (λ found. IfSome found (λ case. case.option ≡ option)) }
    ensures known { IfOk result (λ found. IfSome known.new (λ case. is_case problem.now case ≡ true)) }
{
    match known.take() {
        Some(case) if case.option == option => Ok(Some(case)),
        other => {
            *known = other;
            case_of(alloc, problem, option, watch)
        }
    }
}

/// A case for each option that names the item, in file order, of which one is known; none once an option has none.
fn cases_of<W: ReasonWatch>(
    alloc: Global,
    problem: &Problem,
    item: u16,
    one: Case,
    watch: &mut W,
) -> Result<Option<Cases>, AllocError>
    requires item { item < problem.now.primary }
    requires one { is_case problem.now one ≡ true }
    ensures { IfOk result (λ found. IfSome found (AreCases problem.now)) }
{
    let mut known = Some(one);
    let mut list = Vec::new(alloc);
    for option in 0..problem.options() as u16 {
        if option_names(problem, option, item) {
            match known_or_case_of(alloc, problem, option, &mut known, watch)? {
                Some(case) => list.push(case)?,
                None => return Ok(None),
            }
        }
    }
    Ok(Some(Cases { item, list }))
}

/// A case of the shortest option of the item, which excludes least: where it has none, the others needn't be tried.
fn case_of_shortest<W: ReasonWatch>(
    alloc: Global,
    problem: &Problem,
    item: u16,
    watch: &mut W,
) -> Result<Option<Case>, AllocError>
    ensures { IfOk result (λ found. IfSome found (λ case. is_case problem.now case ≡ true)) }
{
    match shortest_of(problem, item) {
        Some(option) if (option as usize) < problem.options() => {
            case_of(alloc, problem, option, watch)
        }
        _ => Ok(None),
    }
}

/// The cases of an item that is tried, if they are found.
fn cases_tried<W: ReasonWatch>(
    alloc: Global,
    problem: &Problem,
    item: u16,
    watch: &mut W,
) -> Result<Option<Cases>, AllocError>
    ensures { IfOk result (λ found. IfSome found (AreCases problem.now)) }
{
    if (item as usize) >= problem.primary() {
        return Ok(None);
    }
    match case_of_shortest(alloc, problem, item, watch)? {
        Some(case) => cases_of(alloc, problem, item, case, watch),
        None => Ok(None),
    }
}

/// The cases of an item, if a few that are tried have one all of whose options have a case, and the watch doesn't end
/// that before. Then there is no exact cover.
///
/// Where none is found there may be a cover or none. A reason is looked for with one option of each item that is tried,
/// and with its others where that one has a reason. The only error is out of memory.
pub fn find_cases_until<W: ReasonWatch>(
    alloc: Global,
    problem: &Problem,
    watch: &mut W,
) -> Result<Option<Cases>, AllocError>
    ensures cases { IfOk result (λ found. IfSome found (AreCases problem.now)) }
    ensures barren { IfOk result (λ found. IfSome found (λ cases. IsBarren problem.now [])) }
    ensures none { IfOk result (λ found. IfSome found (λ cases. first problem.now [] ≡ None)) }
{
    cases_exclude_covers();
    problem.recall_rules();
    for item in items_to_try(alloc, problem)?.iter() {
        if watch.look() {
            return Ok(None);
        }
        if let Some(cases) = cases_tried(alloc, problem, *item, watch)? {
            return Ok(Some(cases));
        }
    }
    Ok(None)
}
