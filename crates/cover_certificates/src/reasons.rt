//! Whether a reason holds of a case.

ghost use Rattle.std.specs.Prelude.{◌≡◌, ◌<◌, ℕ, length, true, IfOk};
ghost use Rattle.cover_problem.specs.Problem.{IsProblem};
ghost use Rattle.option_sets.specs.Sets.{has};
ghost use Rattle.cover_reasons.specs.Room.{fits, is_plain};
ghost use Rattle.cover_reasons.specs.Weights.{is_zero, option_weight};
ghost use Rattle.cover_certificates.specs.Cases.{AreStuckIn};

use crate::case::Case;
use crate::expected::Expected;
use crate::fault::Fault;
use crate::items::Items;
use cover_problem::Problem;
use cover_reasons::{
    Reason, Room, Weights, fits, is_balanced, is_plain, whole_amount, whole_weight,
};
use std::alloc::Global;

/// Returns the items of a case that a reason speaks of, if it holds: then they can't be covered.
pub(crate) fn items_by_reason(
    alloc: Global,
    problem: &Problem,
    case: &Case,
    reason: &Reason,
) -> Result<Items, Fault>
    ensures { IfOk result (AreStuckIn problem.now case.now) }
{
    problem.recall_rules();
    match reason {
        Reason::Weighed(weights) => items_by_weights(alloc, problem, case, weights),
        Reason::TooLittleRoom(room) => items_by_room(alloc, problem, case, room),
    }
}

/// Returns the items that have weights, if these exclude that the items are covered.
fn items_by_weights(
    alloc: Global,
    problem: &Problem,
    case: &Case,
    weights: &Weights,
) -> Result<Items, Fault>
    ensures { IfOk result (AreStuckIn problem.now case.now) }
{
    problem.recall_rules();
    let items = Items::with_amounts(alloc, problem.primary(), weights.as_slice())?;
    if weights.as_slice().len() > problem.primary()
        || whole_weight(weights) == 0
        || !items.is_within(case.items())
        || !are_light(problem, case, weights)
    {
        return Err(Fault::Wrong(Expected::ReasonHere));
    }
    Ok(items)
}

/// Returns whether each live option weighs 0.
fn are_light(problem: &Problem, case: &Case, weights: &Weights) -> bool
    ensures { result ≡ true → (o : ℕ) → o < length problem.now.options → has case.now.live o ≡ true →
        is_zero weights.now (option_weight problem.now weights.now o) ≡ true }
{
    for option in 0..problem.options() as u16 {
        if case.is_live(option) && !is_balanced(problem, weights, option) {
            return false;
        }
    }
    true
}

/// Returns the items that need something, if there is too little room for it.
fn items_by_room(alloc: Global, problem: &Problem, case: &Case, room: &Room) -> Result<Items, Fault>
    ensures { IfOk result (AreStuckIn problem.now case.now) }
{
    problem.recall_rules();
    let items = Items::with_amounts(alloc, problem.primary(), room.needs())?;
    if room.needs().len() > problem.primary()
        || room.rooms().len() > problem.items()
        || whole_amount(room.rooms()) >= whole_amount(room.needs())
        || !items.is_within(case.items())
        || !are_plain(problem, room)
        || !all_fit(problem, case, room)
    {
        return Err(Fault::Wrong(Expected::ReasonHere));
    }
    Ok(items)
}

/// Returns whether no option gives a colour to an item that has room.
fn are_plain(problem: &Problem, room: &Room) -> bool
    ensures { result ≡ true → (o : ℕ) → o < length problem.now.options →
        is_plain problem.now room.now.rooms o ≡ true }
{
    for option in 0..problem.options() as u16 {
        if !is_plain(problem, room.rooms(), option) {
            return false;
        }
    }
    true
}

/// Returns whether each live option fits.
fn all_fit(problem: &Problem, case: &Case, room: &Room) -> bool
    requires { IsProblem problem.now }
    ensures { result ≡ true → (o : ℕ) → o < length problem.now.options → has case.now.live o ≡ true →
        fits problem.now room.now o ≡ true }
{
    for option in 0..problem.options() as u16 {
        if case.is_live(option) && !fits(problem, room, option) {
            return false;
        }
    }
    true
}
