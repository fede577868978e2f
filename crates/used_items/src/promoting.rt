//! A problem with its items in another order, some more of them primary.

ghost use Rattle.std.specs.Prelude.{◌≡◌, ◌<◌, [], length, map, slice_index_or, true, IfOk, IfSome, ◌∷◌};
ghost use Rattle.std.specs.List.{list_all, range_with_len};
ghost use Rattle.cover_problem.specs.Problem.{items_of, option_numbers, problem_by, IsProblem};
ghost use Rattle.cover_reasons.specs.Room.{amount_of};
ghost use Rattle.used_items.specs.Covers.{HaveSameCovers};
ghost use Rattle.used_items.specs.Enough.{is_just_enough};
ghost use Rattle.used_items.specs.Orders.{is_order, is_sorted, promotes, name_at, place_of, places_in, reordered};

use crate::enough::is_just_enough;
use crate::laws::promotion_keeps_covers;
use crate::order::{Order, is_order};
use cover_problem::{Name, Numbers, Problem};
use cover_reasons::Room;
use problem_copies::{colour_names_of, colours_by_option, name_by};
use std::alloc::{AllocError, Global};

/// For how much an item has room.
fn room_of(room: &Room, item: u16) -> u16
    ensures { result ≡ amount_of room.now.rooms item }
{
    match room.rooms().get(item as usize) {
        Some(amount) => *amount,
        None => 0,
    }
}

/// Whether the item comes among the first just if it is primary or has room.
fn is_sorted(problem: &Problem, room: &Room, order: &Order, item: u16) -> bool
    ensures { result ≡ is_sorted problem.now room.now order.now item }
{
    let place = order.place_of(item) as usize;
    if (item as usize) < problem.primary() || room_of(room, item) != 0 {
        place < order.primary()
    } else {
        order.primary() <= place
    }
}

/// Whether that holds of each item.
fn are_sorted(problem: &Problem, room: &Room, order: &Order) -> bool
    ensures { result ≡ list_all (λ item. is_sorted problem.now room.now order.now item)
        (range_with_len 0 (length problem.now.names)) }
{
    (0..problem.items() as u16).all(|item| is_sorted(problem, room, order, item))
}

/// Whether the room is just enough, and the order is one of the problem's items, first those that are primary or have
/// room.
pub fn promotes(problem: &Problem, room: &Room, order: &Order) -> bool
    ensures { result ≡ promotes problem.now room.now order.now }
{
    if order.primary() > problem.items() {
        return false;
    }
    if !is_order(order, problem.items() as u16) {
        return false;
    }
    if !are_sorted(problem, room, order) {
        return false;
    }
    is_just_enough(problem, room)
}

/// The name of an item, or nothing where there is no such item.
fn name_of(problem: &Problem, item: u16) -> &[u8]
    ensures { result.now ≡ slice_index_or problem.now.names item [] }
{
    if (item as usize) < problem.items() {
        return problem.name(item);
    }
    &[]
}

/// The names of the items in an order.
#[tactic(auto, using(problem_copies::proofs::Growing::one_more))]
fn names_in_order(alloc: Global, problem: &Problem, order: &Order) -> Result<Vec<Name>, AllocError>
    ensures { IfOk result (λ names. names.items
        ≡ map (name_at problem.now order.now) (range_with_len 0 (length problem.now.names))) }
{
    let mut names = Vec::with_capacity(alloc, problem.items())?;
    for place in 0..problem.items() as u16 {
        let name = name_by(alloc, name_of(problem, order.item_at(place)))?;
        names.push(name)?;
    }
    Ok(names)
}

/// The places of these items.
fn places_of(alloc: Global, order: &Order, items: &[u16]) -> Result<Numbers, AllocError>
    ensures { IfOk result (λ places. places ≡ map (place_of order.now) items.now) }
{
    let places = items
        .iter()
        .map(|item| order.place_of(*item))
        .collect(alloc)?;
    Ok(Numbers::from_vec(places))
}

/// Of each option the places of its items.
#[tactic(auto, using(problem_copies::proofs::Growing::one_more))]
fn options_in_order(
    alloc: Global,
    problem: &Problem,
    order: &Order,
) -> Result<Vec<Numbers>, AllocError>
    ensures { IfOk result (λ options. options.items
        ≡ map (places_in problem.now order.now) (option_numbers problem.now)) }
{
    let mut options = Vec::with_capacity(alloc, problem.options())?;
    for option in 0..problem.options() as u16 {
        let places = places_of(alloc, order, problem.option(option))?;
        options.push(places)?;
    }
    Ok(options)
}

/// The problem in an order that makes those items primary that have room, which is just enough. It has the same exact
/// covers. The only error is out of memory.
pub fn promoted(
    alloc: Global,
    problem: &Problem,
    _room: &Room,
    order: &Order,
) -> Result<Problem, AllocError>
    requires { promotes problem.now _room.now order.now ≡ true }
    ensures made { IfOk result (λ made. made ≡ reordered problem.now order.now) }
    ensures covers { IfOk result (λ made. HaveSameCovers problem.now made) }
{
    promotion_keeps_covers();
    problem.recall_rules();
    let names = names_in_order(alloc, problem, order)?;
    let options = options_in_order(alloc, problem, order)?;
    let colours = colours_by_option(alloc, problem)?;
    let colour_names = colour_names_of(alloc, problem)?;
    Ok(Problem::from_parts(names, order.primary(), options, colours, colour_names))
}
