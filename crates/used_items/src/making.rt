//! A problem with the secondary items made primary that each exact cover uses.

ghost use Rattle.std.specs.Prelude.{◌≡◌, true, IfOk, IfSome};
ghost use Rattle.used_items.specs.Orders.{IsPromoted};

use crate::order::Order;
use crate::promoting::{promoted, promotes};
use crate::room_finder::find_full_room;
use cover_problem::Problem;
use cover_reasons::{Endless, ReasonWatch, Room};
use fractional_room::Row;
use std::alloc::{AllocError, Global};

/// A problem with more primary items than another one, and the room that says why: it is just enough, so each exact
/// cover uses the items that have some.
#[derive(Debug, Drop)]
pub struct WithUsedItems {
    /// The problem, with the same options in the same order and the same exact covers. Its items are in another order.
    pub problem: Problem,
    /// The room, by the items of the other problem.
    pub room: Room,
}

/// Whether an item is primary or has room.
fn comes_first(problem: &Problem, room: &Room, item: usize) -> bool {
    if item < problem.primary() {
        return true;
    }
    match room.rooms().get(item) {
        Some(amount) => *amount != 0,
        None => false,
    }
}

/// Adds to an order the items that come first, or those that don't.
fn add_items(
    problem: &Problem,
    room: &Room,
    is_first: bool,
    items: &mut Vec<u16>,
    places: &mut Row,
) -> Result<(), AllocError> {
    for item in 0..problem.items() as u16 {
        if comes_first(problem, room, item as usize) == is_first {
            places.put(item as usize, items.len().min(65535) as u16);
            items.push(item)?;
        }
    }
    Ok(())
}

/// The items in the order of the problem, but those that have room right behind the primary ones. The only error is out
/// of memory.
fn order_by(alloc: Global, problem: &Problem, room: &Room) -> Result<Order, AllocError> {
    let mut items = Vec::with_capacity(alloc, problem.items())?;
    let mut places = Row::zeros(alloc, problem.items())?;
    add_items(problem, room, true, &mut items, &mut places)?;
    let primary = items.len();
    add_items(problem, room, false, &mut items, &mut places)?;
    Ok(Order::from_parts(items, places.into_vec(), primary))
}

/// The problem with the items made primary that have room, if that is just enough. The only error is out of memory.
pub fn with_room(
    alloc: Global,
    problem: &Problem,
    room: &Room,
) -> Result<Option<Problem>, AllocError>
    ensures { IfOk result (λ found. IfSome found (λ made. IsPromoted problem.now room.now made)) }
{
    let order = order_by(alloc, problem, room)?;
    if !promotes(problem, room, &order) {
        return Ok(None);
    }
    Ok(Some(promoted(alloc, problem, room, &order)?))
}

/// The problem with those secondary items made primary that each exact cover uses, as far as such are found. It has the
/// same exact covers, but another first one in the order of the search.
///
/// They are found by matchings of primary items with secondary ones: where lessons need each period of a class, no
/// cover leaves one out. Where none are found there may be such items. It takes memory of the order of the problem, and
/// a bit for each primary item and each item beside it; and a tenth of a second or so at most. The only error is out of
/// memory. The program calls `with_used_items_until`.
pub fn with_used_items(
    alloc: Global,
    problem: &Problem,
) -> Result<Option<WithUsedItems>, AllocError>
    ensures { IfOk result (λ found.
        IfSome found (λ made. IsPromoted problem.now made.room made.problem)) }
{
    with_used_items_until(alloc, problem, &mut Endless)
}

/// The same, looked for until the watch ends that: then there are those that were found by then, or none.
pub fn with_used_items_until<W: ReasonWatch>(
    alloc: Global,
    problem: &Problem,
    watch: &mut W,
) -> Result<Option<WithUsedItems>, AllocError>
    ensures { IfOk result (λ found.
        IfSome found (λ made. IsPromoted problem.now made.room made.problem)) }
{
    match find_full_room(alloc, problem, watch)? {
        Some(room) if !watch.look() => made_with(alloc, problem, room),
        _ => Ok(None),
    }
}

/// The problem made by the room, and the room.
fn made_with(
    alloc: Global,
    problem: &Problem,
    room: Room,
) -> Result<Option<WithUsedItems>, AllocError>
    ensures { IfOk result (λ found.
        IfSome found (λ made. IsPromoted problem.now made.room made.problem)) }
{
    match with_room(alloc, problem, &room)? {
        Some(problem) => Ok(Some(WithUsedItems { problem, room })),
        None => Ok(None),
    }
}
