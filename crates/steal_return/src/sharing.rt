//! Which of its ready children a site gives.
//!
//! Work stealing, with Cilk's two rules: workers take the newest child, thieves get the oldest, which as a rule is
//! nearest to the root and so the largest. A thief gets more than one: half of the ready children of that parent,
//! rounded up (steal-half, as of Hendler and Shavit), so that it needn't ask again at once. Eight go into one packet,
//! and more than that are never given.

ghost use Rattle.std.specs.Prelude.{◌≡◌, ◌<◌, ◌∷◌, [], length, slice_get, take, Some};
ghost use Rattle.spawn_frame.specs.Picks.{is_ready};
ghost use Rattle.spawn_frame.specs.Tables.{has_status, parent_in};
ghost use Rattle.steal_return.specs.Shares.{ready_from, share, share_of, share_with};
ghost use Rattle.steal_return.specs.Steals.{first_ready};

use arrayvec::ArrayVec;
use spawn_frame::{MOST_SIBLINGS, Table, Unit};

// (half of 15, rounded up, is eight, the most that one packet gives: a look at more ready children is of no use)
/// No share is larger than that of so many ready children.
pub const MOST_READY: usize = 2 * MOST_SIBLINGS - 1;

/// The children that a thief gets with this one, which is the ready one of least serial. It takes no memory, and costs
/// a look at each later child of its parent until 15 are ready.
pub fn share_with(table: &Table, serial: u32) -> ArrayVec<u32, MOST_READY>
    requires there { serial < length table.now.own }
    requires least { first_ready table.now.own ≡ Some serial }
    ensures { result.items
        ≡ share_with (parent_in (slice_get table.now.own serial)) serial table.now.own }
{
    match table.parent(serial) {
        Some(parent) => share_below(table, parent, serial),
        None => alone(serial),
    }
}

/// One serial by itself.
fn alone(serial: u32) -> ArrayVec<u32, MOST_READY>
    ensures { result.items ≡ serial ∷ [] }
{
    let mut serials = ArrayVec::new();
    serials.push(serial);
    serials
}

/// The children of a unit that a thief gets, where this one is the ready one of least serial.
fn share_below(table: &Table, parent: Unit, least: u32) -> ArrayVec<u32, MOST_READY>
    requires parent { parent_in (slice_get table.now.own least) ≡ Some parent }
    requires least { first_ready table.now.own ≡ Some least }
    ensures { result.items ≡ share (ready_from parent 0 table.now.own) }
{
    let mut serials = ready_below(table, parent, least);
    let count = share_of(serials.len());
    serials.truncate(count);
    serials
}

/// How many a thief gets of so many.
fn share_of(count: usize) -> usize
    requires { count < 16 }
    ensures { result ≡ share_of count }
{
    // (rounded up, so that a single ready child is given, too)
    (count + 1) / 2
}

/// The first ready children of a unit, where this one is the ready one of least serial.
fn ready_below(table: &Table, parent: Unit, least: u32) -> ArrayVec<u32, MOST_READY>
    requires parent { parent_in (slice_get table.now.own least) ≡ Some parent }
    requires least { first_ready table.now.own ≡ Some least }
    ensures { result.items ≡ take 15 (ready_from parent 0 table.now.own) }
{
    let siblings = table.children(parent);
    let mut ready = ArrayVec::new();
    // (this one is the least ready child of all, so none of its siblings before it is ready)
    let mut serial = least;
    while serial < siblings.end && ready.len() < MOST_READY {
        if is_ready(table, serial) {
            ready.push(serial);
        }
        serial += 1;
    }
    ready
}

/// Whether an own child is there and ready.
fn is_ready(table: &Table, serial: u32) -> bool
    ensures { result ≡ has_status is_ready (slice_get table.now.own serial) }
{
    match table.status(Unit::Own(serial)) {
        Some(status) => status.is_ready(),
        None => false,
    }
}
