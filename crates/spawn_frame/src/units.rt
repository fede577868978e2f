//! Units among the own children and guests of a table.

ghost use Rattle.std.specs.Prelude.{◌≡◌, ◌+◌, ◌<◌, ◌≤◌, ◌^◌, find, is_some, length, map, not, option_map, position, slice_get};
ghost use Rattle.std.specs.List.{position_or_len};
ghost use Rattle.spawn_frame.specs.Guests.{guest_of, StaysOpen};
ghost use Rattle.spawn_frame.specs.Names.{guest_before};
ghost use Rattle.spawn_frame.specs.Tables.{guest_key, is_after, IsAscending};
ghost use Rattle.spawn_frame.specs.Units.{guest_in, is_guest};
ghost use Rattle.spawn_frame.specs.Works.{frame_says, guest_entry, guests_after, guests_told, own_after, own_told, parent_work, split_work, with_heard, with_work_status, work_in, HearsFrom};

use crate::child_result::ChildResult;
use crate::children::Children;
use crate::guest::Guest;
use crate::guests::Guests;
use crate::heard::Heard;
use crate::site::{Attempt, ChildName};
use crate::status::Status;
use crate::unit::Unit;

/// The name and attempt of the first guest behind the given one, or of the first of all. It costs a search by halving.
pub fn first_after(
    guests: &[Guest],
    after: Option<(ChildName, Attempt)>,
) -> Option<(ChildName, Attempt)>
    requires { IsAscending (map guest_entry guests.now) }
    ensures { result ≡ option_map guest_key (find (is_after after) (map guest_entry guests.now)) }
{
    match after {
        Some((name, attempt)) => key_at(guests, place_behind(guests, name, attempt)),
        None => key_at(guests, 0),
    }
}

/// The name and attempt of the guest at a place, if there is one.
fn key_at(guests: &[Guest], place: usize) -> Option<(ChildName, Attempt)>
    ensures { result ≡ option_map guest_key (slice_get (map guest_entry guests.now) place) }
{
    if place < guests.len() {
        let guest = &guests[place];
        Some((guest.name, guest.work.attempt))
    } else {
        None
    }
}

/// The place of the guest of this name and attempt. It costs a search by halving.
pub fn place_of(guests: &[Guest], name: ChildName, attempt: Attempt) -> Option<usize>
    requires { IsAscending (map guest_entry guests.now) }
    ensures { result ≡ position (λ g. is_guest name attempt (guest_entry g)) guests.now }
{
    let behind = place_behind(guests, name, attempt);
    if behind == 0 {
        return None;
    }
    // (guests ascend without repeats: if it is there, it is the last one that isn't behind its own key)
    if guests[behind - 1].is_at(name, attempt) {
        Some(behind - 1)
    } else {
        None
    }
}

/// The place of the first guest that stands behind this name and attempt in the order of guests, or the end. It costs a
/// search by halving.
pub fn place_behind(guests: &[Guest], name: ChildName, attempt: Attempt) -> usize
    requires { IsAscending (map guest_entry guests.now) }
    ensures place { result
        ≡ position_or_len (λ g. guest_before name attempt g.name g.work.attempt) guests.now }
    ensures within { result ≤ length guests.now }
{
    guests.partition_point(
        |guest: &Guest| -> bool
            ensures { result ≡ not
                (guest_before name attempt guest.now.name guest.now.work.attempt) }
        { !guest.is_behind(name, attempt) },
    )
}

/// Whether the guest of this name and attempt is there. It costs a search by halving.
pub fn has_guest(guests: &[Guest], name: ChildName, attempt: Attempt) -> bool
    requires { IsAscending (map guest_entry guests.now) }
    ensures { result ≡ is_some (guest_in (map guest_entry guests.now) name attempt) }
{
    place_of(guests, name, attempt).is_some()
}

/// Gives a unit another status, if it is there.
pub fn set_unit(own: &mut Children, guests: &mut Guests, unit: Unit, status: Status)
    requires ascending { IsAscending (map guest_entry guests.old) }
    requires stays { StaysOpen status (guest_of unit guests.old) }
    ensures own { own.new ≡ own_after unit (with_work_status status) own.old }
    ensures guests { guests.new ≡ guests_after unit (with_work_status status) guests.old }
{
    // (each of these calls has its own match: for one that lends a `&mut` out of either list the prover has no form)
    match unit {
        Unit::Own(serial) => own.set_status(serial, status),
        Unit::Guest(name, attempt) => {
            if let Some(place) = place_of(guests.as_slice(), name, attempt) {
                guests.set_status(place, status);
            }
        }
    }
}

/// Makes a unit a frame of so many children, whose serials begin at the first, if it is there.
pub fn split_unit(own: &mut Children, guests: &mut Guests, unit: Unit, first: u32, count: u32)
    requires some { 0 < count }
    requires fits { first + count < 2 ^ 32 }
    requires ascending { IsAscending (map guest_entry guests.old) }
    requires stays { StaysOpen Status.Split (guest_of unit guests.old) }
    ensures own { own.new ≡ own_after unit (split_work first count) own.old }
    ensures guests { guests.new ≡ guests_after unit (split_work first count) guests.old }
{
    match unit {
        Unit::Own(serial) => own.split(serial, first, count),
        Unit::Guest(name, attempt) => {
            if let Some(place) = place_of(guests.as_slice(), name, attempt) {
                guests.split(place, first, count);
            }
        }
    }
}

/// Tells a frame the result of a child, and says whether it is settled now; what is no frame says `Open`.
fn tell(
    own: &mut Children,
    guests: &mut Guests,
    unit: Unit,
    child: u32,
    child_result: &ChildResult,
) -> Heard
    requires hears { HearsFrom (work_in own.old guests.old unit) }
    requires ascending { IsAscending (map guest_entry guests.old) }
    ensures own { own.new ≡ own_after unit (with_heard child child_result.now) own.old }
    ensures guests { guests.new ≡ guests_after unit (with_heard child child_result.now) guests.old }
    ensures heard { result ≡ frame_says
        (option_map (with_heard child child_result.now) (work_in own.old guests.old unit)) }
{
    match unit {
        Unit::Own(serial) => own.hear(serial, child, child_result),
        Unit::Guest(name, attempt) => match place_of(guests.as_slice(), name, attempt) {
            Some(place) => guests.hear(place, child, child_result),
            None => Heard::Open,
        },
    }
}

/// Tells the parent of a child its result, if it has one, and says whether that frame is settled now; else `Open`.
pub fn tell_parent(
    own: &mut Children,
    guests: &mut Guests,
    parent: Option<Unit>,
    child: u32,
    child_result: &ChildResult,
) -> Heard
    requires hears { HearsFrom (parent_work parent own.old guests.old) }
    requires ascending { IsAscending (map guest_entry guests.old) }
    ensures own { own.new ≡ own_told parent (with_heard child child_result.now) own.old }
    ensures guests { guests.new
        ≡ guests_told parent (with_heard child child_result.now) guests.old }
    ensures heard { result ≡ frame_says
        (option_map (with_heard child child_result.now) (parent_work parent own.old guests.old)) }
{
    match parent {
        Some(unit) => tell(own, guests, unit, child, child_result),
        None => Heard::Open,
    }
}
