//! Prefixes of units, which are read upwards from a unit to the guest or the root that it comes from.

ghost use Rattle.std.specs.Prelude.{◌≡◌, ◌++◌, length, map, reverse, take, OnErr, OnOk, bytes_eq as same_numbers};
ghost use Rattle.spawn_frame.specs.Prefixes.{link_of, origin_of, path_of, AreGrown, IsAbove, IsPart};
ghost use Rattle.spawn_frame.specs.Tables.{IsAscending};
ghost use Rattle.spawn_frame.specs.Works.{guest_entry};

use crate::child::Child;
use crate::children::Children;
use crate::guest::Guest;
use crate::prefix_part::PrefixPart;
use crate::unit::Unit;
use crate::units::place_of;
use std::alloc::AllocError;

/// Appends a unit's prefix to the list; the only error is out of memory, and the list is then as it was. It costs a
/// step for each option.
pub fn prefix_into(
    own: &Children,
    guests: &[Guest],
    unit: Unit,
    list: &mut Vec<u16>,
) -> Result<(), AllocError>
    requires ascending { IsAscending (map guest_entry guests.now) }
    requires grown { AreGrown (map link_of own.now) (map origin_of guests.now) }
    ensures ok { OnOk result (list.new.items
        ≡ list.old.items ++ path_of own.now guests.now unit) }
    ensures err { OnErr result (list.new.items ≡ list.old.items) }
{
    let first = list.len();
    match push_upwards(own, guests, unit, list) {
        Ok(()) => {
            list[first..].reverse();
            Ok(())
        }
        Err(error) => {
            list.truncate(first);
            Err(error)
        }
    }
}

/// Appends the options of a unit's prefix, the last one first.
fn push_upwards(
    own: &Children,
    guests: &[Guest],
    unit: Unit,
    list: &mut Vec<u16>,
) -> Result<(), AllocError>
    requires ascending { IsAscending (map guest_entry guests.now) }
    requires grown { AreGrown (map link_of own.now) (map origin_of guests.now) }
    ensures ok { OnOk result (list.new.items
        ≡ list.old.items ++ reverse (path_of own.now guests.now unit)) }
    ensures kept { take (length list.old.items) list.new.items ≡ list.old.items }
{
    let mut at = unit;
    // (it ends: a parent was named before its child, so serials fall on the way up)
    'upwards: loop {
        match part_of(own, guests, at) {
            PrefixPart::Whole(options) => return push_backwards(options, list),
            PrefixPart::Longer(parent, option) => {
                list.push(option)?;
                at = parent;
            }
        }
    }
}

/// Appends these options, the last one first.
fn push_backwards(options: &[u16], list: &mut Vec<u16>) -> Result<(), AllocError>
    ensures ok { OnOk result (list.new.items ≡ list.old.items ++ reverse options.now) }
    ensures err { OnErr result (list.new.items ≡ list.old.items) }
{
    let first = list.len();
    list.extend_from_slice(options)?;
    list[first..].reverse();
    Ok(())
}

/// Whether a unit has this prefix. The last options are compared first; it takes no memory, and costs a step for each
/// option until two differ.
pub fn has_prefix(own: &Children, guests: &[Guest], unit: Unit, prefix: &[u16]) -> bool
    requires ascending { IsAscending (map guest_entry guests.now) }
    requires grown { AreGrown (map link_of own.now) (map origin_of guests.now) }
    ensures { result ≡ same_numbers (path_of own.now guests.now unit) prefix.now }
{
    let mut at = unit;
    let mut left = prefix;
    'upwards: loop {
        match part_of(own, guests, at) {
            PrefixPart::Whole(options) => return options == left,
            PrefixPart::Longer(parent, option) => match left.split_last() {
                Some((last, before)) if *last == option => {
                    at = parent;
                    left = before;
                }
                _ => return false,
            },
        }
    }
}

/// What the prefix of a unit is made of; that of a unit that isn't there is empty.
fn part_of<'a>(own: &Children, guests: &'a [Guest], unit: Unit) -> PrefixPart<'a>
    requires ascending { IsAscending (map guest_entry guests.now) }
    requires grown { AreGrown (map link_of own.now) (map origin_of guests.now) }
    ensures { IsPart (map link_of own.now) (map origin_of guests.now) unit result }
{
    match unit {
        Unit::Own(serial) => match own.get(serial) {
            Some(child) => above(child),
            None => PrefixPart::Whole(&[]),
        },
        Unit::Guest(name, attempt) => match place_of(guests, name, attempt) {
            Some(place) => PrefixPart::Whole(guests[place].prefix.as_slice()),
            None => PrefixPart::Whole(&[]),
        },
    }
}

/// What the prefix of an own child is made of.
fn above<'a>(child: &Child) -> PrefixPart<'a>
    ensures { IsAbove child.now.parent child.now.option result }
{
    match child.parent {
        Some(parent) => PrefixPart::Longer(parent, child.option),
        None => PrefixPart::Whole(&[]),
    }
}
