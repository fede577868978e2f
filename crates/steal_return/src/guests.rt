//! Walks over the guests of a table, in their order.

ghost use Rattle.std.specs.Prelude.{◌≡◌, ◌∷◌, [], IfOk};
ghost use Rattle.spawn_frame.specs.Aborts.{is_open};
ghost use Rattle.spawn_frame.specs.Tables.{has_status, seen_guest, IsAscending};
ghost use Rattle.spawn_frame.specs.Units.{guest_in, table_guests};
ghost use Rattle.steal_return.specs.Members.{dropped, is_lost, lost_units, MayDrop};

use crate::known::Known;
use spawn_frame::{Attempt, ChildName, GuestView, Table, Unit};
use std::alloc::{AllocError, Global};

/// The open guests of owners of which a later incarnation is known; the only error is out of memory. It costs a pass
/// through the open guests.
pub fn lost_guests(alloc: Global, table: &Table, known: &Known) -> Result<Vec<Unit>, AllocError>
    ensures lost { IfOk result (λ lost. lost.items ≡ lost_units known.now table.now.guests) }
    ensures ascending { IfOk result (λ _. IsAscending table.now.guests) }
{
    let mut lost = Vec::new(alloc);
    for place in 0..table.open_count() {
        let guest = table.open_guest(place);
        if is_lost(known, guest) {
            lost.push(Unit::Guest(guest.name, guest.attempt))?;
        }
    }
    Ok(lost)
}

/// Whether a guest is open, and a later incarnation of its owner is known.
fn is_lost(known: &Known, guest: GuestView<'_>) -> bool
    ensures { result ≡ is_lost known.now (seen_guest guest.entry) }
{
    // (on this walk each guest is open; the definition is of any guest)
    known.is_older(guest.name.site) && guest.status.is_open()
}

/// Whether a guest is there and open.
pub fn is_open(table: &Table, name: ChildName, attempt: Attempt) -> bool
    ensures { result ≡ has_status is_open (guest_in table.now.guests name attempt) }
{
    match table.unit(Unit::Guest(name, attempt)) {
        Some(view) => view.status.is_open(),
        None => false,
    }
}

/// Drops these guests, one after another.
pub fn drop_guests(table: &mut Table, units: &[Unit])
    requires { MayDrop units.now table.old.guests }
    ensures { table.new ≡ table_guests table.old (dropped units.now table.old.guests) }
{
    for unit in units {
        drop_unit(table, *unit);
    }
}

/// Drops a guest.
fn drop_unit(table: &mut Table, unit: Unit)
    requires { MayDrop (unit ∷ []) table.old.guests }
    ensures { table.new ≡ table_guests table.old (dropped (unit ∷ []) table.old.guests) }
{
    if let Unit::Guest(name, attempt) = unit {
        table.drop_guest(name, attempt);
    }
}
