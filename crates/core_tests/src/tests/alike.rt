//! Whether two sites know the same, by all that can be asked of them.

use node_core::SiteState;
use spawn_frame::{GuestView, Table, Unit};
use std::alloc::Global;
use std::process::Abort;

/// Whether a unit is there in both tables, with one attempt, status and prefix, or in none.
fn is_unit_alike<R: Abort>(
    rt: &R,
    alloc: Global,
    table: &Table,
    other: &Table,
    unit: Unit,
) -> bool {
    let (Some(view), Some(twin)) = (table.unit(unit), other.unit(unit)) else {
        return table.unit(unit).is_none() && other.unit(unit).is_none();
    };
    let mut prefix = Vec::new(alloc);
    table.prefix_into(unit, &mut prefix).expect(rt, "memory");
    let mut expected = Vec::new(alloc);
    other.prefix_into(unit, &mut expected).expect(rt, "memory");
    view.attempt == twin.attempt && view.status == twin.status && prefix == expected
}

/// Whether an own child has one parent in both tables, and so many children there.
fn is_child_alike(table: &Table, other: &Table, serial: u32) -> bool {
    serial < table.issued()
        && serial < other.issued()
        && table.parent(serial) == other.parent(serial)
        && table.children(Unit::Own(serial)) == other.children(Unit::Own(serial))
}

/// Whether the own children are alike.
fn are_children_alike<R: Abort>(rt: &R, alloc: Global, table: &Table, other: &Table) -> bool {
    if table.issued() != other.issued() {
        return false;
    }
    for serial in 0..table.issued() {
        if !is_child_alike(table, other, serial) {
            return false;
        }
        if !is_unit_alike(rt, alloc, table, other, Unit::Own(serial)) {
            return false;
        }
    }
    true
}

/// Whether two guests are alike.
fn is_guest_alike(guest: GuestView<'_>, other: GuestView<'_>) -> bool {
    guest.name == other.name
        && guest.attempt == other.attempt
        && guest.prefix == other.prefix
        && guest.status == other.status
}

/// Whether the guests are alike.
fn are_guests_alike(table: &Table, other: &Table) -> bool {
    if table.guest_count() != other.guest_count() {
        return false;
    }
    for place in 0..table.guest_count() {
        if place >= other.guest_count() {
            return false;
        }
        if !is_guest_alike(table.guest(place), other.guest(place)) {
            return false;
        }
    }
    true
}

/// Whether the tables have the same units, of which the same come next.
fn are_tables_alike<R: Abort>(rt: &R, alloc: Global, table: &Table, other: &Table) -> bool {
    table.names_limit() == other.names_limit()
        && are_children_alike(rt, alloc, table, other)
        && are_guests_alike(table, other)
        && table.ready() == other.ready()
        && table.ripe() == other.ripe()
        && table.outs() == other.outs()
}

/// Whether the sites know the same.
pub fn is_alike<R: Abort>(rt: &R, alloc: Global, state: &SiteState, other: &SiteState) -> bool {
    state.site() == other.site()
        && state.is_over() == other.is_over()
        && state.ledger().incarnations() == other.ledger().incarnations()
        && are_tables_alike(rt, alloc, state.ledger().table(), other.ledger().table())
}
