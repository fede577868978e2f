//! What is looked up in a table. It costs what `Table::next_here` does, and a pass through the guests where no child is
//! here.

ghost use Rattle.std.specs.Prelude.{◌≡◌, slice_get, true, IfSome};
ghost use Rattle.cover_world.specs.Views.{first_here, first_out, here_child, here_guest, here_job};
ghost use Rattle.spawn_frame.specs.Tables.{has_status, is_here};

use spawn_frame::{Job, Table, Unit};

/// The job of the least unit that a worker has: own children by serial, then guests in order.
pub fn here_job(table: &Table) -> Option<Job>
    ensures { result ≡ here_job table.now }
{
    match here_child(table) {
        Some(job) => Some(job),
        None => here_guest(table),
    }
}

/// The job of that own child which has the least serial of those that a worker has.
fn here_child(table: &Table) -> Option<Job>
    ensures { result ≡ here_child table.now.own }
{
    let unit = Unit::Own(first_here(table)?);
    match table.unit(unit) {
        Some(view) => {
            let attempt = view.attempt;
            Some(Job { unit, attempt })
        }
        None => unreachable!(),
    }
}

/// That own child which has the least serial of those that a worker has.
fn first_here(table: &Table) -> Option<u32>
    ensures least { result ≡ first_here table.now.own }
    ensures here { IfSome result (λ serial. has_status is_here (slice_get table.now.own serial)
        ≡ true) }
{
    table.next_here(0)
}

/// The job of the first guest that a worker has.
fn here_guest(table: &Table) -> Option<Job>
    ensures { result ≡ here_guest table.now.guests }
{
    for place in 0..table.guest_count() {
        let guest = table.guest(place);
        if guest.status.is_here() {
            let unit = Unit::Guest(guest.name, guest.attempt);
            let attempt = guest.attempt;
            return Some(Job { unit, attempt });
        }
    }
    None
}

/// That own child which has the least serial of those that are out. It costs what `Table::next_out` does.
pub fn first_out(table: &Table) -> Option<u32>
    ensures { result ≡ first_out table.now.own }
{
    table.next_out(0)
}
