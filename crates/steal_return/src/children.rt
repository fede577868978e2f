//! Walks over the own children of a table that are out, by serial. Each costs a look at each page of the table, and one
//! at each child of the pages that have a child that is out.

ghost use Rattle.std.specs.Prelude.{◌≡◌, slice_get, false};
ghost use Rattle.std.specs.Bool.{OnFalse, OnTrue};
ghost use Rattle.spawn_frame.specs.Tables.{has_status};
ghost use Rattle.spawn_frame.specs.Units.{change_at, table_own};
ghost use Rattle.steal_return.specs.Members.{is_out_to, is_spent_at, known_after, redo_if, redo_lost, IsRedoable, IsSpent};
ghost use Rattle.steal_return.specs.Steals.{first_ready, is_older};

use crate::known::Known;
use crate::news::News;
use spawn_frame::{LAST_ATTEMPT, Status, Table, Unit};

/// The ready child of least serial. It costs what the table's `next_ready` does.
pub fn first_ready(table: &Table) -> Option<u32>
    ensures { result ≡ first_ready table.now.own }
{
    table.next_ready(0)
}

/// Whether a child is there and out to such a site.
fn is_lost(table: &Table, known: &Known, serial: u32) -> bool
    ensures { result ≡ has_status (is_out_to (is_older known.now))
        (slice_get table.now.own serial) }
{
    match table.unit(Unit::Own(serial)) {
        Some(view) => match view.status {
            Status::Out(thief) => known.is_older(*thief),
            _ => false,
        },
        None => false,
    }
}

/// Whether each child can be redone that has to be once this news is heard.
pub fn is_redoable(table: &Table, known: &Known, news: News<'_>) -> bool
    ensures able { OnTrue result
        (IsRedoable (is_older (known_after news.entry known.now)) table.now.own) }
    ensures spent { OnFalse result
        (IsSpent (is_older (known_after news.entry known.now)) table.now.own) }
{
    let issued = table.issued();
    let mut from = 0;
    while from < issued {
        let Some(serial) = table.next_out(from) else {
            return true;
        };
        if is_spent(table, known, news, serial) {
            return false;
        }
        // (each serial is below the limit on names, which is a u32, so the sum fits)
        from = serial + 1;
    }
    true
}

/// Whether a child would have to be redone then and stands at its last attempt.
fn is_spent(table: &Table, known: &Known, news: News<'_>, serial: u32) -> bool
    ensures { result ≡ is_spent_at (is_older (known_after news.entry known.now))
        (slice_get table.now.own serial) }
{
    match table.unit(Unit::Own(serial)) {
        Some(view) => match view.status {
            Status::Out(thief) => {
                view.attempt == LAST_ATTEMPT && known.will_outrun(news, *thief)
            }
            _ => false,
        },
        None => false,
    }
}

/// Redoes each child that is out to an earlier incarnation than is known.
pub fn redo_lost(table: &mut Table, known: &Known)
    requires { IsRedoable (is_older known.now) table.old.own }
    ensures { table.new ≡ table_own table.old (redo_lost (is_older known.now) table.old.own) }
{
    let issued = table.issued();
    let mut from = 0;
    while from < issued {
        let Some(serial) = table.next_out(from) else {
            return;
        };
        redo_if_lost(table, known, serial);
        from = serial + 1;
    }
}

/// Redoes a child if it is out to such a site.
fn redo_if_lost(table: &mut Table, known: &Known, serial: u32)
    requires { is_spent_at (is_older known.now) (slice_get table.old.own serial) ≡ false }
    ensures { table.new ≡ table_own table.old
        (change_at (λ c. redo_if (is_older known.now) c c.status) table.old.own serial) }
{
    if is_lost(table, known, serial) {
        table.redo(serial);
    }
}
