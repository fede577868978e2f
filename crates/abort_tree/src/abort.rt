//! The abort of what is below one unit.

ghost use Rattle.std.specs.Prelude.{◌≡◌, ◌++◌, OnErr, OnOk};
ghost use Rattle.spawn_frame.specs.Aborts.{AbortsBelow, reached};
ghost use Rattle.spawn_frame.specs.Names.{same_unit};
ghost use Rattle.spawn_frame.specs.Units.{table_own};

use crate::descendants::Descendants;
use spawn_frame::{Out, Table, Unit};
use std::alloc::{AllocError, Global};

/// Aborts each open unit below the given one, and appends those that were out, by serial.
///
/// The only error is out of memory, which changes nothing: all memory is taken before the first abort. It costs a walk
/// down to what is below the unit, a sort of the serials found, and two passes through them, however many other units
/// there are.
///
/// It is `Descendants::below` and `Descendants::abort` in one. Ledgers call these two, as they abort below several
/// units in one event; only tests call this.
pub fn abort_below(
    alloc: Global,
    table: &mut Table,
    unit: Unit,
    list: &mut Vec<Out>,
) -> Result<(), AllocError>
    ensures aborts { OnOk result (AbortsBelow (same_unit unit) table.old.own table.new.own) }
    ensures others { OnOk result (table.new ≡ table_own table.old table.new.own) }
    ensures list { OnOk result (list.new.items ≡ list.old.items
        ++ reached 0 table.old.own table.new.own) }
    ensures table { OnErr result (table.new ≡ table.old) }
    ensures unchanged { OnErr result (list.new.items ≡ list.old.items) }
{
    let descendants = Descendants::below(alloc, table, &[unit])?;
    list.reserve(descendants.outs(table))?;
    descendants.abort(table, list);
    Ok(())
}
