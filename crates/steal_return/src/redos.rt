//! Children that are out and have to be worked on again.

ghost use Rattle.std.specs.Prelude.{◌≡◌, ◌↔◌, slice_get, false, IsErrOf, OnErr, OnOk};
ghost use Rattle.spawn_frame.specs.Tables.{has_status, is_out};
ghost use Rattle.steal_return.specs.Steals.{IsLastOut, RedoesChild};

use crate::ledger::Ledger;
use crate::redo_fault::RedoFault;
use spawn_frame::{LAST_ATTEMPT, Status, Unit};

impl Ledger {
    /// Makes an own child that is out ready again, at the next attempt. `NotOut` comes exactly where there is no such
    /// child, `NamesSpent` exactly where it stands at its last attempt; a fault changes nothing.
    pub fn redo(&mut self, serial: u32) -> Result<(), RedoFault>
        ensures ok { OnOk result (RedoesChild self.old serial self.new) }
        ensures not_out { IsErrOf result RedoFault.NotOut ↔
            (has_status is_out (slice_get self.old.own serial) ≡ false) }
        ensures spent { IsErrOf result RedoFault.NamesSpent ↔ IsLastOut
            (slice_get self.old.own serial) }
        ensures err { OnErr result (self.new ≡ self.old) }
    {
        let Some(view) = self.table.unit(Unit::Own(serial)) else {
            return Err(RedoFault::NotOut);
        };
        if !matches!(view.status, Status::Out(_)) {
            return Err(RedoFault::NotOut);
        }
        if view.attempt == LAST_ATTEMPT {
            return Err(RedoFault::NamesSpent);
        }
        self.table.redo(serial);
        Ok(())
    }
}
