//! Units that are made, given away, redone, admitted and closed.

ghost use Rattle.std.specs.Prelude.{◌≡◌, ◌+◌, ◌<◌, ◌≤◌, ◌↔◌, length, IfOk, IsErrOf, IsSome, None, OnErr, OnOk, slice_get, true, ℕ};
ghost use Rattle.std.specs.List.{AllByRecursion};
ghost use Rattle.spawn_frame.specs.Aborts.{is_open};
ghost use Rattle.spawn_frame.specs.Gifts.{admit_each};
ghost use Rattle.spawn_frame.specs.Pages.{pages_for};
ghost use Rattle.spawn_frame.specs.Picks.{is_finished, is_ready};
ghost use Rattle.spawn_frame.specs.Splits.{split_into};
ghost use Rattle.spawn_frame.specs.Tables.{attempt_in, has_status, is_here, is_out, longer_prefixes, new_guest, parent_in, prefix_in};
ghost use Rattle.spawn_frame.specs.declared.site.ChildName.{ChildName};
ghost use Rattle.spawn_frame.specs.declared.status.Status.{Status};
ghost use Rattle.spawn_frame.specs.Units.{change_at, guest_in, insert_guest, last_attempt, redone, table_gets, table_guests, table_own, unit_of};

use crate::building::new_guest;
use crate::child_result::ChildResult;
use crate::ghost_prefix::GhostPrefix;
use crate::gift::Gift;
use crate::site::{Attempt, ChildName, Site};
use crate::spawn_fault::SpawnFault;
use crate::status::Status;
use crate::table::Table;
use crate::unit::Unit;
use crate::units::{place_behind, set_unit, split_unit};
use cover_problem::Numbers;
use std::alloc::AllocError;

impl Table {
    ghost use Rattle.spawn_frame.specs.Works.{may_become};

    /// Splits a unit that is here: for each option a child whose prefix is the unit's with that option. The children
    /// have the next serials, in order; the answer is the first.
    ///
    /// `NamesSpent` comes exactly where the site may not name so many, `Memory` only where memory ran out; a fault
    /// changes nothing. It costs looks for the unit, the making of the children, and passes through the unit's page.
    /// Memory is taken for whole pages, before any change, and none where the last page has room for the children. No
    /// child that is there moves.
    pub fn spawn(&mut self, unit: Unit, options: &[u16]) -> Result<u32, SpawnFault>
        requires here { has_status is_here (unit_of self.old unit) ≡ true }
        requires some { 0 < length options.now }
        ensures first { IfOk result (λ first. first ≡ length self.old.own) }
        ensures split { OnOk result (self.new
            ≡ split_into self.old unit
            (longer_prefixes (prefix_in (unit_of self.old unit)) options.now)) }
        ensures spent { IsErrOf result SpawnFault.NamesSpent ↔
            (self.old.limit < length self.old.own + length options.now) }
        ensures within { pages_for (length self.old.own + length options.now)
            ≡ pages_for (length self.old.own) → ¬ IsErrOf result SpawnFault.Memory }
        ensures err { OnErr result (self.new ≡ self.old) }
    {
        let first = self.own.len();
        // (no table names more than its limit; tested before memory is taken, so that too few names are reported even
        // where it runs out)
        if options.len() > self.names_limit as usize - first {
            return Err(SpawnFault::NamesSpent);
        }
        let path = self.path(unit);
        // (the only call that can fail, so it comes before the unit changes)
        self.own.append(unit, &path, options)?;
        // (neither number is above the limit on names, which is a u32)
        let first = first as u32;
        let count = options.len() as u32;
        split_unit(&mut self.own, &mut self.guests, unit, first, count);
        Ok(first)
    }

    /// A ready own child is given to a thief. It costs passes through its page.
    pub fn give(&mut self, serial: u32, thief: Site)
        requires { has_status is_ready (slice_get self.old.own serial) ≡ true }
        ensures { self.new ≡ table_gets self.old (Unit.Own serial) (Status.Out thief) }
    {
        self.set_status(Unit::Own(serial), Status::Out(thief));
    }

    /// An own child that is out is ready again, at the next attempt, which there is below 4,294,967,295. It costs
    /// passes through its page.
    pub fn redo(&mut self, serial: u32)
        requires out { has_status is_out (slice_get self.old.own serial) ≡ true }
        requires attempt { attempt_in (slice_get self.old.own serial) < last_attempt }
        ensures { self.new ≡ table_own self.old (change_at redone self.old.own serial) }
    {
        self.own.redo(serial);
    }

    /// Another site's child becomes a ready guest, which keeps the prefix that is handed in; the only error is out of
    /// memory, which changes nothing. It costs searches by halving, a move of the guests that stand behind, and one of
    /// the places of those among them that are open.
    ///
    /// Only tests call this: ledgers admit several at a time.
    pub fn admit(
        &mut self,
        name: ChildName,
        attempt: Attempt,
        prefix: Numbers,
    ) -> Result<(), AllocError>
        requires absent { guest_in self.old.guests name attempt ≡ None }
        requires attempt { 1 ≤ attempt }
        ensures ok { OnOk result (self.new
            ≡ table_guests self.old
            (insert_guest (new_guest name attempt prefix) self.old.guests)) }
        ensures err { OnErr result (self.new ≡ self.old) }
    {
        let guest = new_guest(name, attempt, prefix);
        let place = place_behind(self.guests.as_slice(), name, attempt);
        self.guests.insert(place, guest)?;
        Ok(())
    }

    /// Other children of a site become ready guests, each unless it is there already; the only error is out of memory,
    /// which changes nothing. Each costs what `admit` does.
    pub fn admit_each(&mut self, from: Site, gifts: Vec<Gift>) -> Result<(), AllocError>
        requires { AllByRecursion (λ g. 1 ≤ g.attempt) gifts.items }
        ensures ok { OnOk result (self.new
            ≡ table_guests self.old (admit_each from gifts.items self.old.guests)) }
        ensures err { OnErr result (self.new ≡ self.old) }
    {
        self.guests.admit_each(from, gifts)?;
        Ok(())
    }

    /// A finished guest settles on the result that its owner accepted. It costs a look for the guest, and one for its
    /// place among the open ones, of which those behind are moved.
    pub fn settle(&mut self, name: ChildName, attempt: Attempt, child_result: ChildResult)
        requires { has_status is_finished (guest_in self.old.guests name attempt) ≡ true }
        ensures { self.new ≡ table_gets self.old (Unit.Guest name attempt)
            (Status.Settled child_result) }
    {
        self.set_status(Unit::Guest(name, attempt), Status::Settled(child_result));
    }

    /// An open guest is wanted no more. It costs what `settle` does.
    pub fn drop_guest(&mut self, name: ChildName, attempt: Attempt)
        requires { has_status is_open (guest_in self.old.guests name attempt) ≡ true }
        ensures { self.new ≡ table_gets self.old (Unit.Guest name attempt) Status.Dropped }
    {
        self.set_status(Unit::Guest(name, attempt), Status::Dropped);
    }

    /// An open own child is wanted no more. It costs passes through its page.
    pub fn abort(&mut self, serial: u32)
        requires { has_status is_open (slice_get self.old.own serial) ≡ true }
        ensures { self.new ≡ table_gets self.old (Unit.Own serial) Status.Aborted }
    {
        self.set_status(Unit::Own(serial), Status::Aborted);
    }

    /// Gives a unit a status of which no frame hears.
    pub(crate) fn set_status(&mut self, unit: Unit, status: Status)
        requires { has_status (may_become unit status) (unit_of self.old unit) ≡ true }
        ensures after { self.new ≡ table_gets self.old unit status }
        ensures guests { (name : ChildName) (attempt : ℕ) →
            parent_in (guest_in self.new.guests name attempt) ≡ None }
    {
        set_unit(&mut self.own, &mut self.guests, unit, status);
    }

    /// The prefix of a unit that is there, for proofs alone.
    fn path(&self, unit: Unit) -> GhostPrefix
        requires { IsSome (unit_of self.now unit) }
        ensures { result.options ≡ prefix_in (unit_of self.now unit) }
    {
        match self.work(unit) {
            Some(work) => work.path.copy(),
            None => unreachable!(),
        }
    }
}
