//! Children of other sites that arrive as guests, and what their owners answer to their results.

ghost use Rattle.std.specs.Prelude.{◌≡◌, ◌+◌, ◌≤◌, is_some, length, false, IfOk, OnErr, OnOk};
ghost use Rattle.std.specs.List.{list_all, AllByRecursion};
ghost use Rattle.spawn_frame.specs.Gifts.{is_there};
ghost use Rattle.spawn_frame.specs.Tables.{outs_of};
ghost use Rattle.spawn_frame.specs.Units.{guest_in};
ghost use Rattle.steal_return.specs.Guests.{child_of, AdmitsGuests, DropsIf, StaysUnless, TellsAccept, TellsGive};
ghost use Rattle.steal_return.specs.Steals.{is_older};
ghost use Rattle.steal_return.specs.Shares.{gifts_of};

use crate::given::Given;
use crate::guests::is_open;
use crate::ledger::Ledger;
use abort_tree::{Descendants, Out};
use spawn_frame::{Attempt, ChildName, ChildResult, Gift, Sibling, Site, Status, Unit};
use std::alloc::AllocError;

impl Ledger {
    /// Children of another site, given to this one at attempts of at least 1, become ready guests, those that aren't
    /// there yet. None does where a later incarnation of their owner is known, or where all are there already. True
    /// where any does. The only error is out of memory, which changes nothing.
    ///
    /// The cores call its parts, since a prefix that they don't believe has to be refused between them; only tests and
    /// tools call this.
    pub fn receive_give(&mut self, from: Site, given: Given) -> Result<bool, AllocError>
        requires { AllByRecursion (λ g. 1 ≤ g.attempt) (gifts_of given) }
        ensures ok { IfOk result (λ moved.
            TellsGive self.old from (gifts_of given) moved self.new) }
        ensures err { OnErr result (self.new ≡ self.old) }
    {
        if self.is_older(from) || self.are_there(from, &given) {
            return Ok(false);
        }
        let gifts = given.into_gifts(self.alloc)?;
        self.admit_each(from, gifts)?;
        Ok(true)
    }

    /// Whether each of these children of a site is a guest already, in whatever status. Each is found by halving.
    pub fn are_there(&self, from: Site, given: &Given) -> bool
        ensures { result ≡ list_all (is_there from self.now.guests) (gifts_of given.now) }
    {
        match given {
            Given::One(gift) => self.has_guest(from, gift.serial, gift.attempt),
            Given::Several { siblings, .. } => self.all_there(from, siblings.as_slice()),
        }
    }

    /// The same of children of one parent.
    fn all_there(&self, from: Site, siblings: &[Sibling]) -> bool
        ensures { result ≡ list_all (λ s. is_some (guest_in self.now.guests
            (child_of from s.serial) s.attempt)) siblings.now }
    {
        siblings.iter().all(|sibling| self.has_guest(from, sibling.serial, sibling.attempt))
    }

    /// Whether a child of a site is a guest at an attempt, in whatever status. It is found by halving.
    pub fn has_guest(&self, from: Site, serial: u32, attempt: Attempt) -> bool
        ensures { result ≡ is_some (guest_in self.now.guests (child_of from serial) attempt) }
    {
        let name = ChildName { site: from, serial };
        self.table.unit(Unit::Guest(name, attempt)).is_some()
    }

    /// Children of another site become ready guests, those that aren't there yet; each keeps the prefix that is handed
    /// in. The only error is out of memory, which changes nothing.
    pub fn admit_each(&mut self, from: Site, gifts: Vec<Gift>) -> Result<(), AllocError>
        requires not_older { is_older self.old.known from ≡ false }
        requires some_new { list_all (is_there from self.old.guests) gifts.items ≡ false }
        requires attempts { AllByRecursion (λ g. 1 ≤ g.attempt) gifts.items }
        ensures ok { OnOk result (AdmitsGuests self.old from gifts.items self.new) }
        ensures err { OnErr result (self.new ≡ self.old) }
    {
        self.table.admit_each(from, gifts)
    }

    /// A finished guest settles on the result that its owner accepted, which may be another than its own. True where it
    /// does; a guest that isn't there or isn't finished is left as it is.
    pub fn receive_accept(
        &mut self,
        from: Site,
        serial: u32,
        attempt: Attempt,
        child_result: ChildResult,
    ) -> bool
        ensures { TellsAccept self.old (child_of from serial) attempt child_result result self.new }
    {
        let name = ChildName { site: from, serial };
        let Some(view) = self.table.unit(Unit::Guest(name, attempt)) else {
            return false;
        };
        if !matches!(view.status, Status::Finished(_)) {
            return false;
        }
        self.table.settle(name, attempt, child_result);
        true
    }

    /// An open guest is wanted no more, since its owner refused its result or aborted it: it is dropped. All open units
    /// below become Aborted, and each of them that was out is appended to the list, by serial. True where it is
    /// dropped; a guest that isn't there or isn't open is left as it is. The only error is out of memory, which changes
    /// nothing.
    ///
    /// It costs looks for the guest, and where it is dropped a walk down to what is below it, and the aborts.
    pub fn receive_refuse(
        &mut self,
        from: Site,
        serial: u32,
        attempt: Attempt,
        list: &mut Vec<Out>,
    ) -> Result<bool, AllocError>
        ensures dropped { IfOk result (λ moved.
            DropsIf moved self.old
            (child_of from serial) attempt list.old.items list.new.items self.new) }
        ensures few { OnOk result
            (length list.new.items ≤ length list.old.items + outs_of self.old.own) }
        ensures left { IfOk result (λ moved.
            StaysUnless moved self.old
            (child_of from serial) attempt list.old.items list.new.items self.new) }
        ensures err { OnErr result (self.new ≡ self.old) }
        ensures list { OnErr result (list.new.items ≡ list.old.items) }
    {
        let name = ChildName { site: from, serial };
        if !is_open(&self.table, name, attempt) {
            return Ok(false);
        }
        let reach = Descendants::below(self.alloc, &self.table, &[Unit::Guest(name, attempt)])?;
        list.reserve(reach.outs(&self.table))?;
        // (nothing takes memory from here on: the guest and all below it end together or not at all)
        self.table.drop_guest(name, attempt);
        reach.abort(&mut self.table, list);
        Ok(true)
    }
}
