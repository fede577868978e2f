//! Looks at the units of a table, which change nothing.

ghost use Rattle.std.specs.Prelude.{◌≡◌, ◌<◌, ◌++◌, ◌∷◌, [], length, IfSome, IsSome, MatchOption, None, OnErr, OnOk, Some, drop, find, option_map, slice_get, Bool};
ghost use Rattle.std.specs.List.{position_from};
ghost use Rattle.spawn_frame.specs.Picks.{is_ready};
ghost use Rattle.spawn_frame.specs.Tables.{guest_key, has_status, is_after, is_here, is_out, open_guests, outs_of, parent_in, prefix_in, seen_guest, status_in, AreChildren, IsAscending, IsMadeBefore, IsSeen};
ghost use Rattle.spawn_frame.specs.declared.status.Status.{Status};
ghost use Rattle.spawn_frame.specs.declared.unit.Unit.{Unit as WorkUnit};
ghost use Rattle.spawn_frame.specs.Units.{unit_of};

use crate::guest_view::GuestView;
use crate::prefixes::prefix_into;
use crate::serials::Serials;
use crate::site::{Attempt, ChildName};
use crate::status::Status;
use crate::table::Table;
use crate::unit::Unit;
use crate::unit_view::UnitView;
use crate::units::first_after;
use crate::wanted::Wanted;
use std::alloc::AllocError;

impl Table {
    /// How many own children are out. It costs a look at each page, and passes through the pages that have one that is
    /// out.
    pub fn outs(&self) -> usize
        ensures { result ≡ outs_of self.now.own }
    {
        self.own.count(Wanted::Out)
    }

    /// The ready own child of least serial from this one on. It costs a look at each page behind, and passes through
    /// two pages at most.
    pub fn next_ready(&self, from: u32) -> Option<u32>
        ensures { result ≡ position_from (λ c. is_ready c.status) from (drop from self.now.own) }
    {
        self.own.next(Wanted::Ready, from)
    }

    /// The own child of least serial from this one on that a worker of this site has. It costs what `next_ready` does.
    pub fn next_here(&self, from: u32) -> Option<u32>
        ensures { result ≡ position_from (λ c. is_here c.status) from (drop from self.now.own) }
    {
        self.own.next(Wanted::Here, from)
    }

    /// The own child of least serial from this one on that is out. It costs what `next_ready` does.
    pub fn next_out(&self, from: u32) -> Option<u32>
        ensures { result ≡ position_from (λ c. is_out c.status) from (drop from self.now.own) }
    {
        self.own.next(Wanted::Out, from)
    }

    /// A unit's attempt and status; none where it isn't there. An own child is found at once, a guest by
    /// halving.
    pub fn unit(&self, unit: Unit) -> Option<UnitView<'_>>
        ensures seen { MatchOption result (unit_of self.now unit ≡ None) (λ view.
            IsSeen (unit_of self.now unit) view.attempt view.status.now) }
        ensures tested { IfSome result (λ view.
            (test : Status → Bool) →
            has_status test (unit_of self.now unit) ≡ test view.status.now) }
    {
        let work = self.work(unit)?;
        Some(UnitView {
            attempt: work.attempt,
            status: &work.status,
        })
    }

    /// A unit's status; none where it isn't there. It is found as `unit` finds it.
    pub fn status(&self, unit: Unit) -> Option<&Status>
        ensures status { option_map (λ status. status.now) result
            ≡ status_in (unit_of self.now unit) }
        ensures tested { IfSome result (λ status.
            (test : Status → Bool) → has_status test (unit_of self.now unit) ≡ test status.now) }
    {
        let work = self.work(unit)?;
        Some(&work.status)
    }

    /// Appends a unit's prefix to the list; the only error is out of memory, and the list is then as it was. It costs
    /// a step for each option of own children, a look for the guest above them, and its prefix.
    pub fn prefix_into(&self, unit: Unit, list: &mut Vec<u16>) -> Result<(), AllocError>
        requires { IsSome (unit_of self.now unit) }
        ensures ok { OnOk result (list.new.items ≡ list.old.items
            ++ prefix_in (unit_of self.now unit)) }
        ensures err { OnErr result (list.new.items ≡ list.old.items) }
    {
        prefix_into(&self.own, self.guests.as_slice(), unit, list)
    }

    /// The unit that an own child is a child of; none for the root. It costs nothing.
    pub fn parent(&self, serial: u32) -> Option<Unit>
        requires { serial < length self.now.own }
        ensures parent { result ≡ parent_in (slice_get self.now.own serial) }
        ensures lower { IfSome result (λ parent. IsMadeBefore parent serial) }
        ensures there { IfSome result (λ parent. IsSome (unit_of self.now parent)) }
    {
        self.own.get(serial)?.parent
    }

    /// The option of an own child: its prefix is its parent's with that option behind it. It costs nothing.
    pub fn option(&self, serial: u32) -> u16
        requires { IsSome (parent_in (slice_get self.now.own serial)) }
        ensures { (parent : WorkUnit) → parent_in (slice_get self.now.own serial) ≡ Some parent →
            prefix_in (slice_get self.now.own serial)
            ≡ prefix_in (unit_of self.now parent) ++ result ∷ [] }
    {
        match self.own.get(serial) {
            Some(child) => child.option,
            None => unreachable!(),
        }
    }

    /// The serials of a unit's children, which follow one another. It costs a look for the unit.
    pub fn children(&self, unit: Unit) -> Serials
        ensures { AreChildren unit self.now.own result.first result.end }
    {
        let issued = self.issued();
        match self.work(unit) {
            Some(work) => work.children,
            None => Serials {
                first: issued,
                end: issued,
            },
        }
    }

    /// The least guest, or the least behind the given one, in the order of guests. It is found by halving.
    /// So all guests can be walked through without a list of them, as tests do.
    pub fn next_guest(&self, after: Option<(ChildName, Attempt)>) -> Option<(ChildName, Attempt)>
        ensures next { result ≡ option_map guest_key (find (is_after after) self.now.guests) }
        ensures ascending { IsAscending self.now.guests }
    {
        first_after(self.guests.as_slice(), after)
    }

    /// How many guests there are; they stand in order. It costs nothing.
    pub fn guest_count(&self) -> usize
        ensures count { result ≡ length self.now.guests }
        ensures ascending { IsAscending self.now.guests }
    {
        self.guests.as_slice().len()
    }

    /// The guest at a place in the order of guests, from 0. It costs nothing.
    pub fn guest(&self, place: usize) -> GuestView<'_>
        requires { place < length self.now.guests }
        ensures { slice_get self.now.guests place ≡ Some (seen_guest result) }
    {
        let guest = &self.guests.as_slice()[place];
        GuestView {
            name: guest.name,
            prefix: guest.prefix.as_slice(),
            attempt: guest.work.attempt,
            status: &guest.work.status,
        }
    }

    /// How many guests are open; they stand in order. It costs nothing.
    pub fn open_count(&self) -> usize
        ensures count { result ≡ length (open_guests self.now.guests) }
        ensures ascending { IsAscending self.now.guests }
    {
        self.guests.open_count()
    }

    /// The open guest at a place among the open ones, in the order of guests, from 0. It costs nothing.
    pub fn open_guest(&self, place: usize) -> GuestView<'_>
        requires { place < length (open_guests self.now.guests) }
        ensures { slice_get (open_guests self.now.guests) place ≡ Some (seen_guest result) }
    {
        let guest = self.guests.open_guest(place);
        GuestView {
            name: guest.name,
            prefix: guest.prefix.as_slice(),
            attempt: guest.work.attempt,
            status: &guest.work.status,
        }
    }
}
