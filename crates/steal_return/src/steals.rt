//! Steals: which children a thief is given, and what it is told of them.

ghost use Rattle.std.specs.Prelude.{◌≡◌, ◌<◌, ◌∷◌, [], length, map, slice_get, false, true, IfOk, IfSome, IsSome, MatchOption, OnErr, Some};
ghost use Rattle.std.specs.List.{AllByRecursion};
ghost use Rattle.spawn_frame.specs.Gifts.{serials_of, sibling_gift};
ghost use Rattle.spawn_frame.specs.Picks.{is_ready};
ghost use Rattle.spawn_frame.specs.Tables.{has_status, parent_in, prefix_in};
ghost use Rattle.spawn_frame.specs.Units.{unit_of};
ghost use Rattle.spawn_frame.specs.declared.unit.Unit.{Unit as WorkUnit};
ghost use Rattle.steal_return.specs.Ledger.{ledger_gets};
ghost use Rattle.steal_return.specs.Steals.{gift_at, is_older, GivesChildren, GivesNothing, MayGive};
ghost use Rattle.steal_return.specs.Shares.{chosen, gifts_of, is_spelled, MayGo, MayGoTogether, MayShare, TellsSteal};

use crate::children::first_ready;
use crate::given::Given;
use crate::ledger::Ledger;
use crate::sharing::{MOST_READY, share_with};
use arrayvec::ArrayVec;
use cover_problem::Numbers;
use spawn_frame::{Gift, Sibling, Siblings, Site, Status, Unit};
use std::alloc::AllocError;

impl Ledger {
    /// The own child that a thief may be given: the ready one of least serial. None where there is none, or where a
    /// later incarnation of the thief's node is known. It takes no memory, and costs what the table's `next_ready`
    /// does.
    pub fn ready_child(&self, thief: Site) -> Option<u32>
        ensures { MatchOption result (GivesNothing self.now thief) (MayGive self.now thief) }
    {
        // (that incarnation of the thief is gone: a child that it gets would only have to be redone)
        if self.known.is_older(thief) {
            return None;
        }
        first_ready(&self.table)
    }

    /// The own children that a thief may be given: with the ready one of least serial the first ready ones of its
    /// parent, as many as half of those rounded up, and at most eight. None where none is ready, or where a later
    /// incarnation of the thief's node is known. It takes no memory. It costs what the table's `next_ready` does, and a
    /// look at each later child of that parent until 15 of them are ready.
    pub fn ready_share(&self, thief: Site) -> Option<ArrayVec<u32, MOST_READY>>
        ensures { MatchOption result (GivesNothing self.now thief)
            (λ serials. MayShare self.now thief serials.items) }
    {
        let serial = self.ready_child(thief)?;
        Some(share_with(&self.table, serial))
    }

    /// What a thief is told of children that may be given together; the only error is out of memory.
    pub fn given(&self, serials: &[u32]) -> Result<Given, AllocError>
        requires { MayGoTogether self.now.own serials.now }
        ensures gifts { IfOk result (λ given.
            gifts_of given ≡ map (gift_at self.now.own) serials.now) }
        ensures spelled { IfOk result (λ given. is_spelled given ≡ true) }
    {
        let first = serials[0];
        match self.table.parent(first) {
            // (a GiveMany has two children at least, and the root has no parent)
            Some(parent) if 1 < serials.len() => self.several(parent, serials),
            _ => {
                let gift = self.gift(first)?;
                Ok(Given::One(gift))
            }
        }
    }

    /// What a thief is told of children of this parent.
    fn several(&self, parent: Unit, serials: &[u32]) -> Result<Given, AllocError>
        requires there { IsSome (unit_of self.now.table parent) }
        requires some { 1 < length serials.now }
        requires each { AllByRecursion (MayGo (Some parent) self.now.own) serials.now }
        ensures gifts { IfOk result (λ given.
            gifts_of given ≡ map (gift_at self.now.own) serials.now) }
        ensures spelled { IfOk result (λ given. is_spelled given ≡ true) }
    {
        let mut prefix = Vec::new(self.alloc);
        self.table.prefix_into(parent, &mut prefix)?;
        let mut siblings = Vec::with_capacity(self.alloc, serials.len())?;
        for serial in serials {
            let sibling = self.sibling(*serial);
            siblings.push(sibling)?;
        }
        Ok(Given::Several {
            prefix: Numbers::from_vec(prefix),
            siblings: Siblings::from_vec(siblings),
        })
    }

    /// An own child that has a parent, as one of its children.
    fn sibling(&self, serial: u32) -> Sibling
        requires { IsSome (parent_in (slice_get self.now.own serial)) }
        ensures { (parent : WorkUnit) → parent_in (slice_get self.now.own serial) ≡ Some parent →
            sibling_gift (prefix_in (unit_of self.now.table parent)) result
            ≡ gift_at self.now.own serial }
    {
        let attempt = match self.table.unit(Unit::Own(serial)) {
            Some(view) => view.attempt,
            None => unreachable!(),
        };
        Sibling {
            serial,
            attempt,
            option: self.table.option(serial),
        }
    }

    /// What a thief is told of an own child; the only error is out of memory.
    pub fn gift(&self, serial: u32) -> Result<Gift, AllocError>
        requires { serial < length self.now.own }
        ensures { IfOk result (λ gift. gift ≡ gift_at self.now.own serial) }
    {
        let mut prefix = Vec::new(self.alloc);
        self.table.prefix_into(Unit::Own(serial), &mut prefix)?;
        let attempt = match self.table.unit(Unit::Own(serial)) {
            Some(view) => view.attempt,
            None => unreachable!(),
        };
        Ok(Gift {
            serial,
            attempt,
            prefix: Numbers::from_vec(prefix),
        })
    }

    /// Gives a ready own child to a thief, of whose node no later incarnation is known: the child is out then. It takes
    /// no memory, and costs passes through the child's page.
    pub fn give_child(&mut self, serial: u32, thief: Site)
        requires not_older { is_older self.old.known thief ≡ false }
        requires ready { has_status is_ready (slice_get self.old.own serial) ≡ true }
        ensures after { self.new ≡ ledger_gets self.old (Unit.Own serial) (Status.Out thief) }
        ensures gives { GivesChildren self.old thief (gift_at self.old.own serial ∷ []) self.new }
    {
        self.table.give(serial, thief);
    }

    /// Gives children that may go together to a thief, of whose node no later incarnation is known: they are out then.
    /// It takes no memory, and costs passes through the page of each.
    pub fn give_each(&mut self, serials: &[u32], thief: Site)
        requires not_older { is_older self.old.known thief ≡ false }
        requires together { MayGoTogether self.old.own serials.now }
        ensures { GivesChildren self.old thief (map (gift_at self.old.own) serials.now) self.new }
    {
        for serial in serials {
            self.give_child(*serial, thief);
        }
    }

    /// Gives a thief its share of the ready own children, if one is ready and no later incarnation of the thief's node
    /// is known: those of `ready_share`, which are out then. The only error is out of memory, which changes nothing.
    ///
    /// The cores call its parts, and write the packet between them.
    pub fn give(&mut self, thief: Site) -> Result<Option<Given>, AllocError>
        ensures gives { IfOk result (λ answer. TellsSteal self.old thief answer self.new) }
        ensures chosen { IfOk result (λ answer. IfSome answer (λ given.
            serials_of (gifts_of given) ≡ chosen self.old.own)) }
        ensures spelled { IfOk result (λ answer. IfSome answer (λ given.
            is_spelled given ≡ true)) }
        ensures err { OnErr result (self.new ≡ self.old) }
    {
        let Some(serials) = self.ready_share(thief) else {
            return Ok(None);
        };
        let given = self.given(&serials)?;
        self.give_each(&serials, thief);
        Ok(Some(given))
    }
}
