//! The queue between the threads that act and the one that sends: bounded, many producers, one consumer (crossbeam's
//! array queue).
//!
//! It is bounded, and a full one loses the packet. The protocol has to live with lost packets in any case, so a slow
//! network costs packets, not memory, and never holds up the core. What was lost and matters is put out again later.
//!
//! A pass and a drain are ghost histories: what a contract can say of a queue that others use is what this thread did.
//! `parcel_rule` has the rule that both follow.

ghost use Rattle.std.specs.Prelude.{◌≡◌, [], None, IfErr, IfOk, IfSome, OnErr, OnOk};
ghost use Rattle.run_book.specs.Outbox.{has_taken, FoundEmpty, FoundFull, HasPut};

use crate::parcel::Parcel;
use crate::parcel_rule::{InOrder, Known, Puts, Takes};
use crossbeam_queue::RuledArrayQueue;
use std::alloc::{AllocError, Global};
use std::marker::Model;
use std::sync::Wait;

/// How many parcels fit into an outbox. A full one loses what comes next. A power of two, chosen and not measured.
pub const CAPACITY: usize = 1024;

/// A right to put parcels into one outbox. It knows a beginning of all that was put in, and what it has put in itself.
#[derive(Drop)]
pub struct Pass {
    inner: crossbeam_queue::Pass<Parcel, Known>,
}

impl Model for Pass {
    ghost use Rattle.std.specs.Prelude.{◌≡◌, []};
    ghost use Rattle.run_book.specs.Outbox.{Pass as PassValue, pass_view};

    ghost Value = { PassValue };

    ghost view = { λ p. pass_view p.inner };

    ghost invariant = { λ p. p.inner.me.1 ≡ [] };
}

/// The right to take parcels out of one outbox. It knows all that was taken out, and puts nothing in.
#[derive(Drop)]
pub struct Drain {
    inner: crossbeam_queue::Pass<Parcel, Known>,
}

impl Model for Drain {
    ghost use Rattle.std.specs.Prelude.{◌≡◌, []};
    ghost use Rattle.run_book.specs.Outbox.{Drain as DrainValue, drain_view, PutsNothing};

    ghost Value = { DrainValue };

    ghost view = { λ d. drain_view d.inner };

    ghost invariant = { λ d. (d.inner.id ≡ 0) × (d.inner.me.1 ≡ []) × PutsNothing d.inner };
}

/// A bounded queue of parcels, which leave in the order in which they came. Contracts see it as its name.
#[derive(Drop)]
pub struct Outbox {
    queue: RuledArrayQueue<Parcel, Known, InOrder>,
}

impl Model for Outbox {
    ghost use Rattle.std.specs.Prelude.{◌≡◌};
    ghost use Rattle.atomic_table.specs.Seated.{TableId};
    ghost use Rattle.crossbeam_queue.specs.Passes.{ruled_capacity};
    ghost use Rattle.run_book.specs.Outbox.{name_of};
    ghost use Rattle.run_book.specs.declared.outbox.TheConstants.{CAPACITY};

    ghost Value = { TableId };

    ghost view = { λ o. name_of o.queue };

    ghost invariant = { λ o. ruled_capacity o.queue ≡ CAPACITY };
}

impl Outbox {
    /// An empty outbox and its one drain. The only error is out of memory.
    pub fn new(alloc: Global) -> Result<(Outbox, Drain), AllocError>
        ensures drain { IfOk result (λ made. made.1 ≡ record { outbox = made.0; taken = [] }) }
    {
        let (queue, inner) = RuledArrayQueue::ruled(alloc, CAPACITY)?;
        Ok((Outbox { queue }, Drain { inner }))
    }

    /// A new pass, which has seen nothing. It takes no memory.
    pub fn pass(&self) -> Pass
        ensures { result ≡ record { outbox = self.now; seen = []; own = [] } }
    {
        Pass {
            inner: self.queue.pass(),
        }
    }

    /// Puts a parcel in behind all others. It comes back only if the outbox was full at one moment of the call.
    pub fn put<R: Wait>(&self, rt: &R, pass: &mut Pass, parcel: Parcel) -> Result<(), Parcel>
        requires here { pass.old.outbox ≡ self.now }
        ensures put { OnOk result (HasPut pass.old parcel pass.new) }
        ensures here { pass.new.outbox ≡ pass.old.outbox }
        ensures back { IfErr result (λ back. back ≡ parcel) }
        ensures same { OnErr result (pass.new ≡ pass.old) }
        ensures full { OnErr result (FoundFull pass.old.seen) }
    {
        self.queue.push_as::<Puts, R>(rt, &mut pass.inner, parcel)
    }

    /// Puts a parcel in, as `put` does; the pass comes back in any case.
    /// The threads of `solve` keep their passes, and call `put`.
    pub fn push<R: Wait>(
        &self,
        rt: &R,
        mut pass: Pass,
        parcel: Parcel,
    ) -> Result<Pass, (Pass, Parcel)>
        requires here { pass.outbox ≡ self.now }
        ensures put { IfOk result (λ after. HasPut pass parcel after) }
        ensures back { IfErr result (λ back. back ≡ (pass, parcel)) }
        ensures full { IfErr result (λ _. FoundFull pass.seen) }
    {
        match self.put(rt, &mut pass, parcel) {
            Ok(()) => Ok(pass),
            Err(parcel) => Err((pass, parcel)),
        }
    }

    /// Takes out the first parcel. There is none only if the outbox was empty at one moment of the call.
    pub fn take<R: Wait>(&self, rt: &R, drain: &mut Drain) -> Option<Parcel>
        requires here { drain.old.outbox ≡ self.now }
        ensures taken { IfSome result (λ parcel. drain.new ≡ has_taken drain.old parcel) }
        ensures here { drain.new.outbox ≡ drain.old.outbox }
        ensures none { result ≡ None → drain.new ≡ drain.old }
        ensures empty { result ≡ None → FoundEmpty drain.old.taken }
    {
        self.queue.pop_as::<Takes, R>(rt, &mut drain.inner)
    }

    /// Takes out the first parcel, as `take` does; the drain comes back in any case.
    /// The thread that sends keeps its drain, and calls `take`.
    pub fn pop<R: Wait>(&self, rt: &R, mut drain: Drain) -> (Drain, Option<Parcel>)
        requires here { drain.outbox ≡ self.now }
        ensures taken { IfSome result.1 (λ parcel. result.0 ≡ has_taken drain parcel) }
        ensures none { result.1 ≡ None → result.0 ≡ drain }
        ensures empty { result.1 ≡ None → FoundEmpty drain.taken }
    {
        let parcel = self.take(rt, &mut drain);
        (drain, parcel)
    }
}
