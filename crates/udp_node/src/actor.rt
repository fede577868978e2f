//! How a thread acts at its site: an event goes into the core under its lock, and packets go out once the lock is free.

ghost use Rattle.std.specs.Prelude.{◌≡◌, true, IfErr, IfOk};
ghost use Rattle.node_core.specs.Formed.{AllFormed};
ghost use Rattle.node_core.specs.Refusal.{IsFit};
ghost use Rattle.packet_wire.specs.WellFormed.{is_well_formed};
ghost use Rattle.run_book.specs.RecordedCores.{IsLawful};

use crate::seat_receipts::{Refused, SeatReceipts};
use crate::shared::Shared;
use node_core::{Core, Event, Reply};
use packet_wire::{Body, Packet, write_packet};
use run_book::{CellName, Parcel, Pass, Run, Step};
use site_limits::{Follower, Gate};
use std::alloc::{AllocError, Global};
use std::sync::Wait;

/// A thread that acts at a site: its seat with the receipts, and its way into the outbox.
#[derive(Drop)]
pub struct Actor<'a, J: Run, C: Core + Drop, N: CellName, H: Gate + Follower> {
    /// What the threads of the site share.
    pub shared: &'a Shared<'a, J, C, N, H>,
    /// Its seat and receipts.
    receipts: SeatReceipts<N>,
    /// Its right to put parcels into the outbox.
    pass: Pass,
    /// How many parcels didn't get into the outbox; the greatest number stays.
    pub losses: u64,
    ghost here: { pass.outbox ≡ shared.now.outbox.now },
}

impl<'a, J: Run, C: Core + Drop, N: CellName, H: Gate + Follower> Actor<'a, J, C, N, H> {
    /// Returns an actor that hasn't acted so far. The only error is that no seats are left.
    pub fn new<R: Wait>(
        rt: &R,
        shared: &'a Shared<'a, J, C, N, H>,
    ) -> Result<Actor<'a, J, C, N, H>, AllocError> {
        Ok(Actor {
            shared,
            receipts: SeatReceipts::new(rt, shared.context.alloc, shared.cell)?,
            pass: shared.outbox.pass(),
            losses: 0,
        })
    }

    /// Hands an event to the site's cell, and once it is entered puts its packets into the outbox. The lock of the core
    /// is free by then, so that no thread waits for it while packets are written. Returns what was entered.
    ///
    /// # Errors
    ///
    /// An event that is refused comes back with the reason.
    pub fn act<R: Wait>(&mut self, rt: &R, event: Event) -> Result<Step, (Event, Refused)>
        requires { IsFit J.run.problem event }
        ensures lawful { IfOk result (λ entry. IsLawful J.run.problem entry) }
        ensures back { IfErr result (λ back. back.0 ≡ event) }
    {
        if self.shared.context.books.are_full() {
            return Err((event, Refused::BooksFull));
        }
        let stirs = may_stir(&event);
        let is_again = matches!(event, Event::Again);
        let step = self.receipts.act(rt, self.shared.cell, event)?;
        self.count();
        self.signal(&step, stirs);
        if !is_again && step.packets().iter().any(needs_answer) {
            self.shared.signals.say();
        }
        self.put_all(rt, step.packets());
        Ok(step)
    }

    /// Its seat and receipts.
    pub fn into_receipts(self) -> SeatReceipts<N> {
        self.receipts
    }

    /// Counts the bytes of the entry that was made last, and tells who follows the run how full the books are.
    fn count(&self) {
        let (context, plan) = (self.shared.context, self.shared.plan);
        let books = context.books;
        books.add(self.receipts.last_bytes());
        context
            .hooks
            .recorded(self.receipts.entries(), plan.entries);
        context.hooks.grown(books.taken(), books.most());
    }

    /// Signals to the other threads of the site what came of an event: that there may be something to do, or that work
    /// is short.
    fn signal(&self, step: &Step, stirs: bool) {
        let signals = self.shared.signals;
        let reply = step.reply();
        // (where nothing moved, a look at the core would only be one entry more in the book)
        if stirs && matches!(reply, Reply::Moved) {
            signals.stir();
        }
        if asks_in_vain(reply, step.packets()) {
            let jobs = u64::from(self.shared.plan.workers) * 2;
            signals.hunger().starve(jobs);
        }
    }

    /// Puts the packets into the outbox, in their order.
    #[tactic(auto, using(node_core::proofs::Each::each_at))]
    fn put_all<R: Wait>(&mut self, rt: &R, packets: &[Packet])
        requires { AllFormed packets.now }
    {
        for packet in packets {
            self.put(rt, packet);
        }
    }

    /// Puts a packet into the outbox. It is lost, and counted, if memory runs out or the outbox is full.
    fn put<R: Wait>(&mut self, rt: &R, packet: &Packet)
        requires { is_well_formed packet.now ≡ true }
    {
        let is_put = match parcel_of(self.shared.context.alloc, packet) {
            Ok(parcel) => self.shared.outbox.put(rt, &mut self.pass, parcel).is_ok(),
            Err(AllocError) => false,
        };
        // (also if the outbox was full: then there is most to send)
        self.shared.signals.rouse();
        // (to the protocol it is a packet that was lost on its way, so the event isn't undone)
        if !is_put {
            self.losses = self.losses.saturating_add(1);
        }
    }
}

/// Whether an idle worker may have something to do after the event. One that asks others for work, or reports that they
/// ask, leaves none.
fn may_stir(event: &Event) -> bool {
    match event {
        Event::Take | Event::Ask(_) | Event::Again | Event::Greet => false,
        Event::Deliver(packet) => !matches!(packet.body, Body::Steal | Body::NoWork),
        Event::Post(_, _) | Event::Finish(_) | Event::Redo(_) => true,
    }
}

/// Whether a packet is said again until something comes of it.
fn needs_answer(packet: &Packet) -> bool {
    matches!(
        packet.body,
        Body::Give { .. } | Body::GiveMany { .. } | Body::Return { .. }
    )
}

/// Whether someone asked for work and got none, by an event's reply and packets: a worker of the site, or another site.
pub fn asks_in_vain(reply: &Reply, packets: &[Packet]) -> bool {
    let is_refusal = |packet: &Packet| matches!(packet.body, Body::NoWork);
    matches!(reply, Reply::Idle) || packets.iter().any(is_refusal)
}

/// The packet's spelling, for its receiver. The only error is out of memory.
fn parcel_of(alloc: Global, packet: &Packet) -> Result<Parcel, AllocError>
    requires { is_well_formed packet.now ≡ true }
{
    let mut bytes = Vec::new(alloc);
    write_packet(alloc, packet, &mut bytes)?;
    Ok(Parcel {
        to: packet.to.node,
        bytes,
    })
}
