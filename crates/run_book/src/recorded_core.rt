//! A core with its log: an append-only record of events, as in event sourcing, made in the same step as the change that
//! it records.
//!
//! The order is: is the book full, is there room for an entry, then the core acts, then the entry is put in. So there
//! is neither a change without an entry nor an entry without a change, whatever memory is refused. The log isn't for
//! recovery: a site that restarts begins with an empty one. It is the evidence that an audit merges.

ghost use Rattle.std.specs.Prelude.{◌≡◌, ℕ, ◌+◌, ◌<◌, ◌≤◌, List, [], ◌∷◌, ◌++◌, length, sum, vec_len, None, Some, IfErr, IfNone, IfOk, IfSome, OnErr, OnOk};
ghost use Rattle.node_core.specs.Acting.{named_fault, Acts};
ghost use Rattle.node_core.specs.Refusal.{IsFit};
ghost use Rattle.node_core.specs.SiteView.{View};
ghost use Rattle.node_core.specs.declared.reply.Reply.{Reply};
ghost use Rattle.packet_wire.specs.declared.packet.Packet.{Packet};
ghost use Rattle.run_book.specs.Closing.{IsMissing};
ghost use Rattle.run_book.specs.RecordedCores.{fault_told, prefix_in, room_for, IsLawful, IsTold, Refuses};
ghost use Rattle.run_book.specs.Places.{AllStand, AreBelow, places};
ghost use Rattle.run_book.specs.Sites.{opening_of, IsRun, MayBeginIn, StepsAt};

use crate::book::Book;
use crate::cell_parts::CellParts;
use crate::entry::Entry;
use crate::fault::{BookFault, Missing};
use crate::names::{CellName, Run};
use crate::prepared::{AnswerRoom, Prepared, copied_reply};
use crate::register::{Receipt, ReceiptToken, Register};
use crate::repeated::Repeated;
use crate::seats::{Seat, Seats};
use crate::step::Step;
use node_core::{ActFault, Core, Event, Reply};
use packet_wire::Packet;
use spawn_frame::Site;
use std::alloc::AllocError;
use std::marker::{Model, PhantomData};
use std::sync::Arc;

/// A core with its history.
#[derive(Drop)]
pub struct RecordedCore<J: Run, C: Core + Drop, N: CellName> {
    core: C,
    entries: Vec<Entry>,
    repeated: Repeated,
    limit: u64,
    register: Register<N>,
    seats: Seats<N>,
    run: PhantomData<J>,
}

impl<J: Run, C: Core + Drop, N: CellName> Model for RecordedCore<J, C, N> {
    ghost use Rattle.run_book.specs.RecordedCores.{RecordedCore as RecordedCoreValue, IsRecordedCore};

    ghost Value = { RecordedCoreValue };

    ghost view = { λ d. record {
      entries = d.entries.items;
      limit = d.limit;
      given = d.seats.given;
    } };

    ghost invariant = { λ d. IsRecordedCore J.run N.site N.limit C.step (C.problem d.core) (C.view d.core)
        (record { entries = d.entries.items; limit = d.limit; given = d.seats.given }) d.register
        d.seats.total };
}

/// What a core did at an event.
#[derive(Drop)]
struct Done {
    reply: Reply,
    packets: Vec<Packet>,
    copies: Vec<Packet>,
    ghost same: { copies.items ≡ packets.items },
}

/// What a core did at an event, for the book and for the caller.
#[derive(Drop)]
struct Acted {
    entry: Entry,
    for_caller: Step,
    ghost same: { for_caller ≡ entry },
}

/// All that was handed in to `close`, and what is missing.
#[derive(Drop)]
pub struct Unclosed<J: Run, C: Core + Drop, N: CellName> {
    pub recorded_core: RecordedCore<J, C, N>,
    pub seats: Vec<Seat<N>>,
    pub receipts: Vec<Receipt<N>>,
    pub cause: Missing,
}

impl<J: Run, C: Core + Drop, N: CellName> RecordedCore<J, C, N> {
    /// A core that begins, with its record, for so many entries at most.
    pub fn new(cell_parts: CellParts, core: C, limit: u64) -> RecordedCore<J, C, N>
        requires here { cell_parts ≡ record { table = N.table; name = N.name } }
        requires parts { N.parts ≡ 18446744073709551615 }
        requires run { IsRun J.run }
        requires begins { MayBeginIn J.run N.site N.limit }
        requires steps { StepsAt N.site.node C.step }
        requires problem { C.problem core ≡ J.run.problem }
        requires view { C.view core ≡ opening_of J.run N.site N.limit }
        ensures { result ≡ record { entries = []; limit = limit; given = 0 } }
    {
        let alloc = core.allocator();
        let (register, seats) = cell_parts.open();
        RecordedCore {
            core,
            entries: Vec::new(alloc),
            repeated: Repeated::new(alloc),
            limit,
            register,
            seats,
            run: PhantomData,
        }
    }

    /// A seat that has acted not yet, where one is left.
    pub fn seat(&mut self) -> Option<Seat<N>>
        ensures fresh { IfSome result (λ seat. seat ≡ 0) }
        ensures entries { self.new.entries ≡ self.old.entries }
    {
        self.seats.seat()
    }

    /// Why an event can't be entered for which memory ran out.
    pub fn fault(&self) -> BookFault
        ensures told { IsTold result (length self.now.entries) self.now.limit }
        ensures none { fault_told result ≡ None }
    {
        let many = self.entries.len() as u64;
        if many >= self.limit {
            BookFault::BookFull(many)
        } else {
            BookFault::Memory
        }
    }

    /// Lets the core act, and enters what it did.
    pub fn act(
        &mut self,
        seat: &mut Seat<N>,
        prepared: Prepared,
    ) -> Result<Receipt<N>, (Event, BookFault)>
        requires fit { IsFit J.run.problem prepared.event }
        ensures entered { IfOk result (λ receipt.
            self.new.entries ≡ self.old.entries ++ receipt.entry ∷ []) }
        ensures place { IfOk result (λ receipt. receipt.place ≡ length self.old.entries) }
        ensures event { IfOk result (λ receipt. receipt.entry.event ≡ prepared.event) }
        ensures lawful { IfOk result (λ receipt. IsLawful J.run.problem receipt.entry) }
        ensures seat { OnOk result (seat.new ≡ seat.old + 1) }
        ensures room { OnOk result (length self.old.entries < self.old.limit) }
        ensures refused { OnErr result ((self.new ≡ self.old) × (seat.new ≡ seat.old)) }
        ensures back { IfErr result (λ back. back.0 ≡ prepared.event) }
        ensures fault { IfErr result (λ back.
            IsTold back.1 (length self.old.entries) self.old.limit) }
        ensures refusal { IfErr result (λ back. IfSome (fault_told back.1)
            (Refuses J.run N.site N.limit C.refusal seat.old prepared.event)) }
    {
        let place = self.entries.len() as u64;
        // (before any memory is taken: that the book is full is to be the answer where memory would be refused, too)
        if place >= self.limit {
            return Err((prepared.into_event(), BookFault::BookFull(place)));
        }
        // (room before the core acts, or what it did would have no entry)
        if self.entries.reserve(1).is_err() {
            return Err((prepared.into_event(), BookFault::Memory));
        }
        // (for its clause: no seat counts more than there are entries, as a refusal promises)
        self.seats.bound(seat);
        let Acted { entry, for_caller } = act_on(&mut self.core, prepared)?;
        let entry = self.repeated.shared(entry);
        let bytes = self.repeated.last_bytes(&entry);
        let receipt = self.register.enter(place, &entry, for_caller, bytes);
        self.entries.push_reserved(entry);
        self.seats.count(seat);
        Ok(receipt)
    }

    /// The book, with all seats and receipts back.
    /// It is what `SiteCell::close` does, behind its lock.
    pub fn close(
        self,
        site: Site,
        seats: Vec<Seat<N>>,
        receipts: Vec<Receipt<N>>,
    ) -> Result<Book<J>, Unclosed<J, C, N>>
        requires { site ≡ N.site }
        ensures book { IfOk result (λ book. book ≡ record { site = site; entries = self.entries }) }
        ensures stand { IfOk result (λ _. AllStand self.entries receipts.items) }
        ensures each { IfOk result (λ _. AreBelow (length self.entries) (places receipts.items)) }
        ensures counted { IfOk result (λ _. sum seats.items ≡ length self.entries) }
        ensures cause { IfErr result (λ back.
            IsMissing back.cause seats.items (vec_len receipts) self.given) }
        ensures recorded_core { IfErr result (λ back. back.recorded_core ≡ self) }
        ensures back { IfErr result (λ back.
            (back.seats.items ≡ seats.items) × (back.receipts.items ≡ receipts.items)) }
    {
        // (while all is still in one piece, so that it can go back as it came)
        if let Some(cause) = missing(self.seats.given(), seats.as_slice(), receipts.len()) {
            return Err(Unclosed {
                recorded_core: self,
                seats,
                receipts,
                cause,
            });
        }
        let RecordedCore {
            core: _,
            entries,
            repeated: _,
            limit: _,
            register,
            seats: all,
            run: _,
        } = self;
        all.close(seats);
        let mut register = register.take_back(receipts);
        // (for its clause: no two receipts are at one place, and there are as many as entries, so none is missing)
        register.look();
        Ok(Book::new(site, entries))
    }

    /// The book, with all seats back, and the tokens of all receipts.
    pub fn settle(
        self,
        site: Site,
        seats: Vec<Seat<N>>,
        tokens: Vec<ReceiptToken<N>>,
    ) -> Result<Book<J>, Missing>
        requires { site ≡ N.site }
        ensures book { IfOk result (λ book. book ≡ record { site = site; entries = self.entries }) }
        ensures stand { IfOk result (λ _. AllStand self.entries tokens.items) }
        ensures each { IfOk result (λ _. AreBelow (length self.entries) (places tokens.items)) }
        ensures counted { IfOk result (λ _. sum seats.items ≡ length self.entries) }
        ensures cause { IfErr result (λ cause.
            IsMissing cause seats.items (vec_len tokens) self.given) }
    {
        if let Some(cause) = missing(self.seats.given(), seats.as_slice(), tokens.len()) {
            return Err(cause);
        }
        let RecordedCore {
            core: _,
            entries,
            repeated: _,
            limit: _,
            register,
            seats: all,
            run: _,
        } = self;
        all.close(seats);
        let mut register = register.take_tokens(tokens);
        register.look();
        Ok(Book::new(site, entries))
    }
}

/// Lets a core act on what is prepared. Where it refuses, the event comes back with the fault.
fn act_on<C: Core>(core: &mut C, prepared: Prepared) -> Result<Acted, (Event, BookFault)>
    requires fit { IsFit (C.problem core.old) prepared.event }
    requires fits { (reply : Reply) (out : List Packet) (new : View) →
        Acts C.step (C.problem core.old) (C.view core.old) prepared.event reply out new →
        length (prefix_in reply) ≤ room_for prepared.event }
    ensures problem { C.problem core.new ≡ C.problem core.old }
    ensures event { IfOk result (λ acted. acted.entry.event ≡ prepared.event) }
    ensures acts { IfOk result (λ acted.
        Acts C.step (C.problem core.old) (C.view core.old) prepared.event acted.entry.reply
        acted.entry.packets (C.view core.new)) }
    ensures same { OnErr result (C.view core.new ≡ C.view core.old) }
    ensures back { IfErr result (λ back. back.0 ≡ prepared.event) }
    ensures fault { IfErr result (λ back. (many limit : ℕ) → many < limit → IsTold back.1 many limit) }
    ensures refusal { IfErr result (λ back. IfSome (fault_told back.1) (λ fault.
        C.refusal (C.problem core.old) (C.view core.old) prepared.event ≡ Some fault)) }
{
    let Prepared {
        event,
        for_book,
        for_caller,
        room,
    } = prepared;
    let AnswerRoom {
        prefix,
        packets,
        copies,
        mut step,
    } = room;
    // (nobody else has it yet)
    let Some(written) = Arc::get_mut(&mut step) else {
        return Err((event, BookFault::Memory));
    };
    let Done {
        reply,
        packets,
        copies,
    } = match run(core, event, packets, copies) {
        Ok(done) => done,
        // (the core has taken the event, so a copy of it goes back)
        Err(fault) => return Err((for_caller, of_core(fault))),
    };
    *written = Step::of(for_book, copied_reply(&reply, prefix), copies);
    Ok(Acted {
        entry: Entry::new(step),
        for_caller: Step::of(for_caller, reply, packets),
    })
}

/// Lets a core act, and put its packets into these lists.
fn run<C: Core>(
    core: &mut C,
    event: Event,
    mut packets: Vec<Packet>,
    mut copies: Vec<Packet>,
) -> Result<Done, ActFault>
    requires fit { IsFit (C.problem core.old) event }
    requires packets { packets.items ≡ [] }
    requires copies { copies.items ≡ [] }
    ensures problem { C.problem core.new ≡ C.problem core.old }
    ensures acts { IfOk result (λ done.
        Acts C.step (C.problem core.old) (C.view core.old) event done.reply done.packets.items
        (C.view core.new)) }
    ensures refusal { IfErr result (λ fault.
        named_fault fault ≡ C.refusal (C.problem core.old) (C.view core.old) event) }
    ensures err { OnErr result (C.view core.new ≡ C.view core.old) }
{
    let reply = core.act_both(event, &mut packets, &mut copies)?;
    Ok(Done {
        reply,
        packets,
        copies,
    })
}

/// A core's fault as one of a book: that memory ran out is the same here.
fn of_core(fault: ActFault) -> BookFault
    ensures told { (many limit : ℕ) → many < limit → IsTold result many limit }
    ensures fault { fault_told result ≡ named_fault fault }
{
    match fault {
        ActFault::Memory => BookFault::Memory,
        _ => BookFault::Core(fault),
    }
}

/// What is missing, seats before receipts.
fn missing<N: CellName>(given: u64, seats: &[Seat<N>], receipts: usize) -> Option<Missing>
    ensures missing { IfSome result (λ cause. IsMissing cause seats.now receipts given) }
    ensures seats { IfNone result (given ≤ length seats.now) }
    ensures receipts { IfNone result (sum seats.now ≤ receipts) }
{
    if (seats.len() as u64) < given {
        return Some(Missing::SeatsMissing(given));
    }
    if (receipts as u128) < counted(seats) {
        return Some(Missing::ReceiptsMissing);
    }
    None
}

/// How many receipts the seats count together.
fn counted<N: CellName>(seats: &[Seat<N>]) -> u128
    ensures { result ≡ sum seats.now }
{
    // (fewer than 2^64 counts, each below 2^64: their sum fits into 128 bits)
    let mut all = 0u128;
    for seat in seats {
        all += u128::from(seat.count());
    }
    all
}
