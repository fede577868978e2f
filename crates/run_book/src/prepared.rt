//! What may fail for lack of memory and needs no lock is done before the lock is taken and the core acts. Three owners
//! need the event: the core, the book and the caller, to whom it returns, entered or refused. Two need the packets.

ghost use Rattle.std.specs.Prelude.{◌≡◌, ◌≤◌, [], length, vec_capacity, IfErr, IfOk};
ghost use Rattle.run_book.specs.RecordedCores.{prefix_in, room_for};

use crate::step::Step;
use cover_problem::{MOST_ITEMS, Numbers};
use node_core::{Event, Reply};
use packet_wire::{Body, Packet};
use std::alloc::{AllocError, Global};
use std::sync::Arc;

/// An event with all that is to be made before a core acts on it: two copies, and the room for what comes of it.
#[derive(Drop)]
pub struct Prepared {
    pub event: Event,
    pub for_book: Event,
    pub for_caller: Event,
    pub room: AnswerRoom,
    pub ghost book_same: { for_book ≡ event },
    pub ghost caller_same: { for_caller ≡ event },
    pub ghost wide: { room_for event ≤ vec_capacity room.prefix },
}

/// The room for a copy of a reply's prefix, two empty lists of packets, and the place of an entry's step.
#[derive(Drop)]
pub struct AnswerRoom {
    pub prefix: Vec<u16>,
    pub packets: Vec<Packet>,
    pub copies: Vec<Packet>,
    pub step: Arc<Step, Global>,
    pub ghost no_prefix: { prefix.items ≡ [] },
    pub ghost no_packets: { packets.items ≡ [] },
    pub ghost no_copies: { copies.items ≡ [] },
}

impl Prepared {
    /// The event, prepared. It comes back where memory ran out.
    pub fn new(alloc: Global, event: Event) -> Result<Prepared, Event>
        ensures event { IfOk result (λ prepared. prepared.event ≡ event) }
        ensures back { IfErr result (λ back. back ≡ event) }
    {
        // (the core takes the event itself, the book keeps one copy, and the other goes back to the caller, entered or
        // refused)
        let Ok(for_book) = event.copy() else {
            return Err(event);
        };
        let Ok(for_caller) = event.copy() else {
            return Err(event);
        };
        let Ok(room) = AnswerRoom::new(alloc, &event) else {
            return Err(event);
        };
        Ok(Prepared {
            event,
            for_book,
            for_caller,
            room,
        })
    }

    /// The event, by itself.
    pub fn into_event(self) -> Event
        ensures { result ≡ self.event }
    {
        self.event
    }
}

impl AnswerRoom {
    /// The room for what comes of this event. The only error is out of memory.
    fn new(alloc: Global, event: &Event) -> Result<AnswerRoom, AllocError>
        ensures { IfOk result (λ room. room_for event.now ≤ vec_capacity room.prefix) }
    {
        let packets = packets_for(event);
        Ok(AnswerRoom {
            // (taken before the core acts: what it did can't be undone, so nothing may fail behind it)
            prefix: Vec::with_capacity(alloc, numbers_for(event))?,
            packets: Vec::with_capacity(alloc, packets)?,
            copies: Vec::with_capacity(alloc, packets)?,
            step: Arc::new(alloc, Step::blank(alloc))?,
        })
    }
}

/// How many packets an event mostly puts out. A list that grows by itself would have room for four at once, and stays
/// in the book.
fn packets_for(event: &Event) -> usize {
    match event {
        Event::Ask(_) | Event::Greet | Event::Redo(_) => 1,
        Event::Deliver(packet) => usize::from(matches!(
            packet.body,
            Body::Steal | Body::Return { .. }
        )),
        Event::Take | Event::Post(_, _) | Event::Finish(_) | Event::Again => 0,
    }
}

/// The most numbers that the reply to an event may hold: only a Take is told a prefix.
fn numbers_for(event: &Event) -> usize
    ensures { result ≡ room_for event.now }
{
    if let Event::Take = event {
        MOST_ITEMS
    } else {
        0
    }
}

/// An equal reply, whose prefix goes into the room.
pub fn copied_reply(reply: &Reply, room: Vec<u16>) -> Reply
    requires empty { room.items ≡ [] }
    requires fits { length (prefix_in reply.now) ≤ vec_capacity room }
    ensures { result ≡ reply.now }
{
    match reply {
        Reply::Taken(job, prefix) => Reply::Taken(*job, copied(prefix.as_slice(), room)),
        Reply::Ripe(unit) => Reply::Ripe(*unit),
        Reply::Idle => Reply::Idle,
        Reply::Moved => Reply::Moved,
        Reply::Ignored => Reply::Ignored,
    }
}

/// The numbers, in the room.
fn copied(numbers: &[u16], room: Vec<u16>) -> Numbers
    requires empty { room.items ≡ [] }
    requires fits { length numbers.now ≤ vec_capacity room }
    ensures { result ≡ numbers.now }
{
    let mut copy = room;
    for number in numbers {
        copy.push_reserved(*number);
    }
    // (the book keeps it, and the room is for the longest prefix that there may be)
    copy.shrink_to_fit();
    Numbers::from_vec(copy)
}
