//! What an entry says. Its memory is taken before the core acts, as a blank that says nothing, and is filled in when
//! the core has answered: a step that happened has to be entered, and nothing may fail by then.

ghost use Rattle.std.specs.Prelude.{◌≡◌, IsTrue};

use node_core::{Event, Reply};
use packet_wire::{Body, Packet};
use std::alloc::Global;
use std::marker::Model;
use std::mem::size_of;

/// What happened at a site: an event, with its reply and the packets that were put out.
#[derive(Debug, Drop)]
pub struct Step {
    pub(crate) event: Event,
    pub(crate) reply: Reply,
    pub(crate) packets: Vec<Packet>,
}

impl Model for Step {
    ghost use Rattle.run_book.specs.Entries.{Entry};

    ghost Value = { Entry };

    ghost view = { λ s. record { event = s.event; reply = s.reply; packets = s.packets.items } };
}

impl Step {
    /// An event with what it came to.
    pub(crate) fn of(event: Event, reply: Reply, packets: Vec<Packet>) -> Step
        ensures { result ≡ record { event = event; reply = reply; packets = packets.items } }
    {
        Step {
            event,
            reply,
            packets,
        }
    }

    /// One that says nothing yet, in the place of one to come. It takes no memory.
    pub(crate) fn blank(alloc: Global) -> Step {
        Step::of(Event::Again, Reply::Ignored, Vec::new(alloc))
    }

    /// The event.
    pub fn event(&self) -> &Event
        ensures { result.now ≡ self.now.event }
    {
        &self.event
    }

    /// What it came to.
    pub fn reply(&self) -> &Reply
        ensures { result.now ≡ self.now.reply }
    {
        &self.reply
    }

    /// The packets that were put out, in their order.
    pub fn packets(&self) -> &[Packet]
        ensures { result.now ≡ self.now.packets }
    {
        self.packets.as_slice()
    }

    /// How many bytes of room its list of packets has.
    pub(crate) fn packet_room(&self) -> usize {
        self.packets.capacity().saturating_mul(size_of::<Packet>())
    }

    /// What it came to, by itself.
    pub fn into_reply(self) -> Reply
        ensures { result ≡ self.reply }
    {
        self.reply
    }

    /// Whether it is surely the other step: both are of a kind that sites without work repeat, and equal.
    pub(crate) fn is_same(&self, other: &Step) -> bool
        ensures { IsTrue result → self.now ≡ other.now }
    {
        are_same_events(&self.event, &other.event)
            && are_same_replies(&self.reply, &other.reply)
            && are_same_packets(&self.packets, &other.packets)
    }

    /// Whether the site says again what may be lost.
    pub(crate) fn is_again(&self) -> bool {
        matches!(self.event, Event::Again)
    }

    /// Whether it is a step of a site without work, which such a site repeats.
    pub(crate) fn is_idle(&self) -> bool {
        let asks = match &self.event {
            Event::Ask(_) | Event::Again | Event::Greet => true,
            Event::Take => matches!(self.reply, Reply::Idle),
            Event::Deliver(packet) => is_idle(packet),
            Event::Post(_, _) | Event::Finish(_) | Event::Redo(_) => false,
        };
        asks && self.packets.iter().all(is_idle)
    }
}

/// Whether sites without work repeat such packets.
fn is_idle(packet: &Packet) -> bool {
    matches!(packet.body, Body::Hello | Body::Steal | Body::NoWork)
}

/// Whether both are surely the same event.
fn are_same_events(event: &Event, other: &Event) -> bool
    ensures { IsTrue result → event.now ≡ other.now }
{
    match (event, other) {
        (Event::Take, Event::Take) | (Event::Again, Event::Again) | (Event::Greet, Event::Greet) =>
            true,
        (Event::Ask(node), Event::Ask(other)) => node == other,
        (Event::Deliver(packet), Event::Deliver(other)) => packet.is_same(other),
        // (a wrong no only leaves a step unshared, so events that idle sites don't repeat aren't compared)
        _ => false,
    }
}

/// Whether both are surely the same reply.
fn are_same_replies(reply: &Reply, other: &Reply) -> bool
    ensures { IsTrue result → reply.now ≡ other.now }
{
    // (Taken and Ripe are no replies of idle steps, so steps with them are never compared)
    matches!(
        (reply, other),
        (Reply::Idle, Reply::Idle) | (Reply::Moved, Reply::Moved) | (Reply::Ignored, Reply::Ignored)
    )
}

/// Whether both are surely the same packets, one by one.
fn are_same_packets(packets: &[Packet], other: &[Packet]) -> bool
    ensures { IsTrue result → packets.now ≡ other.now }
{
    match (packets, other) {
        ([], []) => true,
        ([packet, packets @ ..], [same, other @ ..]) => packet.is_same(same)
            && are_same_packets(packets, other),
        _ => false,
    }
}
