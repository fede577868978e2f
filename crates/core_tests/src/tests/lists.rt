//! The lists that a core puts its packets into, and the marks by which it is told from outside in which event memory is
//! asked for.

ghost use Rattle.std.specs.Prelude.{◌≡◌, ◌<◌};
ghost use Rattle.node_core.specs.Refusal.{IsFit};

use super::said::{Said, are_sent};
use growth_marks::{begin, end};
use node_core::{ActFault, Core, Event, Reply};
use packet_wire::{Body, Packet};
use spawn_frame::Site;
use std::alloc::Global;
use std::process::Abort;

/// A site of no run.
const NOWHERE: Site = Site {
    node: 9,
    incarnation: 9,
};

/// One list, or two that get the same. Each is full before an event, with a packet that is to stay in front.
#[derive(Drop)]
pub struct Lists {
    out: Vec<Packet>,
    copies: Vec<Packet>,
    both: bool,
    /// Whether events are marked.
    marked: bool,
}

/// The packet in front.
fn front() -> Packet {
    Packet {
        from: NOWHERE,
        to: NOWHERE,
        body: Body::Over,
    }
}

/// A list that is full with the packet in front.
fn full<R: Abort>(rt: &R, alloc: Global) -> Vec<Packet> {
    let mut list = Vec::with_capacity(alloc, 1).expect(rt, "memory");
    list.push(front()).expect(rt, "memory");
    list
}

/// Whether a list has the packet in front, and these behind it.
fn has<R: Abort>(
    rt: &R,
    alloc: Global,
    from: Site,
    list: &[Packet],
    sent: &[(Site, Said)],
) -> bool {
    match list.split_first() {
        Some((first, rest)) => *first == front() && are_sent(rt, alloc, from, rest, sent),
        None => false,
    }
}

impl Lists {
    /// The lists before an event, whose growths nobody counts.
    pub fn new<R: Abort>(rt: &R, alloc: Global, both: bool) -> Lists {
        Lists {
            out: full(rt, alloc),
            copies: full(rt, alloc),
            both,
            marked: false,
        }
    }

    /// The same before an event that is marked.
    pub fn marked<R: Abort>(rt: &R, alloc: Global, both: bool) -> Lists {
        let mut lists = Lists::new(rt, alloc, both);
        lists.marked = true;
        lists
    }

    /// Whether the site has put these packets out, in this order, and nothing else.
    pub fn have<R: Abort>(&self, rt: &R, alloc: Global, from: Site, sent: &[(Site, Said)]) -> bool {
        let copied: &[(Site, Said)] = if self.both { sent } else { &[] };
        has(rt, alloc, from, &self.out, sent) && has(rt, alloc, from, &self.copies, copied)
    }
}

/// The number of what a packet says.
fn body_number(body: &Body) -> usize
    ensures { result < 20 }
{
    match body {
        Body::Hello => 7,
        Body::Members(_) => 8,
        Body::Steal => 9,
        Body::Give { .. } => 10,
        Body::NoWork => 11,
        Body::Return { .. } => 12,
        Body::Accept { .. } => 13,
        Body::Refuse { .. } => 14,
        Body::Abort { .. } => 15,
        Body::Over => 16,
        Body::GiveMany { .. } => 19,
    }
}

/// The number of an event, or of what its packet says.
fn event_number(event: &Event) -> usize
    ensures { result < 20 }
{
    match event {
        Event::Take => 0,
        Event::Post(..) => 1,
        Event::Finish(_) => 2,
        Event::Ask(_) => 3,
        Event::Redo(_) => 4,
        Event::Again => 5,
        Event::Greet => 6,
        Event::Deliver(packet) => body_number(&packet.body),
    }
}

/// The number of a call: what happens, where, and whether it puts packets into two lists.
fn call_number(event: &Event, site: Site, both: bool) -> usize
    ensures { result < 128 }
{
    let place = if site.node == 0 { 2 } else { 0 };
    let lists = if both { 1 } else { 0 };
    event_number(event) * 4 + place + lists
}

/// Hands an event to a core, whose packets go into the lists.
pub fn act_into<C: Core, R: Abort>(
    rt: &R,
    core: &mut C,
    event: Event,
    lists: &mut Lists,
) -> Result<Reply, ActFault>
    requires { IsFit (C.problem core.old) event }
    ensures { C.problem core.new ≡ C.problem core.old }
{
    let alloc = core.allocator();
    if lists.marked {
        let number = call_number(&event, core.site(), lists.both);
        begin(alloc, number).expect(rt, "memory");
    }
    let answer = if lists.both {
        core.act_both(event, &mut lists.out, &mut lists.copies)
    } else {
        core.act(event, &mut lists.out)
    };
    if lists.marked {
        let refused = answer == Err(ActFault::Memory);
        end(alloc, refused).expect(rt, "memory");
    }
    answer
}
