//! A site as a state machine: an event goes in, a reply and packets come out, and there is no clock, socket, thread or
//! lock ("sans I/O").
//!
//! So one machine serves all: threads call it under a lock, a simulation steps many of them in one thread
//! (`cover_world`), a book records its steps and an audit reads them. What isn't an event can't change it, and neither
//! time nor chance is one.
//!
//! A refused event is a transaction that rolled back: all memory is taken before the first change, and packets that
//! were put out by then are cut off again.

ghost use Rattle.std.specs.Prelude.{◌≡◌, Option, OnErr};
ghost use Rattle.cover_problem.specs.Problem.{Problem};
ghost use Rattle.node_core.specs.Acting.{refusal_told, ActsTo, Answered, MaySend, PutsOut, PutsOutBoth, StepOf};
ghost use Rattle.node_core.specs.Refusal.{IsFit};
ghost use Rattle.node_core.specs.SiteView.{View};
ghost use Rattle.node_core.specs.declared.act_fault.ActFault.{ActFault};
ghost use Rattle.node_core.specs.declared.event.Event.{Event};

use crate::act_fault::ActFault;
use crate::event::Event;
use crate::outgoing::Outgoing;
use crate::reply::Reply;
use packet_wire::Packet;
use spawn_frame::Site;
use std::alloc::Global;
use std::mem;

/// The core of a site: each event is one step of its machine, or is refused.
pub trait Core {
    ghost problem: { Self → Problem };

    ghost view: { Self → View };

    ghost step: { StepOf };

    ghost refusal: { Problem → View → Event → Option ActFault };

    /// The site.
    fn site(&self) -> Site
        ensures { result ≡ (view self.now).site };

    /// Where its memory comes from.
    fn allocator(&self) -> Global;

    /// Takes an event, and puts its packets out, as `act` and `act_both` do. After a fault the site is as it was, but
    /// the lists may have more packets than before: those calls take them back.
    fn answer(&mut self, event: Event, out: &mut Outgoing) -> Result<Reply, ActFault>
        requires { IsFit (problem self.old) event }
        ensures problem { problem self.new ≡ problem self.old }
        ensures acts { Answered result out.old out.new
            (ActsTo step (problem self.old) (view self.old) event (view self.new)) }
        ensures refusal { refusal_told result ≡ refusal (problem self.old) (view self.old) event }
        ensures err { OnErr result (view self.new ≡ view self.old) }
        ensures list { OnErr result (MaySend out.old out.new) };

    /// Takes an event, and appends its packets to the list.
    ///
    /// It is refused exactly where the machine has no step of it, with the first fault that the event meets; `Memory`
    /// comes only where memory ran out. A fault changes nothing.
    fn act(&mut self, event: Event, out: &mut Vec<Packet>) -> Result<Reply, ActFault>
        requires { IsFit (problem self.old) event }
        ensures problem { problem self.new ≡ problem self.old }
        ensures acts { PutsOut result out.old.items out.new.items
            (ActsTo step (problem self.old) (view self.old) event (view self.new)) }
        ensures refusal { refusal_told result ≡ refusal (problem self.old) (view self.old) event }
        ensures err { OnErr result (view self.new ≡ view self.old) }
        ensures list { OnErr result (out.new.items ≡ out.old.items) }
    {
        let alloc = self.allocator();
        // (an Outgoing owns its lists: the caller's moves in and back, and the empty one in its place takes no memory)
        let mut outgoing = Outgoing::one(alloc, mem::replace(out, Vec::new(alloc)));
        let before = outgoing.lengths();
        let answer = self.answer(event, &mut outgoing);
        if answer.is_err() {
            outgoing.cut(before);
        }
        let (packets, _) = outgoing.into_lists();
        *out = packets;
        answer
    }

    /// Takes an event as `act` does, and appends its packets to both lists.
    fn act_both(
        &mut self,
        event: Event,
        out: &mut Vec<Packet>,
        copies: &mut Vec<Packet>,
    ) -> Result<Reply, ActFault>
        requires { IsFit (problem self.old) event }
        ensures problem { problem self.new ≡ problem self.old }
        ensures acts { PutsOutBoth result (out.old.items, copies.old.items)
            (out.new.items, copies.new.items)
            (ActsTo step (problem self.old) (view self.old) event (view self.new)) }
        ensures refusal { refusal_told result ≡ refusal (problem self.old) (view self.old) event }
        ensures err { OnErr result (view self.new ≡ view self.old) }
        ensures list { OnErr result (out.new.items ≡ out.old.items) }
        ensures copies { OnErr result (copies.new.items ≡ copies.old.items) }
    {
        let alloc = self.allocator();
        // (a recorded step needs its packets twice: for the book and for the outbox)
        let packets = mem::replace(out, Vec::new(alloc));
        let mut outgoing = Outgoing::two(packets, mem::replace(copies, Vec::new(alloc)));
        let before = outgoing.lengths();
        let answer = self.answer(event, &mut outgoing);
        if answer.is_err() {
            outgoing.cut(before);
        }
        let (packets, second) = outgoing.into_lists();
        *out = packets;
        *copies = second;
        answer
    }
}
