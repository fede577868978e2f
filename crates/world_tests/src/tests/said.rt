//! What worlds are seen to do, for scripts of events.

use cover_problem::Answer;
use cover_world::WorldFault;
use node_core::Reply;
use packet_wire::{Body, Packet};
use spawn_frame::{Attempt, Cause, ChildResult, Sibling, Site, Status, Unit};

/// A result: a cover, or none.
pub type Came = Option<&'static [u16]>;

/// What a packet says.
#[derive(Clone, Copy)]
pub enum Said {
    Hello,
    Members(&'static [u32]),
    Steal,
    Give(u32, Attempt, &'static [u16]),
    GiveMany(&'static [u16], &'static [Sibling]),
    Return(u32, Attempt, Came),
    Accept(u32, Attempt, Came),
    Refuse(u32, Attempt, Cause),
    Abort(u32, Attempt),
    Over,
}

/// What an event comes to.
#[derive(Clone, Copy)]
pub enum Comes {
    /// A unit is taken up with this prefix.
    Taken(&'static [u16]),
    Ripe(Unit),
    Moved,
    Ignored,
    Fault(WorldFault),
}

/// How far a unit is.
#[derive(Clone, Copy)]
pub enum Held {
    Ready,
    Out(Site),
    Done(Came),
    Aborted,
    Finished(Came),
    Settled(Came),
    Dropped,
}

/// Whether this is published.
pub fn is_published(answer: Option<&Answer>, expected: Option<Came>) -> bool {
    match (answer, expected) {
        (Some(Answer::Cover(options)), Some(Some(cover))) => options.as_slice() == cover,
        (Some(Answer::NoCover), Some(None)) => true,
        (None, None) => true,
        _ => false,
    }
}

/// Whether it is this result.
fn is_result(child_result: &ChildResult, came: Came) -> bool {
    match (child_result, came) {
        (ChildResult::Cover(options), Some(expected)) => options.as_slice() == expected,
        (ChildResult::Empty, None) => true,
        _ => false,
    }
}

/// Whether the packet goes from one site to the other and says so.
pub fn is_packet(packet: &Packet, from: Site, to: Site, said: Said) -> bool {
    packet.from == from && packet.to == to && says(&packet.body, said)
}

/// Whether a body without a child says so.
fn says(body: &Body, said: Said) -> bool {
    match (body, said) {
        (Body::Hello, Said::Hello) => true,
        (Body::Steal, Said::Steal) => true,
        (Body::Over, Said::Over) => true,
        (Body::GiveMany { prefix, siblings }, Said::GiveMany(parent, expected)) => {
            prefix.as_slice() == parent && siblings.as_slice() == expected
        }
        (Body::Members(incarnations), Said::Members(expected)) => {
            incarnations.as_slice() == expected
        }
        _ => says_of_child(body, said),
    }
}

/// The same of a body that names a child.
fn says_of_child(body: &Body, said: Said) -> bool {
    match (body, said) {
        (
            Body::Give {
                serial,
                attempt,
                prefix,
            },
            Said::Give(child, at, expected),
        ) => *serial == child && *attempt == at && prefix.as_slice() == expected,
        (
            Body::Refuse {
                serial,
                attempt,
                cause,
            },
            Said::Refuse(child, at, expected),
        ) => *serial == child && *attempt == at && *cause == expected,
        (Body::Abort { serial, attempt }, Said::Abort(child, at)) => {
            *serial == child && *attempt == at
        }
        _ => says_result(body, said),
    }
}

/// The same of a body that carries a result.
fn says_result(body: &Body, said: Said) -> bool {
    match (body, said) {
        (
            Body::Return {
                serial,
                attempt,
                result,
            },
            Said::Return(child, at, came),
        ) => *serial == child && *attempt == at && is_result(result, came),
        (
            Body::Accept {
                serial,
                attempt,
                result,
            },
            Said::Accept(child, at, came),
        ) => *serial == child && *attempt == at && is_result(result, came),
        _ => false,
    }
}

/// Whether an event came to this.
pub fn has_come(answer: &Result<Reply, WorldFault>, comes: Comes) -> bool {
    match (answer, comes) {
        (Err(fault), Comes::Fault(expected)) => *fault == expected,
        (Ok(Reply::Taken(_, prefix)), Comes::Taken(expected)) => prefix.as_slice() == expected,
        (Ok(Reply::Ripe(unit)), Comes::Ripe(expected)) => *unit == expected,
        (Ok(reply), Comes::Moved) => *reply == Reply::Moved,
        (Ok(reply), Comes::Ignored) => *reply == Reply::Ignored,
        _ => false,
    }
}

/// Whether a unit is so far.
pub fn is_held(status: &Status, held: Held) -> bool {
    match (status, held) {
        (Status::Ready, Held::Ready) => true,
        (Status::Aborted, Held::Aborted) => true,
        (Status::Dropped, Held::Dropped) => true,
        (Status::Out(thief), Held::Out(expected)) => *thief == expected,
        (Status::Done(result), Held::Done(came)) => is_result(result, came),
        (Status::Finished(result), Held::Finished(came)) => is_result(result, came),
        (Status::Settled(result), Held::Settled(came)) => is_result(result, came),
        _ => false,
    }
}
