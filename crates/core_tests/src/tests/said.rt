//! What cores are told and answer, for scripts of events.

use cover_problem::Numbers;
use node_core::{ActFault, Reply};
use packet_wire::{Body, Incarnations, Packet};
use spawn_frame::{Attempt, Cause, ChildResult, Sibling, Siblings, Site, Unit};
use std::alloc::{AllocError, Global};
use std::process::Abort;

/// Seven items and six options, with one cover: options 3, 4 and 0.
pub const LETTERS: &str = "a b c d e f g\nc e\na d g\nb c f\na d f\nb g\nd e g\n";

/// One item and four options that name it alone.
pub const FOUR_WAYS: &str = "a\na\na\na\na\n";

/// What a packet says.
#[derive(Clone, Copy)]
pub enum Said {
    Hello,
    Members(&'static [u32]),
    Steal,
    Give(u32, Attempt, &'static [u16]),
    /// The parent's prefix, and of each child the serial, the attempt and the option.
    GiveMany(&'static [u16], &'static [(u32, Attempt, u16)]),
    NoWork,
    /// A result is a cover, or none.
    Return(u32, Attempt, Option<&'static [u16]>),
    Accept(u32, Attempt, Option<&'static [u16]>),
    Refuse(u32, Attempt, Cause),
    Abort(u32, Attempt),
    Over,
}

/// What it comes to.
#[derive(Clone, Copy)]
pub enum Comes {
    /// A unit is taken up with this prefix.
    Taken(&'static [u16]),
    Ripe(Unit),
    Idle,
    Moved,
    Ignored,
    Fault(ActFault),
}

/// A list of numbers.
pub fn numbers(alloc: Global, list: &[u16]) -> Result<Numbers, AllocError> {
    Ok(Numbers::from_vec(Vec::from_slice(alloc, list)?))
}

/// A result.
pub fn result_of(alloc: Global, cover: Option<&[u16]>) -> Result<ChildResult, AllocError> {
    match cover {
        Some(options) => Ok(ChildResult::Cover(numbers(alloc, options)?)),
        None => Ok(ChildResult::Empty),
    }
}

/// The body that says so.
pub fn body_of(alloc: Global, said: Said) -> Result<Body, AllocError> {
    match said {
        Said::Hello => Ok(Body::Hello),
        Said::Members(incarnations) => {
            let incarnations = Vec::from_slice(alloc, incarnations)?;
            Ok(Body::Members(Incarnations::from_vec(incarnations)))
        }
        Said::Steal => Ok(Body::Steal),
        Said::NoWork => Ok(Body::NoWork),
        Said::Over => Ok(Body::Over),
        Said::GiveMany(prefix, children) => many_body(alloc, prefix, children),
        told => child_body(alloc, told),
    }
}

/// The body that gives these children together.
fn many_body(
    alloc: Global,
    prefix: &[u16],
    children: &[(u32, Attempt, u16)],
) -> Result<Body, AllocError> {
    let mut siblings = Vec::new(alloc);
    for (serial, attempt, option) in children {
        siblings.push(Sibling {
            serial: *serial,
            attempt: *attempt,
            option: *option,
        })?;
    }
    Ok(Body::GiveMany {
        prefix: numbers(alloc, prefix)?,
        siblings: Siblings::from_vec(siblings),
    })
}

/// The same of what names one child.
pub fn child_body(alloc: Global, said: Said) -> Result<Body, AllocError> {
    match said {
        Said::Give(serial, attempt, prefix) => {
            let prefix = numbers(alloc, prefix)?;
            Ok(Body::Give {
                serial,
                attempt,
                prefix,
            })
        }
        Said::Return(serial, attempt, cover) => {
            let result = result_of(alloc, cover)?;
            Ok(Body::Return {
                serial,
                attempt,
                result,
            })
        }
        Said::Accept(serial, attempt, cover) => {
            let result = result_of(alloc, cover)?;
            Ok(Body::Accept {
                serial,
                attempt,
                result,
            })
        }
        Said::Refuse(serial, attempt, cause) => Ok(Body::Refuse {
            serial,
            attempt,
            cause,
        }),
        Said::Abort(serial, attempt) => Ok(Body::Abort { serial, attempt }),
        _ => Ok(Body::NoWork),
    }
}

/// The packet from one site to another that says so.
pub fn packet_of(alloc: Global, from: Site, to: Site, said: Said) -> Result<Packet, AllocError> {
    let body = body_of(alloc, said)?;
    Ok(Packet { from, to, body })
}

/// Whether the site put these packets out, in this order.
pub fn are_sent<R: Abort>(
    rt: &R,
    alloc: Global,
    from: Site,
    out: &[Packet],
    sent: &[(Site, Said)],
) -> bool {
    if out.len() != sent.len() {
        return false;
    }
    for (packet, (to, said)) in out.iter().zip(sent) {
        let expected = packet_of(alloc, from, *to, *said).expect(rt, "memory");
        if *packet != expected {
            return false;
        }
    }
    true
}

/// Whether an event came to this.
pub fn has_come(answer: &Result<Reply, ActFault>, comes: Comes) -> bool {
    match (answer, comes) {
        (Err(fault), Comes::Fault(expected)) => *fault == expected,
        (Ok(Reply::Taken(_, prefix)), Comes::Taken(expected)) => prefix.as_slice() == expected,
        (Ok(Reply::Ripe(unit)), Comes::Ripe(expected)) => *unit == expected,
        (Ok(reply), Comes::Idle) => *reply == Reply::Idle,
        (Ok(reply), Comes::Moved) => *reply == Reply::Moved,
        (Ok(reply), Comes::Ignored) => *reply == Reply::Ignored,
        _ => false,
    }
}
