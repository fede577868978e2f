//! The messages of the protocol, as values; `writing` and `reading` have their bytes. docs/PROTOCOL.md says who sends
//! which, and when.
//!
//! They go by UDP: each may be lost, repeated or reordered. So none depends on an earlier one, no number counts them,
//! and each names what it is about: a child by serial and attempt, a site by node and incarnation. What somebody waits
//! for is sent again, and to receive it twice does no harm.
//!
//! GiveMany gives several children at once, so that a thief gets a share and not one leaf. It has a version of its own,
//! and the bytes of the other packets are as they are without it.

ghost use Rattle.std.specs.Prelude.{◌≡◌, ◌↔◌, IfOk, IsTrue};

use crate::incarnations::Incarnations;
use cover_problem::Numbers;
use spawn_frame::{Attempt, Cause, ChildResult, Siblings, Site};
use std::alloc::AllocError;

/// What a packet says. The child of a `Return` is of the receiver's site; that of a `Give`, `Accept`, `Refuse` or
/// `Abort`, and those of a `GiveMany`, are of the sender's. Children go by their serial number there and the attempt.
#[derive(Clone, Debug, Drop, PartialEq, Eq)]
pub enum Body {
    /// A node tells the registry that it is there.
    Hello,
    /// The registry tells a node the known incarnations.
    Members(Incarnations),
    /// A node asks for work.
    Steal,
    /// A child is given, with its prefix.
    Give {
        /// The child's serial number.
        serial: u32,
        /// Its attempt, from 1.
        attempt: Attempt,
        /// Its prefix.
        prefix: Numbers,
    },
    /// Two to eight children of one parent are given together.
    GiveMany {
        /// The parent's prefix.
        prefix: Numbers,
        /// The children, by serial.
        siblings: Siblings,
    },
    /// There is no work to give.
    NoWork,
    /// A thief returns the result of a child.
    Return {
        /// The child's serial number.
        serial: u32,
        /// Its attempt, from 1.
        attempt: Attempt,
        /// What the search of the child came to.
        result: ChildResult,
    },
    /// The owner sends the result that the child has.
    Accept {
        /// The child's serial number.
        serial: u32,
        /// Its attempt, from 1.
        attempt: Attempt,
        /// The result that the child has.
        result: ChildResult,
    },
    /// The owner refuses a result.
    Refuse {
        /// The child's serial number.
        serial: u32,
        /// The attempt that was returned, from 1.
        attempt: Attempt,
        /// Why.
        cause: Cause,
    },
    /// The owner wants the child no more.
    Abort {
        /// The child's serial number.
        serial: u32,
        /// The attempt at which it was out, from 1.
        attempt: Attempt,
    },
    /// The registry has its answer.
    Over,
}

impl Body {
    /// An equal body; the only error is out of memory.
    pub fn copy(&self) -> Result<Body, AllocError>
        ensures { IfOk result (λ copied. copied ≡ self.now) }
    {
        self.clone()
    }
}

/// A message from one site to another.
#[derive(Clone, Debug, Drop, PartialEq, Eq)]
pub struct Packet {
    /// The site that sent it.
    pub from: Site,
    /// The site that it is for.
    pub to: Site,
    /// What it says.
    pub body: Body,
}

impl Packet {
    /// Whether it is the other packet, field by field: what `==` answers.
    pub fn is_same(&self, other: &Packet) -> bool
        ensures { IsTrue result ↔ (self.now ≡ other.now) }
    {
        self == other
    }

    /// An equal packet; the only error is out of memory.
    pub fn copy(&self) -> Result<Packet, AllocError>
        ensures { IfOk result (λ copied. copied ≡ self.now) }
    {
        self.clone()
    }
}
