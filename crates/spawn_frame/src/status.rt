//! The states of a unit, as the diagrams of docs/PROTOCOL.md show them. Owner and thief each have a machine of their
//! own: what is Out at the owner is Ready, Here, Split or Finished at the thief, until packets say more.
//!
//! It is one enum for both, so the calls that take up, split and finish a unit are written once; which states each kind
//! of unit may have is an invariant of the table.

ghost use Rattle.std.specs.Prelude.{◌≡◌, IfOk};

use crate::child_result::ChildResult;
use crate::site::Site;
use std::alloc::AllocError;

/// How far a unit of work is. An own child is never `Finished`, `Settled` or `Dropped`; a guest is never `Out`, `Done`
/// or `Aborted`.
#[derive(Clone, Debug, Drop, PartialEq, Eq)]
pub enum Status {
    /// It waits for a worker.
    Ready,
    /// A worker of this site has it.
    Here,
    /// It is a frame: its children are own children of this site.
    Split,
    /// The own child was given to a thief.
    Out(Site),
    /// The own child has its result.
    Done(ChildResult),
    /// The own child is wanted no more.
    Aborted,
    /// The guest has a result, which its owner hasn't judged yet.
    Finished(ChildResult),
    /// The guest's owner accepted this result, which may be another than the guest's own.
    Settled(ChildResult),
    /// The guest is wanted no more.
    Dropped,
}

impl Status {
    ghost use Rattle.spawn_frame.specs.Aborts.{is_open};
    ghost use Rattle.spawn_frame.specs.Picks.{is_finished, is_ready, is_split};
    ghost use Rattle.spawn_frame.specs.Tables.{is_here, is_out, may_end};

    /// Whether the unit waits for a worker.
    pub fn is_ready(&self) -> bool
        ensures { result ≡ is_ready self.now }
    {
        matches!(self, Status::Ready)
    }

    /// Whether a worker of this site has the unit.
    pub fn is_here(&self) -> bool
        ensures { result ≡ is_here self.now }
    {
        matches!(self, Status::Here)
    }

    /// Whether the unit is a frame.
    pub fn is_split(&self) -> bool
        ensures { result ≡ is_split self.now }
    {
        matches!(self, Status::Split)
    }

    /// Whether the own child was given to a thief.
    pub fn is_out(&self) -> bool
        ensures { result ≡ is_out self.now }
    {
        matches!(self, Status::Out(_))
    }

    /// Whether the guest has a result that its owner hasn't judged. Only tests ask.
    pub fn is_finished(&self) -> bool
        ensures { result ≡ is_finished self.now }
    {
        matches!(self, Status::Finished(_))
    }

    /// Whether the unit's result may come: it is here, a frame, or out. Only tests and tools ask.
    pub fn may_end(&self) -> bool
        ensures { result ≡ may_end self.now }
    {
        matches!(self, Status::Here | Status::Split | Status::Out(_))
    }

    /// Whether the unit is not finished for good.
    pub fn is_open(&self) -> bool
        ensures { result ≡ is_open self.now }
    {
        // (a finished guest is open, too: its owner may still refuse its result or abort it)
        matches!(
            self,
            Status::Ready | Status::Here | Status::Split | Status::Out(_) | Status::Finished(_)
        )
    }

    /// An equal status; the only error is out of memory.
    pub fn copy(&self) -> Result<Status, AllocError>
        ensures { IfOk result (λ copied. copied ≡ self.now) }
    {
        self.clone()
    }
}
