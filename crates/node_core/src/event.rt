//! The inputs of a site's state machine: what workers do, what the site does by its clock, and packets. The table of
//! docs/PROTOCOL.md says by which test each is refused. Redo serves simulations: where threads run, only news of a
//! later incarnation redoes a child.

ghost use Rattle.std.specs.Prelude.{◌≡◌, IfOk};

use brancher::Finding;
use packet_wire::Packet;
use spawn_frame::{Job, Unit};
use std::alloc::AllocError;

/// What happens at a site.
#[derive(Clone, Debug, Drop, PartialEq, Eq)]
pub enum Event {
    /// A worker asks for work.
    Take,
    /// A worker has searched the prefix of a job.
    Post(Job, Finding),
    /// A settled frame gets its result.
    Finish(Unit),
    /// The site asks another node for work.
    Ask(u8),
    /// The own child of this serial is redone.
    Redo(u32),
    /// A packet arrives.
    Deliver(Packet),
    /// The site says again what may have been lost.
    Again,
    /// A node tells the registry that it is there.
    Greet,
}

impl Event {
    /// An equal event; the only error is out of memory.
    pub fn copy(&self) -> Result<Event, AllocError>
        ensures { IfOk result (λ copied. copied ≡ self.now) }
    {
        self.clone()
    }
}
