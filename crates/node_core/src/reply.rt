//! The outputs of a site's state machine beside packets. Take is answered by one of the first three, any other event by
//! one of the last two. Moved and Ignored are for whoever waits: a worker that found no work looks again only after
//! something moved.

ghost use Rattle.std.specs.Prelude.{◌≡◌, IfOk};

use cover_problem::Numbers;
use spawn_frame::{Job, Unit};
use std::alloc::AllocError;

/// What an event came to.
#[derive(Clone, Debug, Drop, PartialEq, Eq)]
pub enum Reply {
    /// The job is taken up; this is its prefix.
    Taken(Job, Numbers),
    /// A frame is settled and wants to be finished.
    Ripe(Unit),
    /// There is no work.
    Idle,
    /// The state changed, or a packet was put out.
    Moved,
    /// Neither.
    Ignored,
}

impl Reply {
    /// An equal reply; the only error is out of memory.
    pub fn copy(&self) -> Result<Reply, AllocError>
        ensures { IfOk result (λ copied. copied ≡ self.now) }
    {
        self.clone()
    }
}
