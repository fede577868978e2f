//! What an abort leaves to be said: it becomes an Abort packet to the thief. The attempt is the one that the thief
//! knows.

use crate::site::{Attempt, Site};

/// An own child that was out when it was aborted, so that its thief has to hear of it.
#[derive(Clone, Copy, Debug, PartialEq, Eq)]
pub struct Out {
    /// The child's serial.
    pub serial: u32,
    /// The attempt at which it was out.
    pub attempt: Attempt,
    /// Who had it.
    pub thief: Site,
}
