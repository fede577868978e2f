//! What workers take up, and the names by which a core speaks of it.
//!
//! Cilk keeps its frames in a deque; here each site has a table, and a unit is a key of it. A guest's key has the
//! attempt, so a child that was redone and comes once more is another guest. A job is the ticket for a unit: a Post is
//! refused as stale (`StaleJob`) unless the unit is still in a worker's hands at that attempt. So a worker needn't hear
//! that its unit was aborted meanwhile: its result is late, and nothing changes.

use crate::site::{Attempt, ChildName};

/// A unit of work of a site: a child of its own, or a guest, which is another site's child at some attempt.
#[derive(Clone, Copy, Debug, PartialEq, Eq)]
pub enum Unit {
    /// The own child with this serial number.
    Own(u32),
    /// The other site's child at this attempt.
    Guest(ChildName, Attempt),
}

/// A unit that was taken up, at the attempt at which it was.
#[derive(Clone, Copy, Debug, PartialEq, Eq)]
pub struct Job {
    /// What was taken up.
    pub unit: Unit,
    /// Its attempt then, from 1.
    pub attempt: Attempt,
}
