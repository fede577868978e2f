//! Work that was stolen, as its thief has it. The owner keeps its child, and can redo it if the thief is lost, as in
//! Cilk-NOW.
//!
//! A guest has its whole prefix, since its parent is at another site. It stays in the table when it has ended, so that
//! a repeated Give finds it and is ignored: receiving is idempotent.

ghost use Rattle.std.specs.Prelude.{◌≡◌};
ghost use Rattle.spawn_frame.specs.Names.{guest_before};
ghost use Rattle.spawn_frame.specs.Units.{is_guest};

use crate::site::{Attempt, ChildName};
use crate::work::Work;
use cover_problem::Numbers;

/// Another site's child that this site works on.
#[derive(Drop)]
pub struct Guest {
    /// Its name.
    pub name: ChildName,
    /// The options that are chosen.
    pub prefix: Numbers,
    /// The rest.
    pub work: Work,
}

impl Guest {
    ghost use Rattle.spawn_frame.specs.Works.{guest_entry};

    /// Whether this is its name and attempt.
    pub fn is_at(&self, name: ChildName, attempt: Attempt) -> bool
        ensures { result ≡ is_guest name attempt (guest_entry self.now) }
    {
        self.name == name && self.work.attempt == attempt
    }

    /// Whether it stands behind that name and attempt in the order of guests.
    pub fn is_behind(&self, name: ChildName, attempt: Attempt) -> bool
        ensures { result ≡ guest_before name attempt self.now.name self.now.work.attempt }
    {
        (name, attempt) < (self.name, self.work.attempt)
    }
}
