//! When a worker that found no work looks for some again.
//!
//! Each look is an event, and so an entry of the book. A count of what moved at the site, read before a look, says
//! whether the next one can find anything else: a sequence lock's way to see a change without a lock.

use crate::signals::Signals;

/// What a worker knows of its looks at the core: one more is worth its entry in the book only if something moved since
/// the last that found nothing began.
#[derive(Clone, Copy, Debug, PartialEq, Eq)]
pub struct Looks {
    /// What the site's count of stirs was when the last look began.
    begun: u64,
    /// What it was when the last look began that found nothing.
    in_vain: Option<u64>,
}

impl Looks {
    /// Before the first look.
    pub fn new() -> Looks {
        Looks {
            begun: 0,
            in_vain: None,
        }
    }

    /// Begins a look, unless it would find what the last one found: nothing. The count is read here and nowhere else,
    /// so before the look: what moves meanwhile brings one look more, and is never missed.
    pub fn begin_if_new(&mut self, signals: &Signals) -> bool {
        self.begun = signals.stirs();
        self.in_vain != Some(self.begun)
    }

    /// The look that was begun found nothing.
    pub fn note_nothing(&mut self) {
        self.in_vain = Some(self.begun);
    }
}
