//! The trail, with what it makes of the items.

use crate::counts::Counts;
use crate::layout::Layout;
use crate::packed::Packed;
use crate::trail::{Cause, Trail};

/// What is chosen and left, and what that makes of the items.
#[derive(Drop)]
pub struct Assignment {
    pub trail: Trail,
    pub counts: Counts,
}

impl Assignment {
    /// Makes a literal true, of which nothing is known yet.
    #[inline(always)]
    pub fn set(&mut self, layout: &Layout, literal: Packed, cause: Cause) {
        self.trail.push(literal, cause);
        self.counts.count_in(layout, literal);
    }

    /// Takes back the last literal, if it is of a level above this one.
    pub fn take_back(&mut self, layout: &Layout, level: u16) -> Option<Packed> {
        let literal = self.trail.pop(level)?;
        self.counts.count_out(layout, literal);
        Some(literal)
    }
}
