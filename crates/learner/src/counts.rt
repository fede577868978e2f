//! How many options of each primary item are not left, and which one of them is chosen.
//!
//! Counters in place of watched literals, as solvers have them for cardinality constraints: an item is looked at only
//! once all of its options but one are left.

use crate::layout::Layout;
use crate::packed::Packed;
use crate::tables::{at, put};
use std::alloc::{AllocError, Global};

/// The state of the primary items, and those that are to be looked at since one option or none is not left.
#[derive(Drop)]
pub struct Counts {
    /// Of each primary item how many of its options are not left.
    counts: Vec<u16>,
    /// Of each primary item whether one of its options is chosen.
    covered: Vec<bool>,
    due: Vec<u16>,
}

impl Counts {
    /// The state where no option is chosen or left. The only error is out of memory.
    pub fn new(alloc: Global, layout: &Layout) -> Result<Counts, AllocError> {
        let mut counts = Vec::with_capacity(alloc, layout.primary() as usize)?;
        // (an item comes at most twice before it is looked at: when its last but one option is left, and its last one)
        let mut due = Vec::new(alloc);
        due.reserve(layout.primary() as usize * 2)?;
        for item in 0..layout.primary() {
            let count = (layout.options_of(item).len() & 0xffff) as u16;
            counts.push(count)?;
            if count <= 1 {
                due.push(item)?;
            }
        }
        Ok(Counts {
            covered: vec![in alloc; false; counts.len()]?,
            counts,
            due,
        })
    }

    /// Returns how many options of an item are not left.
    #[inline(always)]
    pub fn count(&self, item: u16) -> u16 {
        at(&self.counts, item as usize, 0)
    }

    /// Returns whether an option of the item is chosen.
    #[inline(always)]
    pub fn is_covered(&self, item: u16) -> bool {
        at(&self.covered, item as usize, false)
    }

    /// Returns an item to be looked at, if there is one.
    #[inline(always)]
    pub fn take_due(&mut self) -> Option<u16> {
        self.due.pop()
    }

    /// Forgets which items are to be looked at.
    pub fn clear_due(&mut self) {
        self.due.clear();
    }

    /// Counts a literal that became true.
    #[inline(always)]
    pub fn count_in(&mut self, layout: &Layout, literal: Packed) {
        if literal.is_left() {
            self.leave(layout, literal.option());
        } else {
            self.cover(layout, literal.option(), true);
        }
    }

    /// Takes back what `count_in` did.
    #[inline(always)]
    pub fn count_out(&mut self, layout: &Layout, literal: Packed) {
        if literal.is_left() {
            self.restore(layout, literal.option());
        } else {
            self.cover(layout, literal.option(), false);
        }
    }

    fn leave(&mut self, layout: &Layout, option: u16) {
        for naming in layout.items_of(option) {
            if let Some(count) = self.counts.get_mut(naming.number as usize) {
                *count = count.wrapping_sub(1);
                if *count <= 1 {
                    let _ = self.due.push(naming.number);
                }
            }
        }
    }

    fn restore(&mut self, layout: &Layout, option: u16) {
        for naming in layout.items_of(option) {
            if let Some(count) = self.counts.get_mut(naming.number as usize) {
                *count = count.wrapping_add(1);
            }
        }
    }

    fn cover(&mut self, layout: &Layout, option: u16, is_covered: bool) {
        for naming in layout.items_of(option) {
            put(&mut self.covered, naming.number as usize, is_covered);
        }
    }
}
