//! Marks of options during the analysis of a conflict.

use crate::tables::{at, put};
use std::alloc::{AllocError, Global};

/// What the analysis knows of an option.
#[derive(Clone, Copy, PartialEq, Eq)]
pub enum Mark {
    Unseen,
    /// Its literal stands in the clause, or was resolved away.
    Seen,
    /// It was chosen or left before any decision.
    Settled,
    /// Its literal follows from others of the clause.
    Redundant,
    /// Its literal doesn't follow from others of the clause.
    Needed,
}

/// A mark of each option.
#[derive(Drop)]
pub struct Marks {
    marks: Vec<Mark>,
    /// The options that were marked.
    touched: Vec<u16>,
}

impl Marks {
    /// No marks of so many options. The only error is out of memory.
    pub fn new(alloc: Global, options: usize) -> Result<Marks, AllocError> {
        Ok(Marks {
            marks: vec![in alloc; Mark::Unseen; options]?,
            touched: Vec::with_capacity(alloc, options)?,
        })
    }

    /// Returns the mark of an option.
    #[inline(always)]
    pub fn mark(&self, option: u16) -> Mark {
        at(&self.marks, option as usize, Mark::Settled)
    }

    /// Marks an option. The only error is out of memory.
    #[inline(always)]
    pub fn set(&mut self, option: u16, mark: Mark) -> Result<(), AllocError> {
        put(&mut self.marks, option as usize, mark);
        self.touched.push(option)?;
        Ok(())
    }

    /// Returns the options that were marked since the last clearing.
    pub fn touched(&self) -> &[u16] {
        &self.touched
    }

    /// Takes back the marks that say that a literal follows, from a place of `touched` on.
    pub fn doubt(&mut self, from: usize) {
        let Some(doubtful) = self.touched.get(from..) else {
            return;
        };
        for option in doubtful {
            if at(&self.marks, *option as usize, Mark::Unseen) == Mark::Redundant {
                put(&mut self.marks, *option as usize, Mark::Unseen);
            }
        }
    }

    /// Takes back all marks.
    pub fn clear(&mut self) {
        for option in &self.touched {
            put(&mut self.marks, *option as usize, Mark::Unseen);
        }
        self.touched.clear();
    }
}
