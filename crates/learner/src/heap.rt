//! Options by activity: how often they took part in conflicts lately (MiniSat's form of VSIDS, "variable state
//! independent decaying sum").

use crate::tables::{at, put};
use std::alloc::{AllocError, Global};

/// An option that isn't in the heap.
const NOWHERE: u16 = u16::MAX;

/// Activities above this one are made smaller, with all others (MiniSat's number): far below where a 64-bit number
/// overflows.
const GREATEST: f64 = 1e100;

/// By what they are made smaller: MiniSat's factor, the inverse of `GREATEST`.
const SMALLER: f64 = 1e-100;

/// By what the step of activities grows at each conflict: 1 divided by MiniSat's decay of 0.95.
const GROWTH: f64 = 1.0 / 0.95;

/// A heap is at most so deep: there are fewer than 2^16 options.
const DEPTH: u32 = 16;

/// The options that may be decided, in a binary heap by their activities.
#[derive(Drop)]
pub struct Heap {
    activities: Vec<f64>,
    /// By how much an option's activity grows.
    step: f64,
    options: Vec<u16>,
    /// Where each option stands in the heap.
    positions: Vec<u16>,
}

impl Heap {
    /// All options, with these activities. The only error is out of memory.
    pub fn new(alloc: Global, activities: Vec<f64>) -> Result<Heap, AllocError> {
        let count = activities.len();
        let mut heap = Heap {
            activities,
            step: 1.0,
            options: Vec::with_capacity(alloc, count)?,
            positions: vec![in alloc; NOWHERE; count]?,
        };
        for option in 0..(count & 0xffff) as u16 {
            heap.insert(option);
        }
        Ok(heap)
    }

    #[inline(always)]
    fn activity(&self, option: u16) -> f64 {
        at(&self.activities, option as usize, 0.0)
    }

    #[inline(always)]
    fn option(&self, position: usize) -> u16 {
        at(&self.options, position, 0)
    }

    /// Puts an option at a position.
    #[inline(always)]
    fn place(&mut self, position: usize, option: u16) {
        put(&mut self.options, position, option);
        put(
            &mut self.positions,
            option as usize,
            (position & 0xffff) as u16,
        );
    }

    /// Moves the option at a position up to where it belongs.
    fn rise(&mut self, from: usize) {
        let option = self.option(from);
        let activity = self.activity(option);
        let mut position = from;
        for _ in 0..DEPTH {
            if position == 0 {
                break;
            }
            let parent = (position - 1) / 2;
            let above = self.option(parent);
            if self.activity(above) >= activity {
                break;
            }
            self.place(position, above);
            position = parent;
        }
        self.place(position, option);
    }

    /// Returns the child of a position with the greater activity, if there is any.
    #[inline(always)]
    fn greater_child(&self, position: usize) -> Option<usize> {
        let left = position.wrapping_mul(2).wrapping_add(1);
        let right = left.wrapping_add(1);
        if left >= self.options.len() {
            return None;
        }
        if right < self.options.len()
            && self.activity(self.option(right)) > self.activity(self.option(left))
        {
            return Some(right);
        }
        Some(left)
    }

    /// Moves the option at a position down to where it belongs.
    fn sink(&mut self, from: usize) {
        let option = self.option(from);
        let activity = self.activity(option);
        let mut position = from;
        for _ in 0..DEPTH {
            let Some(child) = self.greater_child(position) else {
                break;
            };
            let below = self.option(child);
            if self.activity(below) <= activity {
                break;
            }
            self.place(position, below);
            position = child;
        }
        self.place(position, option);
    }

    /// Puts an option into the heap, if it isn't there.
    pub fn insert(&mut self, option: u16) {
        if at(&self.positions, option as usize, 0) != NOWHERE {
            return;
        }
        let position = self.options.len();
        // (there is room for each option)
        let _ = self.options.push(option);
        put(
            &mut self.positions,
            option as usize,
            (position & 0xffff) as u16,
        );
        self.rise(position);
    }

    /// Takes out the option with the greatest activity.
    pub fn pop(&mut self) -> Option<u16> {
        let first = *self.options.first()?;
        let last = self.options.pop()?;
        put(&mut self.positions, first as usize, NOWHERE);
        if !self.options.is_empty() {
            self.place(0, last);
            self.sink(0);
        }
        Some(first)
    }

    /// Makes an option more active.
    pub fn bump(&mut self, option: u16) {
        let activity = self.activity(option) + self.step;
        put(&mut self.activities, option as usize, activity);
        if activity > GREATEST {
            self.make_smaller();
        }
        let position = at(&self.positions, option as usize, NOWHERE);
        if position != NOWHERE {
            self.rise(position as usize);
        }
    }

    /// Makes what comes later weigh more than what was.
    pub fn decay(&mut self) {
        self.step *= GROWTH;
    }

    fn make_smaller(&mut self) {
        for activity in self.activities.iter_mut() {
            *activity *= SMALLER;
        }
        self.step *= SMALLER;
    }
}
