//! The two sides of a problem whose options name two primary items each, as the light and the dark squares of a board.
//!
//! A bipartition, found by a breadth-first search from item to item by way of the options that name them.

ghost use Rattle.std.specs.Prelude.{◌≡◌, ◌<◌, length};

use crate::bits::Bits;
use crate::neighbours::Neighbours;
use cover_problem::Problem;
use fractional_room::Row;
use std::alloc::{AllocError, Global};

/// Two sets of primary items, such that each option names one of either, if there are such sets.
#[derive(Drop)]
pub struct Sides {
    first: Bits,
    second: Bits,
    /// The primary items that have a side.
    seen: Bits,
    /// These in the order in which they got it, and how many.
    queue: Row,
    count: usize,
}

/// How many of these items are primary.
fn count_primary(primary: usize, items: &[u16]) -> usize {
    items
        .iter()
        .filter(|item| (**item as usize) < primary)
        .count()
}

/// Whether each option names two primary items.
pub fn are_pairs(problem: &Problem) -> bool {
    (0..problem.options() as u16).all(|option| count_primary(
        problem.primary(),
        problem.option(option),
    ) == 2)
}

impl Sides {
    /// Sides of nothing; the only error is out of memory.
    pub fn new(alloc: Global, problem: &Problem) -> Result<Sides, AllocError> {
        let items = problem.items();
        let primary = problem.primary();
        Ok(Sides {
            first: Bits::empty(alloc, items)?,
            second: Bits::empty(alloc, items)?,
            seen: Bits::empty(alloc, primary)?,
            queue: Row::zeros(alloc, primary)?,
            count: 0,
        })
    }

    /// The primary items of the first side.
    pub fn first(&self) -> &Bits {
        &self.first
    }

    /// The primary items of the second side.
    pub fn second(&self) -> &Bits {
        &self.second
    }

    /// Whether an item has a side.
    pub fn has(&self, item: usize) -> bool {
        self.seen.has(item)
    }

    /// Forgets which items are on a side, but not that they have one.
    pub fn clear(&mut self) {
        self.first.clear();
        self.second.clear();
    }

    /// Puts an item on the first side, and all that hang together with it on theirs.
    pub fn spread(&mut self, problem: &Problem, neighbours: &Neighbours, start: usize) {
        self.count = 0;
        self.first.insert(start);
        self.take(start);
        for place in 0..problem.primary() {
            if place >= self.count {
                break;
            }
            let one = self.queue.at(place) as usize;
            let to_second = self.first.has(one);
            if let Some(beside) = neighbours.owners(one) {
                self.spread_from(problem, beside, to_second);
            }
        }
    }

    /// Puts items that have no side on the second one, or on the first.
    fn spread_from(&mut self, problem: &Problem, beside: &Bits, to_second: bool) {
        // (no test that there are such sides: what comes of them is tested as a reason)
        for _ in 0..problem.primary() {
            let Some(item) = beside.first_outside(&self.seen) else {
                break;
            };
            if to_second {
                self.second.insert(item);
            } else {
                self.first.insert(item);
            }
            self.take(item);
        }
    }

    /// Notes that an item has a side.
    fn take(&mut self, item: usize) {
        self.seen.insert(item);
        self.queue.put(self.count, item.min(65535) as u16);
        self.count = self.count.saturating_add(1);
    }
}
