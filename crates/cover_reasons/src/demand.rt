//! How many items of a set primary items need, and which ones they may have.

ghost use Rattle.std.specs.Prelude.{◌≡◌};

use crate::bits::Bits;
use crate::neighbours::empty_sets;
use cover_problem::Problem;
use fractional_room::Row;
use std::alloc::{AllocError, Global};

/// Of each primary item how many items it needs, and which ones.
#[derive(Drop)]
pub struct Demand {
    needs: Row,
    choices: Vec<Bits>,
}

/// How many of these items a set has.
fn count_in(items: &[u16], set: &Bits) -> usize {
    items.iter().filter(|item| set.has(**item as usize)).count()
}

/// Puts those of these items that are in one set into another.
fn insert_from(items: &[u16], set: &Bits, into: &mut Bits) {
    for item in items {
        if set.has(*item as usize) {
            into.insert(*item as usize);
        }
    }
}

impl Demand {
    /// Of each primary item no need; the only error is out of memory.
    pub fn new(alloc: Global, problem: &Problem) -> Result<Demand, AllocError> {
        Ok(Demand {
            needs: Row::zeros(alloc, problem.primary())?,
            choices: empty_sets(alloc, problem.primary(), problem.items())?,
        })
    }

    /// How many items a primary item needs.
    pub fn need(&self, item: usize) -> u16 {
        self.needs.at(item)
    }

    /// Which items it may have.
    pub fn choices(&self, item: usize) -> Option<&Bits> {
        self.choices.get(item)
    }

    /// That no item needs any.
    pub fn clear(&mut self) {
        self.needs.clear();
        for item in 0..self.choices.len() {
            self.choices[item].clear();
        }
    }

    /// That an item needs one of these.
    pub fn set_one(&mut self, item: usize, choices: &Bits) {
        if item < self.choices.len() {
            self.needs.put(item, 1);
            self.choices[item].unite(choices);
        }
    }

    /// That an item needs as many items of a kind as each of its options names at least. Returns how many items were
    /// looked at.
    pub fn set_by_kind(
        &mut self,
        problem: &Problem,
        options: &[u16],
        kind: &Bits,
        item: usize,
    ) -> usize {
        let mut steps: usize = 0;
        if item >= self.choices.len() {
            return steps;
        }
        let mut least = u16::MAX;
        for option in options {
            if (*option as usize) < problem.options() {
                let items = problem.option(*option);
                steps = steps.saturating_add(items.len());
                least = least.min(count_in(items, kind).min(65535) as u16);
                insert_from(items, kind, &mut self.choices[item]);
            }
            // (an option that names none of the kind: the item needs none, whatever its other options name)
            if least == 0 {
                break;
            }
        }
        if least != u16::MAX {
            self.needs.put(item, least);
        }
        steps
    }
}
