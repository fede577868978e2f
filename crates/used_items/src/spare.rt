//! Which items each matching of what primary items need with what they may have uses.
//!
//! An item that one largest matching leaves free is reached from a free one by an alternating path (Berge). The items
//! that no such path reaches are used by every matching (the decomposition of Dulmage and Mendelsohn). Nothing of it is
//! believed: it comes to needs and rooms, which are added up.

ghost use Rattle.std.specs.Prelude.{◌≡◌};

use cover_problem::Problem;
use cover_reasons::{Bits, Demand, Matching, Room};
use fractional_room::Row;
use std::alloc::{AllocError, Global};

/// The items that a matching could leave out, if primary items took other ones than they have, and the primary items
/// that could have one of these.
#[derive(Drop)]
pub(crate) struct Spare {
    items: Bits,
    owners: Bits,
    /// About how many words of sets were looked at.
    steps: usize,
}

impl Spare {
    /// Nothing is spare; the only error is out of memory.
    pub(crate) fn new(alloc: Global, problem: &Problem) -> Result<Spare, AllocError> {
        Ok(Spare {
            items: Bits::empty(alloc, problem.items())?,
            owners: Bits::empty(alloc, problem.primary())?,
            steps: 0,
        })
    }

    /// Makes it what is spare of a matching that gives primary items all that they need.
    pub(crate) fn set(&mut self, problem: &Problem, demand: &Demand, matching: &Matching) {
        self.items.clear();
        self.owners.clear();
        self.steps = 0;
        self.add_items(problem, matching);
        for _ in 0..problem.primary() {
            if !self.add_owners(problem, demand) {
                break;
            }
            self.add_items(problem, matching);
        }
    }

    /// Adds the items that nobody has, or somebody who could have another one.
    fn add_items(&mut self, problem: &Problem, matching: &Matching) {
        for item in 0..problem.items() {
            let is_spare = match matching.holder(item) {
                Some(holder) => self.owners.has(holder),
                None => true,
            };
            if is_spare {
                self.items.insert(item);
            }
        }
    }

    /// Adds the primary items that could have an item which is spare by now. Returns whether there are any.
    fn add_owners(&mut self, problem: &Problem, demand: &Demand) -> bool {
        let mut found = false;
        for one in 0..problem.primary() {
            if !self.owners.has(one) && self.may_have_one(demand, one) {
                self.owners.insert(one);
                found = true;
            }
        }
        found
    }

    /// Whether a primary item may have an item that is spare by now.
    fn may_have_one(&mut self, demand: &Demand, one: usize) -> bool {
        self.steps = self.steps.saturating_add(self.items.words());
        match demand.choices(one) {
            Some(choices) => choices.common(&self.items) != 0,
            None => false,
        }
    }

    /// About how many words of sets were looked at.
    pub(crate) fn steps(&self) -> usize {
        self.steps
    }

    /// The room of the items that each matching uses, and what needs it; the only error is out of memory.
    pub(crate) fn full_room(
        &self,
        alloc: Global,
        problem: &Problem,
        demand: &Demand,
    ) -> Result<Room, AllocError> {
        let needs = self.full_needs(alloc, problem, demand)?;
        let rooms = self.full_items(alloc, problem)?;
        Ok(Room::from_parts(needs.into_vec(), rooms.into_vec()))
    }

    /// What those primary items need that can't have an item which is spare.
    fn full_needs(
        &self,
        alloc: Global,
        problem: &Problem,
        demand: &Demand,
    ) -> Result<Row, AllocError> {
        let mut needs = Row::zeros(alloc, problem.primary())?;
        for item in 0..problem.primary() {
            if !self.owners.has(item) {
                needs.put(item, demand.need(item));
            }
        }
        Ok(needs)
    }

    /// Of each item that isn't spare 1.
    fn full_items(&self, alloc: Global, problem: &Problem) -> Result<Row, AllocError> {
        let mut rooms = Row::zeros(alloc, problem.items())?;
        for item in 0..problem.items() {
            if !self.items.has(item) {
                rooms.put(item, 1);
            }
        }
        Ok(rooms)
    }
}
