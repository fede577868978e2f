//! A largest matching of what primary items need with what they may have, by augmenting paths (Kuhn, "The Hungarian
//! method"; Berge).
//!
//! Where no path leads on, the items that were reached violate Hall's condition: they are the reason.

ghost use Rattle.std.specs.Prelude.{◌≡◌};

use crate::bits::Bits;
use crate::demand::Demand;
use crate::room::Room;
use cover_problem::Problem;
use fractional_room::Row;
use std::alloc::{AllocError, Global};

/// How the item is marked from which paths start.
const START: u16 = u16::MAX;

/// Which primary items have which items, and what paths reach that change it.
#[derive(Drop)]
pub struct Matching {
    /// Of each item 1 more than the primary item that has it, 0 for none.
    holders: Row,
    /// Of each item that a path reaches 1 more than the primary item before it.
    before: Row,
    /// Of each primary item that a path reaches 1 more than the item before it.
    entries: Row,
    /// The items that somebody has, and those that paths reach.
    held: Bits,
    seen: Bits,
    /// The primary items that paths reach, and how many.
    reached: Row,
    count: usize,
    /// About how many items were looked at.
    steps: usize,
}

impl Matching {
    /// A matching of nothing; the only error is out of memory.
    pub fn new(alloc: Global, problem: &Problem) -> Result<Matching, AllocError> {
        let items = problem.items();
        let primary = problem.primary();
        Ok(Matching {
            holders: Row::zeros(alloc, items)?,
            before: Row::zeros(alloc, items)?,
            entries: Row::zeros(alloc, primary)?,
            held: Bits::empty(alloc, items)?,
            seen: Bits::empty(alloc, items)?,
            reached: Row::zeros(alloc, primary)?,
            count: 0,
            steps: 0,
        })
    }

    /// Gives each primary item in turn what it needs. Returns whether all could be given.
    pub fn meets(&mut self, problem: &Problem, demand: &Demand) -> bool {
        self.holders.clear();
        self.held.clear();
        self.steps = 0;
        for item in 0..problem.primary() {
            if !self.gives(problem, demand, item) {
                return false;
            }
        }
        true
    }

    /// Gives a primary item as many items as it needs. Returns whether they could be given.
    fn gives(&mut self, problem: &Problem, demand: &Demand, item: usize) -> bool {
        for _ in 0..demand.need(item) {
            if !self.gives_one(problem, demand, item) {
                return false;
            }
        }
        true
    }

    /// The primary item that has an item, if one has it.
    #[inline(always)]
    pub fn holder(&self, item: usize) -> Option<usize> {
        (self.holders.at(item) as usize).checked_sub(1)
    }

    /// About how many items the last search for a matching looked at.
    pub fn steps(&self) -> usize {
        self.steps
    }

    /// Gives a primary item one more item: one that nobody has, or else one whose holder gets another one for it, and
    /// so on.
    fn gives_one(&mut self, problem: &Problem, demand: &Demand, item: usize) -> bool {
        self.gives_free(demand, item) || self.gives_by_path(problem, demand, item)
    }

    /// Gives a primary item one that nobody has. Returns whether there was one.
    fn gives_free(&mut self, demand: &Demand, item: usize) -> bool {
        let Some(choices) = demand.choices(item) else {
            return false;
        };
        let Some(free) = choices.first_outside(&self.held) else {
            return false;
        };
        self.held.insert(free);
        // (items are at most 1,000: the minimum is there so that cast and sum need no contract)
        self.holders.put(free, item.min(65534) as u16 + 1);
        true
    }

    /// Gives a primary item one along the shortest path to an item that nobody has. Returns whether there was one.
    fn gives_by_path(&mut self, problem: &Problem, demand: &Demand, item: usize) -> bool {
        self.steps = self.steps.saturating_add(problem.items());
        self.start_at(item);
        // (a queue that grows while it is read: each primary item enters it once at most, which bounds the loop)
        for place in 0..problem.primary() {
            if place >= self.count {
                break;
            }
            let one = self.reached.at(place) as usize;
            if let Some(end) = self.reach_from(problem, demand, one) {
                self.turn_path(problem, end);
                return true;
            }
        }
        false
    }

    /// Starts paths at a primary item.
    fn start_at(&mut self, item: usize) {
        self.before.clear();
        self.entries.clear();
        self.seen.clear();
        self.entries.put(item, START);
        self.reached.put(0, item.min(65535) as u16);
        self.count = 1;
    }

    /// Reaches the items that a primary item may have, until nobody has one.
    fn reach_from(&mut self, problem: &Problem, demand: &Demand, one: usize) -> Option<usize> {
        let choices = demand.choices(one)?;
        let name = one.min(65534) as u16 + 1;
        for _ in 0..problem.items() {
            let item = choices.first_outside(&self.seen)?;
            self.seen.insert(item);
            self.before.put(item, name);
            let holder = self.holders.at(item);
            if holder == 0 {
                return Some(item);
            }
            self.reach_holder(holder - 1, item);
        }
        None
    }

    /// Reaches the primary item that has an item.
    fn reach_holder(&mut self, holder: u16, item: usize) {
        if self.entries.at(holder as usize) == 0 {
            // (the bound keeps an entry below the mark of the start)
            self.entries
                .put(holder as usize, item.min(65533) as u16 + 1);
            self.reached.put(self.count, holder);
            self.count = self.count.saturating_add(1);
        }
    }

    /// Gives along the path to an item that nobody has.
    fn turn_path(&mut self, problem: &Problem, end: usize) {
        self.held.insert(end);
        let mut item = end;
        for _ in 0..problem.items() {
            let holder = self.before.at(item);
            self.holders.put(item, holder);
            let entry = self.entries.at(holder.saturating_sub(1) as usize);
            if entry == 0 || entry == START {
                break;
            }
            item = entry as usize - 1;
        }
    }

    /// After a primary item got too little: what the reached ones need, and the items that they may have.
    pub fn room(
        &self,
        alloc: Global,
        problem: &Problem,
        demand: &Demand,
    ) -> Result<Room, AllocError> {
        // (no path found a free item: all that the reached ones may have is theirs already, and one of them still lacks
        // some)
        let mut needs = Row::zeros(alloc, problem.primary())?;
        for place in 0..self.count {
            let item = self.reached.at(place) as usize;
            needs.put(item, demand.need(item));
        }
        let rooms = ones_of(alloc, problem.items(), &self.seen)?;
        Ok(Room::from_parts(needs.into_vec(), rooms.into_vec()))
    }
}

/// Of each of so many items 1 where it is in the set, else 0; the only error is out of memory.
pub fn ones_of(alloc: Global, count: usize, set: &Bits) -> Result<Row, AllocError> {
    let mut ones = Row::zeros(alloc, count)?;
    for item in 0..count {
        if set.has(item) {
            ones.put(item, 1);
        }
    }
    Ok(ones)
}
