//! Kinds of items, as the periods of one teacher.

ghost use Rattle.std.specs.Prelude.{◌≡◌};

use crate::bits::Bits;
use crate::neighbours::Neighbours;
use crate::reason_watch::ReasonWatch;
use cover_problem::Problem;
use fractional_room::Row;
use std::alloc::{AllocError, Global};

// (half of the greatest: more than half of the primary items beside either one are beside both)
/// From which likeness on items are alike.
const ALIKE: u16 = 32768;

/// The items of the kind of one item.
#[derive(Drop)]
pub struct Kind {
    items: Bits,
    /// How like the one each item is, 0 where it can't be of its kind.
    likeness: Row,
    /// The items that an option names beside the one.
    companions: Bits,
    /// The primary items beside which items of the kind stand.
    owners: Bits,
    /// The items whose kind needs no look any more.
    done: Bits,
}

impl Kind {
    /// A kind of no item; the only error is out of memory.
    pub fn new(alloc: Global, problem: &Problem) -> Result<Kind, AllocError> {
        let items = problem.items();
        Ok(Kind {
            items: Bits::empty(alloc, items)?,
            likeness: Row::zeros(alloc, items)?,
            companions: Bits::empty(alloc, items)?,
            owners: Bits::empty(alloc, problem.primary())?,
            done: Bits::empty(alloc, items)?,
        })
    }

    /// The items of the kind.
    pub fn items(&self) -> &Bits {
        &self.items
    }

    /// The primary items beside which they stand.
    pub fn owners(&self) -> &Bits {
        &self.owners
    }

    /// Whether the kind of an item needs a look: no option gives the item a colour, and its kind hasn't been seen.
    pub fn is_new(&self, neighbours: &Neighbours, item: usize) -> bool {
        neighbours.is_plain(item) && !self.done.has(item)
    }

    /// Makes the kind that of an item: of each option of its owners the item that is most like it, of those that no
    /// option names beside it. Where the watch ends that, some of them. Returns about how many items, and words of sets
    /// of items, were looked at.
    pub fn set<W: ReasonWatch>(
        &mut self,
        problem: &Problem,
        neighbours: &Neighbours,
        one: usize,
        watch: &mut W,
    ) -> usize {
        self.items.clear();
        let mut steps = self.compare(problem, neighbours, one);
        steps = steps.saturating_add(self.meet_companions(problem, neighbours, one));
        self.items.insert(one);
        let Some(owners) = neighbours.owners(one) else {
            return steps;
        };
        for owner in 0..problem.primary() {
            if owners.has(owner) {
                if watch.look() {
                    break;
                }
                steps = steps.saturating_add(self.add_likest(problem, neighbours, owner));
            }
        }
        self.note_done(problem, neighbours, owners);
        self.note_owners(problem, neighbours);
        steps
    }

    /// Makes the kind all items that are much like the one of which it was. Returns whether that changes it.
    pub fn widen(&mut self, problem: &Problem, neighbours: &Neighbours) -> bool {
        let before = self.items.count();
        let mut common: u32 = 0;
        for item in 0..problem.items() {
            if self.likeness.at(item) < ALIKE {
                self.items.remove(item);
            } else if self.items.has(item) {
                common = common.saturating_add(1);
            } else {
                self.items.insert(item);
            }
        }
        self.note_owners(problem, neighbours);
        common != before || common != self.items.count()
    }

    /// Notes how like the one all items are. Returns how many words of sets were looked at.
    fn compare(&mut self, problem: &Problem, neighbours: &Neighbours, one: usize) -> usize {
        for item in 0..problem.items() {
            let likeness = if neighbours.is_plain(item) {
                neighbours.likeness(one, item)
            } else {
                0
            };
            self.likeness.put(item, likeness);
        }
        // (each likeness goes through the sets of both items' owners)
        problem.items().saturating_mul(problem.primary() / 64 + 1)
    }

    /// Notes the items that options name beside the one. Returns how many items were looked at.
    fn meet_companions(&mut self, problem: &Problem, neighbours: &Neighbours, one: usize) -> usize {
        self.companions.clear();
        let mut steps: usize = 0;
        for option in neighbours.options(one) {
            if (*option as usize) < problem.options() {
                let items = problem.option(*option);
                steps = steps.saturating_add(items.len());
                insert_all(items, &mut self.companions);
            }
        }
        self.companions.remove(one);
        steps
    }

    /// Adds of each option of an owner the item that is most like the one. Returns how many items were looked at.
    fn add_likest(&mut self, problem: &Problem, neighbours: &Neighbours, owner: usize) -> usize {
        let mut steps: usize = 0;
        for option in neighbours.options(owner) {
            if (*option as usize) < problem.options() {
                let items = problem.option(*option);
                steps = steps.saturating_add(items.len());
                if let Some(item) = self.likest(items, owner) {
                    self.items.insert(item);
                }
            }
        }
        steps
    }

    /// The item of an option of an owner that is most like the one.
    fn likest(&self, items: &[u16], owner: usize) -> Option<usize> {
        let mut best = None;
        let mut most = 0;
        for item in items {
            let item = *item as usize;
            let likeness = self.likeness.at(item);
            if likeness > most && item != owner && !self.companions.has(item) {
                most = likeness;
                best = Some(item);
            }
        }
        best
    }

    /// Notes as seen the items of the kind with these owners.
    fn note_done(&mut self, problem: &Problem, neighbours: &Neighbours, owners: &Bits) {
        for item in 0..problem.items() {
            if self.items.has(item) && are_equal(neighbours.owners(item), owners) {
                self.done.insert(item);
            }
        }
    }

    /// Notes the primary items beside which the items of the kind stand.
    fn note_owners(&mut self, problem: &Problem, neighbours: &Neighbours) {
        self.owners.clear();
        for item in 0..problem.items() {
            if let Some(owners) = neighbours.owners(item)
                && self.items.has(item)
            {
                self.owners.unite(owners);
            }
        }
    }
}

/// Puts these items into a set.
fn insert_all(items: &[u16], set: &mut Bits) {
    for item in items {
        set.insert(*item as usize);
    }
}

/// Whether two sets have the same numbers, where there are both.
fn are_equal(one: Option<&Bits>, other: &Bits) -> bool {
    match one {
        Some(one) => one.first_outside(other).is_none() && other.first_outside(one).is_none(),
        None => false,
    }
}
