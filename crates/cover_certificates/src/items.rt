//! Sets of primary items.

ghost use Rattle.std.specs.Prelude.{◌≡◌, ◌<◌, ℕ, Bool, length, true, not, ◌==◌, ◌&&◌, ◌||◌, nat_lt, IfOk};
ghost use Rattle.cover_problem.specs.Numbers.{is_in};
ghost use Rattle.cover_reasons.specs.Room.{amount_of};
ghost use Rattle.cover_certificates.specs.Cases.{has_item};

use std::alloc::{AllocError, Global};
use std::marker::Model;

/// A set of primary items. Contracts see a list with a place for each.
#[derive(Drop)]
pub(crate) struct Items {
    marks: Vec<bool>,
}

impl Model for Items {
    ghost use Rattle.std.specs.Prelude.{List, Bool};

    ghost Value = { List Bool };

    ghost view = { λ s. s.marks.items };
}

impl Items {
    /// Returns the set of all of so many items; the only error is out of memory.
    pub(crate) fn all(alloc: Global, count: usize) -> Result<Items, AllocError>
        ensures long { IfOk result (λ items. length items ≡ count) }
        ensures all { IfOk result (λ items. (i : ℕ) → has_item items i ≡ nat_lt i count) }
    {
        let marks = vec![in alloc; true; count]?;
        Ok(Items { marks })
    }

    /// Returns the set of one of so many items; the only error is out of memory.
    pub(crate) fn of(alloc: Global, count: usize, item: u16) -> Result<Items, AllocError>
        requires { item < count }
        ensures long { IfOk result (λ items. length items ≡ count) }
        ensures one { IfOk result (λ items. (i : ℕ) → has_item items i ≡ (item == i)) }
    {
        let mut marks = vec![in alloc; false; count]?;
        marks[item as usize] = true;
        Ok(Items { marks })
    }

    /// Returns the set of those of so many items that have an amount in a list; the only error is out of memory.
    pub(crate) fn with_amounts(
        alloc: Global,
        count: usize,
        amounts: &[u16],
    ) -> Result<Items, AllocError>
        ensures long { IfOk result (λ items. length items ≡ count) }
        ensures some { IfOk result (λ items. (i : ℕ) → i < count →
            has_item items i ≡ not (amount_of amounts.now i == 0)) }
    {
        let mut marks = Vec::with_capacity(alloc, count)?;
        for place in 0..count {
            marks.push(has_amount(amounts, place))?;
        }
        Ok(Items { marks })
    }

    /// Returns whether the item is in the set.
    pub(crate) fn has(&self, item: u16) -> bool
        ensures { result ≡ has_item self.now item }
    {
        match self.marks.get(item as usize) {
            Some(mark) => *mark,
            None => false,
        }
    }

    /// Returns an equal set; the only error is out of memory.
    pub(crate) fn copy(&self) -> Result<Items, AllocError>
        ensures { IfOk result (λ copied. copied ≡ self.now) }
    {
        let marks = self.marks.clone()?;
        Ok(Items { marks })
    }

    /// Adds the items of another set.
    pub(crate) fn join(&mut self, other: &Items)
        requires { length other.now ≡ length self.old }
        ensures long { length self.new ≡ length self.old }
        ensures joined { (i : ℕ) → has_item self.new i ≡ (has_item self.old i || has_item other.now i) }
    {
        join_marks(&mut self.marks, &other.marks);
    }

    /// Takes the items of a list out of the set.
    pub(crate) fn take_out(&mut self, items: &[u16])
        ensures long { length self.new ≡ length self.old }
        ensures left { (i : ℕ) → has_item self.new i ≡ (has_item self.old i && not (is_in items.now i)) }
    {
        clear_marks(&mut self.marks, items);
    }

    /// Returns whether each of its items is in another set.
    pub(crate) fn is_within(&self, other: &Items) -> bool
        ensures { result ≡ true → (i : ℕ) → has_item self.now i ≡ true → has_item other.now i ≡ true }
    {
        are_within(&self.marks, &other.marks)
    }
}

/// Returns whether a list has an amount at a place that isn't 0.
fn has_amount(amounts: &[u16], place: usize) -> bool
    ensures { result ≡ not (amount_of amounts.now place == 0) }
{
    match amounts.get(place) {
        Some(amount) => *amount != 0,
        None => false,
    }
}

/// Sets each mark that is set in another list.
fn join_marks(marks: &mut [bool], other: &[bool])
    requires { length other.now ≡ length marks.old }
    ensures long { length marks.new ≡ length marks.old }
    ensures joined { (i : ℕ) → has_item marks.new i ≡ (has_item marks.old i || has_item other.now i) }
{
    for place in 0..marks.len() {
        if other[place] {
            marks[place] = true;
        }
    }
}

/// Clears the marks of some items.
fn clear_marks(marks: &mut [bool], items: &[u16])
    ensures long { length marks.new ≡ length marks.old }
    ensures left { (i : ℕ) → has_item marks.new i ≡ (has_item marks.old i && not (is_in items.now i)) }
{
    for item in items {
        clear_mark(marks, *item);
    }
}

/// Clears the mark of an item, if it has one.
fn clear_mark(marks: &mut [bool], item: u16)
    ensures long { length marks.new ≡ length marks.old }
    ensures left { (i : ℕ) → has_item marks.new i ≡ (has_item marks.old i && not (item == i)) }
{
    if (item as usize) < marks.len() {
        marks[item as usize] = false;
    }
}

/// Returns whether each mark that is set is set in another list.
fn are_within(marks: &[bool], other: &[bool]) -> bool
    ensures { result ≡ true → (i : ℕ) → has_item marks.now i ≡ true → has_item other.now i ≡ true }
{
    for place in 0..marks.len() {
        if marks[place] && !is_marked(other, place) {
            return false;
        }
    }
    true
}

/// Returns whether there is a mark at a place that is set.
fn is_marked(marks: &[bool], place: usize) -> bool
    ensures { result ≡ has_item marks.now place }
{
    match marks.get(place) {
        Some(mark) => *mark,
        None => false,
    }
}
