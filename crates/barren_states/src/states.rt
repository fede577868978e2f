//! The table: each key has two slots, next to each other, by the high half of its hash.
//!
//! Two slots and a worth that fades are as in the transposition tables of chess programs ("two-tier replacement"),
//! where a deep entry is kept beside a recent one. A new key always goes in, over the one of lesser worth. Worth is by
//! the visits that a state took, so what was dear to find stays longest (or by its number, where a search writes a
//! certificate and numbers its states); it fades with each key that is kept beside it, and is as at first once its key
//! is found.
//!
//! The part of the slots that is in use doubles as more is kept, since memory that was never touched costs time. Then
//! each key moves to where it is looked for from then on. Left where they are, half of them would not be found again,
//! and hold their slots: dominoes on 16 by 16 took some 40 % more visits so.

ghost use Rattle.std.specs.Prelude.{◌≡◌, ℕ, ◌+◌, ◌*◌, ◌<◌, ◌≤◌, List, length, IfOk, IfSome};
ghost use Rattle.barren_states.specs.States.{bytes_of, Holds, HoldsNoMore, IsKept};

use crate::places::{hash_of, places_of};
use crate::slots::Slots;
use crate::worth::worth_of;
use std::alloc::{AllocError, Global};
use std::marker::Model;

/// The most words of 64 bits that a key has. A bit for each of 20,000 options takes 313, one for each item 16; this is
/// a power of two above both.
pub const MOST_WORDS: usize = 1_024;

/// How many bytes the slots take that are in use at first, 256 KB. Memory that was never touched costs half a
/// millisecond a megabyte, so a search that keeps little is to touch little. With 16 KB `triples-19` took 0.435 of the
/// plain search's instructions and not 0.373 (`bench/TRIED.md`).
const FIRST_BYTES: usize = 1 << 18;

/// The most slots: a place is scaled from 32 bits of a hash (`places`), so no more would be reached. With keys of one
/// word they are 73 GB.
const MOST_SLOTS: u64 = 1 << 32;

/// States that are known by keys of one width, and of each how many visits it takes. Only `build` takes memory.
#[derive(Drop)]
pub struct BarrenStates {
    /// The slots: none are in use at first, then twice as many each time as more is kept.
    slots: Slots,
    /// How many keys were kept since the table last grew, or came to where it would have, at its greatest size.
    kept: usize,
    /// How much each slot is worth. It fades with each key that is kept beside it, and is as at first once its key is
    /// found.
    worths: Vec<u8>,
    /// Room for a key that is moved when the table grows.
    moved_key: Vec<u64>,
}

impl Model for BarrenStates {
    ghost use Rattle.std.specs.Prelude.{◌≡◌, ◌≤◌, length};
    ghost use Rattle.barren_states.specs.States.{States};

    ghost Value = { States };

    ghost view = { λ t. t.slots };

    ghost invariant = { λ t. (t.slots.slots ≤ length t.worths.items)
        × (length t.moved_key.items ≡ t.slots.width) };
}

impl BarrenStates {
    /// An empty table for keys of so many words, with room for as many slots as take so many bytes; the only error is
    /// out of memory.
    pub fn build(alloc: Global, width: usize, room: u64) -> Result<BarrenStates, AllocError>
        requires { width ≤ 1024 }
        ensures empty { IfOk result (λ states.
            (key : List ℕ) (visits : ℕ) → Holds states key visits → ⊥) }
        ensures room { IfOk result (λ states. bytes_of states.most states ≤ room) }
    {
        // (a slot has a key, its visits, and a byte for its worth)
        let most = (room / (width as u64 * 8 + 9)).min(MOST_SLOTS) as usize;
        let slots = Slots::build(alloc, width, most)?;
        let worths = Vec::with_capacity(alloc, most)?;
        let moved_key = vec![in alloc; 0u64; width]?;
        Ok(BarrenStates {
            slots,
            kept: 0,
            worths,
            moved_key,
        })
    }

    /// The visits that are kept of a key, if it is found.
    #[inline(always)]
    pub fn look(&mut self, key: &[u64]) -> Option<u64>
        ensures unchanged { self.new ≡ self.old }
        ensures held { IfSome result (Holds self.old key.now) }
    {
        // (before a first key is kept there are no slots)
        let count = self.slots.count();
        if key.len() != self.slots.width() || count == 0 {
            return None;
        }
        let (first, second) = places_of(hash_of(key), count);
        if let Some(visits) = self.slots.read(first, key) {
            self.worths[first] = worth_of(visits);
            return Some(visits);
        }
        let visits = self.slots.read(second, key)?;
        self.worths[second] = worth_of(visits);
        Some(visits)
    }

    /// Keeps the visits of a key, where it has the width of the table's keys; another key may be lost by that.
    #[inline(always)]
    pub fn keep(&mut self, key: &[u64], visits: u64)
        ensures kept { IsKept self.old key.now visits self.new }
        ensures width { self.new.width ≡ self.old.width }
        ensures most { self.new.most ≡ self.old.most }
        ensures room { self.new.slots ≤ self.new.most }
    {
        // (for what the getter says: that no more are in use than there is room for)
        self.slots.count();
        if key.len() != self.slots.width() {
            return;
        }
        self.grow_if_due();
        // (growing can't fail, since its room is reserved, but no clause says so)
        if self.slots.count() == 0 {
            return;
        }
        let slot = self.slot_for(hash_of(key));
        self.worths[slot] = worth_of(visits);
        self.slots.write(slot, key, visits);
        self.slots.count();
    }

    /// The slot of lesser worth of the two that a key of this hash may have; the other's worth fades.
    #[inline(always)]
    fn slot_for(&mut self, hash: u64) -> usize
        requires { 0 < self.old.slots }
        ensures unchanged { self.new ≡ self.old }
        ensures inside { result < self.old.slots }
    {
        let (first, second) = places_of(hash, self.slots.count());
        let (slot, other) = if self.worths[first] <= self.worths[second] {
            (first, second)
        } else {
            (second, first)
        };
        self.worths[other] = self.worths[other].saturating_sub(1);
        slot
    }

    /// Takes twice as many slots in use, where there is room for them, once a key was kept for each of them; the first
    /// ones at the first key.
    #[inline(always)]
    fn grow_if_due(&mut self)
        ensures width { self.new.width ≡ self.old.width }
        ensures most { self.new.most ≡ self.old.most }
        ensures held { HoldsNoMore self.old self.new }
    {
        if self.kept < self.slots.count() {
            self.kept += 1;
            return;
        }
        // (also if the table is as large as it gets: then the next attempt comes only after as many keys again)
        self.kept = 0;
        self.grow();
    }

    /// Takes twice as many slots in use, or the first ones, or all where there is no room for so many.
    fn grow(&mut self)
        ensures width { self.new.width ≡ self.old.width }
        ensures most { self.new.most ≡ self.old.most }
        ensures held { HoldsNoMore self.old self.new }
    {
        let before = self.slots.count();
        let first = FIRST_BYTES / 8 / (self.slots.width() + 1);
        let count = first.max(before * 2).min(self.slots.most());
        if count <= before {
            return;
        }
        // (worths first: there may be more of them than slots)
        // (the room is there, so neither takes memory)
        if self.worths.resize(count, 0).is_err() {
            return;
        }
        if self.slots.extend(count) {
            self.spread(before);
        }
    }

    /// Moves what so many first slots hold to where it is looked for now.
    fn spread(&mut self, before: usize)
        requires { before ≤ self.old.slots }
        ensures width { self.new.width ≡ self.old.width }
        ensures most { self.new.most ≡ self.old.most }
        ensures held { HoldsNoMore self.old self.new }
    {
        // (the last one first: a key moves up, so what is still to be moved isn't written over but at the very
        // beginning)
        for slot in (0..before).rev() {
            self.shift(slot);
        }
    }

    /// Moves what a slot holds to where it is looked for now, unless both slots there are worth more.
    fn shift(&mut self, slot: usize)
        requires { slot < self.old.slots }
        ensures width { self.new.width ≡ self.old.width }
        ensures slots { self.new.slots ≡ self.old.slots }
        ensures most { self.new.most ≡ self.old.most }
        ensures held { HoldsNoMore self.old self.new }
    {
        let visits = self.slots.copy(slot, &mut self.moved_key);
        if visits == 0 {
            return;
        }
        self.slots.write(slot, &self.moved_key, 0);
        let worth = self.worths[slot];
        self.worths[slot] = 0;
        let (first, second) = places_of(hash_of(&self.moved_key), self.slots.count());
        let place = if self.worths[first] <= self.worths[second] {
            first
        } else {
            second
        };
        if self.worths[place] > worth {
            return;
        }
        self.slots.write(place, &self.moved_key, visits);
        self.worths[place] = worth;
    }
}
