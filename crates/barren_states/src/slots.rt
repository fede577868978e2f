//! Slots of keys of one width, each with its visits.

ghost use Rattle.std.specs.Prelude.{◌≡◌, ℕ, ◌+◌, ◌*◌, ◌<◌, ◌≤◌, List, length, IfOk, IfSome, IsTrue, true, false};
ghost use Rattle.barren_states.specs.States.{Holds, HoldsNoMore, IsKept};

use crate::slot::write_slot;
use std::alloc::{AllocError, Global};
use std::marker::Model;

/// Slots of keys of one width. Only `build` takes memory.
#[derive(Drop)]
pub(crate) struct Slots {
    /// How many words a key has.
    width: usize,
    /// How many slots are in use.
    count: usize,
    /// The most slots that there is room for.
    most: usize,
    /// The slots: each is a key and its visits, 0 where it is empty.
    words: Vec<u64>,
}

impl Model for Slots {
    ghost use Rattle.std.specs.Prelude.{◌≡◌, ◌≤◌, ◌+◌, ◌*◌, length};
    ghost use Rattle.barren_states.specs.States.{States};

    ghost Value = { States };

    ghost view = { λ t. record { width = t.width; slots = t.count; most = t.most; words = t.words.items } };

    ghost invariant = { λ t. (length t.words.items ≡ t.count * (t.width + 1))
        × (t.width ≤ 1024) × (t.count ≤ t.most) × (t.most ≤ 4294967296) };
}

impl Slots {
    /// No slots yet, with room for so many; the only error is out of memory.
    pub(crate) fn build(alloc: Global, width: usize, most: usize) -> Result<Slots, AllocError>
        requires width { width ≤ 1024 }
        requires most { most ≤ 4294967296 }
        ensures width { IfOk result (λ slots. slots.width ≡ width) }
        ensures none { IfOk result (λ slots. slots.slots ≡ 0) }
        ensures most { IfOk result (λ slots. slots.most ≡ most) }
    {
        // (at most 2^32 slots of 1,025 words, so the product can't overflow)
        // (reserved and not filled: memory costs time only once it is touched)
        let words = Vec::with_capacity(alloc, most * (width + 1))?;
        Ok(Slots {
            width,
            count: 0,
            most,
            words,
        })
    }

    /// How many words a key has.
    #[inline(always)]
    pub(crate) fn width(&self) -> usize
        ensures width { result ≡ self.now.width }
        ensures few { result ≤ 1024 }
    {
        self.width
    }

    /// How many slots are in use.
    #[inline(always)]
    pub(crate) fn count(&self) -> usize
        ensures count { result ≡ self.now.slots }
        ensures few { result ≤ 4294967296 }
        ensures most { result ≤ self.now.most }
    {
        self.count
    }

    /// The most slots that there is room for.
    #[inline(always)]
    pub(crate) fn most(&self) -> usize
        ensures most { result ≡ self.now.most }
        ensures few { result ≤ 4294967296 }
    {
        self.most
    }

    /// The visits in a slot, if the key is there.
    #[inline(always)]
    pub(crate) fn read(&self, slot: usize, key: &[u64]) -> Option<u64>
        requires slot { slot < self.now.slots }
        requires key { length key.now ≡ self.now.width }
        ensures { IfSome result (Holds self.now key.now) }
    {
        let start = slot * (self.width + 1);
        let visits = self.words[start + self.width];
        // (the whole key is compared: by its hash alone a state with a cover could pass for a barren one)
        if visits != 0 && &self.words[start..start + self.width] == key {
            Some(visits)
        } else {
            None
        }
    }

    /// Copies the key that a slot has, and answers its visits: 0 where it is empty.
    pub(crate) fn copy(&self, slot: usize, key: &mut [u64]) -> u64
        requires slot { slot < self.now.slots }
        requires key { length key.old ≡ self.now.width }
        ensures { 1 ≤ result → Holds self.now key.new result }
    {
        let start = slot * (self.width + 1);
        key.copy_from_slice(&self.words[start..start + self.width]);
        self.words[start + self.width]
    }

    /// Writes a key and its visits into a slot.
    #[inline(always)]
    pub(crate) fn write(&mut self, slot: usize, key: &[u64], visits: u64)
        requires slot { slot < self.old.slots }
        requires key { length key.now ≡ self.old.width }
        ensures width { self.new.width ≡ self.old.width }
        ensures slots { self.new.slots ≡ self.old.slots }
        ensures most { self.new.most ≡ self.old.most }
        ensures kept { IsKept self.old key.now visits self.new }
    {
        let start = slot * (self.width + 1);
        write_slot(&mut self.words, start, key, visits);
    }

    /// Takes so many slots in use. Answers whether it did: there is room for them, but no clause says so.
    pub(crate) fn extend(&mut self, count: usize) -> bool
        requires more { self.old.slots ≤ count }
        requires room { count ≤ self.old.most }
        ensures width { self.new.width ≡ self.old.width }
        ensures most { self.new.most ≡ self.old.most }
        ensures slots { IsTrue result → self.new.slots ≡ count }
        ensures few { self.new.slots ≤ count }
        ensures held { HoldsNoMore self.old self.new }
    {
        let is_extended = self.words.resize(count * (self.width + 1), 0).is_ok();
        if is_extended {
            self.count = count;
        }
        is_extended
    }
}
