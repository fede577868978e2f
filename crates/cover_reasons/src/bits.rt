//! Sets of small numbers, 64 to a word.

ghost use Rattle.std.specs.Prelude.{◌≡◌, ◌<◌};

use std::alloc::{AllocError, Global};

/// A set of numbers below a bound.
#[derive(Drop)]
pub struct Bits {
    words: Vec<u64>,
}

impl Bits {
    /// The empty set of numbers below a bound; the only error is out of memory.
    pub fn empty(alloc: Global, bound: usize) -> Result<Bits, AllocError> {
        Ok(Bits {
            words: vec![in alloc; 0; bound / 64 + 1]?,
        })
    }

    /// Whether the number is in the set.
    pub fn has(&self, number: usize) -> bool {
        match self.words.get(number / 64) {
            Some(word) => (*word >> (number % 64)) & 1 != 0,
            None => false,
        }
    }

    /// Puts a number into the set, if it is below the bound.
    pub fn insert(&mut self, number: usize) {
        let place = number / 64;
        if place < self.words.len() {
            self.words[place] |= 1 << (number % 64);
        }
    }

    /// Takes a number out of the set.
    pub fn remove(&mut self, number: usize) {
        let place = number / 64;
        if place < self.words.len() {
            self.words[place] &= !(1 << (number % 64));
        }
    }

    /// Takes all numbers out of the set.
    pub fn clear(&mut self) {
        for place in 0..self.words.len() {
            self.words[place] = 0;
        }
    }

    /// Puts the numbers of another set into this one.
    pub fn unite(&mut self, other: &Bits) {
        let count = self.words.len().min(other.words.len());
        for place in 0..count {
            self.words[place] |= other.words[place];
        }
    }

    /// Takes the numbers out of this set that another one doesn't have.
    pub fn cut(&mut self, other: &Bits) {
        let count = self.words.len().min(other.words.len());
        for place in 0..count {
            self.words[place] &= other.words[place];
        }
    }

    /// How many numbers both sets have.
    pub fn common(&self, other: &Bits) -> u32 {
        let count = self.words.len().min(other.words.len());
        let mut common: u32 = 0;
        for place in 0..count {
            let both = self.words[place] & other.words[place];
            common = common.saturating_add(both.count_ones());
        }
        common
    }

    /// How many numbers the set has.
    pub fn count(&self) -> u32 {
        self.common(self)
    }

    /// How many words the set has.
    pub fn words(&self) -> usize {
        self.words.len()
    }

    /// The least number of the set.
    pub fn first(&self) -> Option<usize> {
        for place in 0..self.words.len() {
            let word = self.words[place];
            if word != 0 {
                return Some(least_in(place, word));
            }
        }
        None
    }

    /// The least number of the set that another one doesn't have.
    pub fn first_outside(&self, other: &Bits) -> Option<usize> {
        let count = self.words.len().min(other.words.len());
        for place in 0..count {
            let left = self.words[place] & !other.words[place];
            if left != 0 {
                return Some(least_in(place, left));
            }
        }
        None
    }
}

/// The least number that the word at a place has, which isn't 0.
fn least_in(place: usize, word: u64) -> usize {
    // (the numbers are those of items or of options, 20,000 at most, so nothing wraps, but no contract says so)
    place
        .wrapping_mul(64)
        .wrapping_add(word.trailing_zeros() as usize)
}
