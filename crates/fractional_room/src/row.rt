//! Rows of whole numbers.

ghost use Rattle.std.specs.Prelude.{◌≡◌};

use std::alloc::{AllocError, Global};

/// Numbers side by side, 0 past the end.
#[derive(Drop)]
pub struct Row {
    numbers: Vec<u16>,
}

impl Row {
    /// So many zeros; the only error is out of memory.
    pub fn zeros(alloc: Global, count: usize) -> Result<Row, AllocError> {
        Ok(Row {
            numbers: vec![in alloc; 0; count]?,
        })
    }

    /// The number at a place, 0 past the end.
    #[inline(always)]
    pub fn at(&self, place: usize) -> u16 {
        match self.numbers.get(place) {
            Some(number) => *number,
            None => 0,
        }
    }

    /// Puts a number at a place, if there is one.
    #[inline(always)]
    pub fn put(&mut self, place: usize, number: u16) {
        if place < self.numbers.len() {
            self.numbers[place] = number;
        }
    }

    /// Puts 0 at each place.
    pub fn clear(&mut self) {
        for place in 0..self.numbers.len() {
            self.numbers[place] = 0;
        }
    }

    /// Adds these to the first numbers, each sum up to 65,535.
    pub fn add(&mut self, more: &[u16]) {
        let count = self.numbers.len().min(more.len());
        for place in 0..count {
            self.numbers[place] = self.numbers[place].saturating_add(more[place]);
        }
    }

    /// The numbers, as a list.
    pub fn into_vec(self) -> Vec<u16> {
        let Row { numbers } = self;
        numbers
    }
}
