//! Lines of numbers modulo a small number.

ghost use Rattle.std.specs.Prelude.{◌≡◌};

use std::alloc::{AllocError, Global};

/// Numbers below a modulus, side by side.
#[derive(Drop)]
pub struct Line {
    numbers: Vec<u8>,
}

impl Line {
    /// So many zeros; the only error is out of memory.
    pub fn zeros(alloc: Global, count: usize) -> Result<Line, AllocError> {
        Ok(Line {
            numbers: vec![in alloc; 0; count]?,
        })
    }

    /// The numbers.
    pub fn as_slice(&self) -> &[u8] {
        &self.numbers
    }

    /// The numbers, to be changed.
    pub fn as_mut_slice(&mut self) -> &mut [u8] {
        &mut self.numbers
    }

    /// The number at a place, 0 past the end.
    pub fn at(&self, place: usize) -> u8 {
        match self.numbers.get(place) {
            Some(number) => *number,
            None => 0,
        }
    }

    /// Puts a number at a place, if there is one.
    pub fn put(&mut self, place: usize, number: u8) {
        if place < self.numbers.len() {
            self.numbers[place] = number;
        }
    }

    /// Puts the same number at each place.
    pub fn fill(&mut self, number: u8) {
        for place in 0..self.numbers.len() {
            self.numbers[place] = number;
        }
    }
}

/// Adds to each number the one beside it, where all are below the modulus.
pub fn add_line(modulus: u8, numbers: &mut [u8], more: &[u8]) {
    let count = numbers.len().min(more.len());
    for place in 0..count {
        let sum = numbers[place].wrapping_add(more[place]);
        // (of a sum below the modulus the difference wraps and is greater: so the lesser is the remainder, without a
        // branch)
        numbers[place] = sum.min(sum.wrapping_sub(modulus));
    }
}
