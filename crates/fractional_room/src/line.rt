//! Lines of floating-point numbers.

ghost use Rattle.std.specs.Prelude.{◌≡◌};

use std::alloc::{AllocError, Global};

/// Numbers side by side, 0 past the end.
#[derive(Drop)]
pub(crate) struct Line {
    numbers: Vec<f64>,
}

impl Line {
    /// So many zeros; the only error is out of memory.
    pub(crate) fn zeros(alloc: Global, count: usize) -> Result<Line, AllocError> {
        Ok(Line {
            numbers: vec![in alloc; 0.0; count]?,
        })
    }

    /// The number at a place, 0 past the end.
    pub(crate) fn at(&self, place: usize) -> f64 {
        match self.numbers.get(place) {
            Some(number) => *number,
            None => 0.0,
        }
    }

    /// Puts a number at a place, if there is one.
    pub(crate) fn put(&mut self, place: usize, number: f64) {
        if place < self.numbers.len() {
            self.numbers[place] = number;
        }
    }

    /// Puts 0 at each place.
    pub(crate) fn clear(&mut self) {
        for place in 0..self.numbers.len() {
            self.numbers[place] = 0.0;
        }
    }

    /// All numbers added up.
    pub(crate) fn sum(&self) -> f64 {
        let mut sum = 0.0;
        for number in &self.numbers {
            sum += *number;
        }
        sum
    }

    /// Adds to each number so many times the one of another line beside it.
    pub(crate) fn add_times(&mut self, factor: f64, more: &Line) {
        let count = self.numbers.len().min(more.numbers.len());
        for place in 0..count {
            self.numbers[place] += factor * more.numbers[place];
        }
    }
}
