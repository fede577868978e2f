//! Vectors of weights under which each option so far weighs 0: the null space of the options as rows of a matrix, by
//! Gaussian elimination with the vectors as columns.
//!
//! One vector that gives all items together a weight other than 0 excludes an exact cover, as an invariant of colouring
//! does for tilings (the mutilated chessboard, by 1 and -1). Modulo a power of a prime the least multiple that isn't 0
//! is the pivot, so that nothing is divided by what has no inverse.

ghost use Rattle.std.specs.Prelude.{◌≡◌, ◌<◌, ◌≤◌};

use crate::line::{Line, add_line};
use std::alloc::{AllocError, Global};

/// The least multiple of a number, modulo the modulus, that isn't 0, and the factor that makes it.
#[derive(Clone, Copy)]
struct Multiple {
    number: u8,
    factor: u8,
}

/// A vector by which the others are made to weigh 0: its place, and the least multiple of what it weighs.
#[derive(Clone, Copy)]
struct Pivot {
    place: usize,
    multiple: Multiple,
}

/// Vectors of weights modulo a small number: at first of each item alone, then such that each option that was added
/// weighs 0.
#[derive(Drop)]
pub struct NullSpace {
    modulus: u8,
    /// Of each primary item what it weighs in each vector.
    items: Vec<Line>,
    /// What all items weigh in each vector.
    wholes: Line,
    /// What the option weighs that is added.
    sums: Line,
    /// What the pivot's vector is added to the others, and its multiples.
    factors: Line,
    multiples: Line,
    /// What each item weighs in the pivot's vector.
    column: Line,
}

/// The least multiple of a number that isn't 0, for a number that isn't.
fn least_multiple(modulus: u8, number: u8) -> Multiple
    requires { 2 ≤ modulus }
{
    let mut least = Multiple {
        number: modulus,
        factor: 1,
    };
    for factor in 1..modulus {
        let product = (u32::from(number) * u32::from(factor) % u32::from(modulus)) as u8;
        if product != 0 && product < least.number {
            least = Multiple {
                number: product,
                factor,
            };
        }
    }
    least
}

/// The vector whose sum has the least multiple.
fn pivot_of(modulus: u8, sums: &[u8]) -> Option<Pivot>
    requires { 2 ≤ modulus }
{
    let mut best: Option<Pivot> = None;
    for (place, sum) in sums.iter().enumerate() {
        if *sum == 0 {
            continue;
        }
        let multiple = least_multiple(modulus, *sum);
        // (modulo a power of a prime the least of these multiples divides all of them, so its vector can clear each
        // other one)
        let better = match best {
            None => true,
            Some(pivot) => multiple.number < pivot.multiple.number,
        };
        if better {
            best = Some(Pivot { place, multiple });
        }
        if multiple.number == 1 {
            break;
        }
    }
    best
}

/// How often the pivot's vector is to be added to one that weighs this, so that it weighs 0.
fn factor_for(modulus: u8, pivot: Pivot, sum: u8) -> u8
    requires { 2 ≤ modulus }
{
    let modulus = u32::from(modulus);
    // (it is never 0, but no contract says so)
    let quotient = u32::from(sum) / u32::from(pivot.multiple.number.max(1));
    let times = quotient * u32::from(pivot.multiple.factor) % modulus;
    if times == 0 {
        0
    } else {
        (modulus - times) as u8
    }
}

impl NullSpace {
    /// Of each item a vector in which it alone weighs 1; the only error is out of memory.
    pub fn new(alloc: Global, modulus: u8, count: usize) -> Result<NullSpace, AllocError> {
        let mut items = Vec::with_capacity(alloc, count)?;
        for item in 0..count {
            let mut line = Line::zeros(alloc, count)?;
            line.put(item, 1);
            items.push(line)?;
        }
        let mut wholes = Line::zeros(alloc, count)?;
        wholes.fill(1);
        Ok(NullSpace {
            modulus,
            items,
            wholes,
            sums: Line::zeros(alloc, count)?,
            factors: Line::zeros(alloc, count)?,
            multiples: Line::zeros(alloc, count)?,
            column: Line::zeros(alloc, count)?,
        })
    }

    /// Changes the vectors such that an option with these items weighs 0.
    pub fn add(&mut self, option: &[u16]) {
        let modulus = self.modulus;
        if modulus < 2 {
            return;
        }
        self.weigh(option);
        let Some(pivot) = pivot_of(modulus, self.sums.as_slice()) else {
            return;
        };
        self.set_factors(modulus, pivot);
        // (a copy, since the pivot's own weights change, too, while they are read)
        self.take_column(pivot.place);
        let whole = self.wholes.at(pivot.place);
        self.multiples.fill(0);
        for times in 1..modulus {
            add_line(
                modulus,
                self.multiples.as_mut_slice(),
                self.factors.as_slice(),
            );
            if whole == times {
                add_line(
                    modulus,
                    self.wholes.as_mut_slice(),
                    self.multiples.as_slice(),
                );
            }
            self.add_multiple(modulus, times);
        }
    }

    /// What the items of an option weigh together, in each vector.
    fn weigh(&mut self, option: &[u16]) {
        self.sums.fill(0);
        for item in option {
            if let Some(line) = self.items.get(*item as usize) {
                add_line(self.modulus, self.sums.as_mut_slice(), line.as_slice());
            }
        }
    }

    /// How often the pivot's vector is added to each: to itself so often that it weighs 0.
    fn set_factors(&mut self, modulus: u8, pivot: Pivot)
        requires { 2 ≤ modulus }
    {
        for (place, sum) in self.sums.as_slice().iter().enumerate() {
            self.factors.put(place, factor_for(modulus, pivot, *sum));
        }
        let order = modulus / pivot.multiple.number.max(1);
        self.factors.put(pivot.place, order.saturating_sub(1));
    }

    /// What each item weighs in a vector.
    fn take_column(&mut self, place: usize) {
        for (item, line) in self.items.iter().enumerate() {
            self.column.put(item, line.at(place));
        }
    }

    /// Adds the multiples to the items that weigh so much in the pivot's vector.
    fn add_multiple(&mut self, modulus: u8, times: u8) {
        for (line, weight) in self.items.iter_mut().zip(self.column.as_slice()) {
            if *weight == times {
                add_line(modulus, line.as_mut_slice(), self.multiples.as_slice());
            }
        }
    }

    /// Whether all items weigh something in one of the vectors.
    pub fn has_whole(&self) -> bool {
        self.wholes.as_slice().iter().any(|whole| *whole != 0)
    }

    /// The vector in which all items weigh something and fewest weigh something.
    pub fn best(&self, alloc: Global) -> Result<Option<usize>, AllocError> {
        let mut counts: Vec<u16> = vec![in alloc; 0; self.wholes.as_slice().len()]?;
        for line in &self.items {
            count_weights(&mut counts, line.as_slice());
        }
        let mut best: Option<usize> = None;
        let mut least = u16::MAX;
        for (place, whole) in self.wholes.as_slice().iter().enumerate() {
            if *whole != 0 && place < counts.len() && counts[place] < least {
                best = Some(place);
                least = counts[place];
            }
        }
        Ok(best)
    }

    /// What each item weighs in a vector.
    pub fn vector(&self, alloc: Global, place: usize) -> Result<Vec<u16>, AllocError> {
        let mut list = Vec::with_capacity(alloc, self.items.len())?;
        for line in &self.items {
            list.push(u16::from(line.at(place)))?;
        }
        Ok(list)
    }
}

/// Counts in which vectors an item weighs something.
fn count_weights(counts: &mut [u16], line: &[u8]) {
    let count = counts.len().min(line.len());
    for place in 0..count {
        if line[place] != 0 {
            counts[place] = counts[place].saturating_add(1);
        }
    }
}
