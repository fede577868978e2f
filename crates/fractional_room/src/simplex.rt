//! The simplex method, in its first phase: what is missing of the primary items' options is made as little as it can
//! be.
//!
//! The inverse of the basis is kept as a whole, as a line for each of its columns, in 8 bytes for each pair of rows: at
//! most 8,000,000 for the 1,000 items of a file. The basis itself needn't be known: no column in it gains anything, and
//! what is missing of a primary item never enters again. (Where it may, needs are 1 and rooms 2 at most before they are
//! scaled, but in quasigroups it took up to five times as many pivots.)
//!
//! All right sides are 1, so nearly every pivot would leave what is missing as it is, and the method might turn in a
//! circle. So each is a little more, by another amount (Charnes, "Optimality and degeneracy in linear programming",
//! 1952). Amounts up to 0.001 and up to 0.000001 took as many pivots; larger ones come near to what is missing at the
//! end, 0.4 in one of 43 problems. Bland's rule takes no part: rounding could break its proof that the method ends, so
//! whoever calls `pivot` counts.

ghost use Rattle.std.specs.Prelude.{◌≡◌};

use crate::entering::entering_from;
use crate::line::Line;
use crate::relaxation::Relaxation;
use crate::rounded::Rounded;
use cover_problem::Problem;
use std::alloc::{AllocError, Global};

/// How much more than 1 a right side is at most. A hundred times as much or a tenth took as many pivots, as the head
/// says.
const SHIFT: f64 = 1e-5;

/// By how much the shift of a row differs from that of the row before it, of all the shift: the golden ratio spreads
/// them evenly (Knuth, The Art of Computer Programming, 6.4).
const SPREAD: f64 = 0.618_033_988_749_894_8;

/// What is missing is taken for nothing from here on down: a tenth of `SHIFT`. Chosen, not measured.
const LEAST_MISSING: f64 = 1e-6;

/// A number by which a pivot divides is more than that, lest errors of rounding grow. Of the order of LP solvers' pivot
/// tolerances; chosen, not measured.
const LEAST_PIVOT: f64 = 1e-7;

/// A number of the inverse below that is taken for an error of rounding: some thousand times that of a 64-bit number
/// near 1. Chosen, not measured.
const LEAST_NUMBER: f64 = 1e-12;

/// What came of a pivot.
#[derive(Clone, Copy, Debug, PartialEq, Eq)]
pub enum Progress {
    /// One more was made.
    Going,
    /// Nothing is missing: the relaxation has a solution, as far as rounding lets one see.
    Feasible,
    /// Something is missing, and no column gains anything: the prices are multipliers.
    Infeasible,
    /// Rounding has spoilt the numbers.
    Lost,
}

/// The state between two pivots.
#[derive(Drop)]
pub struct Simplex {
    relaxation: Relaxation,
    /// The columns of the inverse of the basis, as far as they have been added.
    inverse: Vec<Line>,
    /// What one more of each right side would add to what is missing.
    prices: Line,
    /// Of each row how much of its column is taken.
    levels: Line,
    /// The column that enters, as the basis makes it up.
    column: Line,
    /// The column that is looked at next.
    next: usize,
    /// How many numbers were changed.
    steps: usize,
}

/// The first prices: 1 of each row of a primary item.
fn first_prices(alloc: Global, relaxation: &Relaxation) -> Result<Line, AllocError> {
    let mut prices = Line::zeros(alloc, relaxation.rows())?;
    for row in 0..relaxation.primary() {
        prices.put(row, 1.0);
    }
    Ok(prices)
}

/// The right sides.
fn first_levels(alloc: Global, count: usize) -> Result<Line, AllocError> {
    let mut levels = Line::zeros(alloc, count)?;
    let mut part = 0.0;
    for row in 0..count {
        levels.put(row, 1.0 + SHIFT * part);
        part += SPREAD;
        if part >= 1.0 {
            part -= 1.0;
        }
    }
    Ok(levels)
}

impl Simplex {
    /// The first basis of a problem's relaxation, without its inverse: `add_line` adds a line of that, once for each of
    /// `rows`, before the first pivot. The only error is out of memory: it takes 2 bytes for each item of an option,
    /// and with its inverse 8 for each pair of items.
    pub fn new(alloc: Global, problem: &Problem) -> Result<Simplex, AllocError> {
        let relaxation = Relaxation::new(alloc, problem)?;
        let rows = relaxation.rows();
        let prices = first_prices(alloc, &relaxation)?;
        Ok(Simplex {
            relaxation,
            inverse: Vec::with_capacity(alloc, rows)?,
            prices,
            levels: first_levels(alloc, rows)?,
            column: Line::zeros(alloc, rows)?,
            next: 0,
            steps: 0,
        })
    }

    /// How many rows there are.
    pub fn rows(&self) -> usize {
        self.relaxation.rows()
    }

    /// Adds the next line of the inverse of the first basis, in which all is missing; the only error is out of memory.
    /// (All lines together take longer than a thousandth of a second, so whoever adds them can end that.)
    pub fn add_line(&mut self, alloc: Global) -> Result<(), AllocError> {
        let mut line = Line::zeros(alloc, self.relaxation.rows())?;
        line.put(self.inverse.len(), 1.0);
        self.inverse.push(line)?;
        Ok(())
    }

    /// How many numbers were changed so far, about two in a thousandth of a millionth of a second.
    pub fn steps(&self) -> usize {
        self.steps
    }

    /// Lets a column that gains something enter the basis, if there is one.
    pub fn pivot(&mut self) -> Progress {
        if self.prices.sum() < LEAST_MISSING {
            return Progress::Feasible;
        }
        let found = entering_from(&self.relaxation, &self.prices, &mut self.next);
        let Some(entering) = found else {
            return Progress::Infeasible;
        };
        self.make_column(entering.column);
        let Some(row) = self.leaving() else {
            return Progress::Lost;
        };
        self.exchange(row, entering.gain);
        Progress::Going
    }

    /// Makes up the column that enters.
    fn make_column(&mut self, place: usize) {
        self.column.clear();
        for row in self.relaxation.column(place) {
            if let Some(line) = self.inverse.get(*row as usize) {
                self.column.add_times(1.0, line);
            }
        }
    }

    /// The row whose column is the first that is used up.
    fn leaving(&self) -> Option<usize> {
        let mut first: Option<usize> = None;
        let mut least = 0.0;
        for row in 0..self.relaxation.rows() {
            let number = self.column.at(row);
            if number > LEAST_PIVOT {
                let level = self.levels.at(row) / number;
                if first.is_none() || level < least {
                    least = level;
                    first = Some(row);
                }
            }
        }
        first
    }

    /// Lets the column enter in the place of a row's.
    fn exchange(&mut self, row: usize, gain: f64) {
        let pivot = self.column.at(row);
        // (one less, so that the row itself changes as all others do: from so much to its part of the pivot)
        self.column.put(row, pivot - 1.0);
        for (place, line) in self.inverse.iter_mut().enumerate() {
            let part = line.at(row) / pivot;
            if part.abs() > LEAST_NUMBER {
                line.add_times(-part, &self.column);
                let price = self.prices.at(place);
                self.prices.put(place, price - part * gain);
                self.steps = self.steps.saturating_add(self.relaxation.rows());
            }
        }
        let part = self.levels.at(row) / pivot;
        self.levels.add_times(-part, &self.column);
    }

    /// The prices so many times and rounded: needs down, rooms up. So an option whose items have as much room as they
    /// need has it still, and all needs stay more than all rooms if the scale is large enough. The only error is out of
    /// memory.
    pub fn rounded(
        &self,
        alloc: Global,
        problem: &Problem,
        scale: u16,
    ) -> Result<Rounded, AllocError> {
        let mut rounded = Rounded::new(alloc, problem)?;
        for (row, item) in self.relaxation.items().iter().enumerate() {
            rounded.set(*item as usize, self.prices.at(row) * f64::from(scale));
        }
        Ok(rounded)
    }
}
