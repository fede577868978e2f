//! The linear relaxation of a problem as a sparse matrix.

use crate::row::Row;
use cover_problem::Problem;
use std::alloc::{AllocError, Global};

/// The mark of an item that has no row.
const NO_ROW: u16 = u16::MAX;

/// The columns of the matrix, each as the rows in which it has a 1, all others being 0: first those of the options,
/// then for each row of a secondary item the one of the part of it that no option takes.
#[derive(Drop)]
pub(crate) struct Relaxation {
    /// The items that have rows, in order: primary ones, then those secondary ones that are limited.
    items: Vec<u16>,
    /// How many of them are primary.
    primary: usize,
    /// The rows of all columns, one column behind the other.
    members: Vec<u16>,
    /// Where each column begins, and where the last one ends.
    starts: Vec<usize>,
}

/// Of each item how many options name it without a colour, but of one that some option gives a colour none: such an
/// item may be in any number of options.
fn uses_of(alloc: Global, problem: &Problem) -> Result<Row, AllocError> {
    let mut uses = Row::zeros(alloc, problem.items())?;
    for option in 0..problem.options() as u16 {
        count_uses(&mut uses, problem.option(option), problem.colours(option));
    }
    Ok(uses)
}

/// Counts the items of an option, `NO_ROW` for one with a colour.
fn count_uses(uses: &mut Row, items: &[u16], colours: &[u16]) {
    for (item, colour) in items.iter().zip(colours) {
        let place = *item as usize;
        let count = uses.at(place);
        if *colour != 0 || count == NO_ROW {
            uses.put(place, NO_ROW);
        } else {
            // (options are less than 65,535 or else the item is taken for one with a colour, which is safe)
            uses.put(place, count.saturating_add(1));
        }
    }
}

/// The items that have rows: each primary one, and the secondary ones that two options name at least and none with a
/// colour.
fn limited_items(alloc: Global, problem: &Problem, uses: &Row) -> Result<Vec<u16>, AllocError> {
    let mut items = Vec::new(alloc);
    for item in 0..problem.items() as u16 {
        let count = uses.at(item as usize);
        if (item as usize) < problem.primary() || (count >= 2 && count != NO_ROW) {
            items.push(item)?;
        }
    }
    Ok(items)
}

/// Of each item its row.
fn rows_of(alloc: Global, problem: &Problem, items: &[u16]) -> Result<Row, AllocError> {
    let mut rows = Row::zeros(alloc, problem.items())?;
    for item in 0..problem.items() {
        rows.put(item, NO_ROW);
    }
    for (row, item) in items.iter().enumerate() {
        rows.put(*item as usize, row.min(NO_ROW as usize) as u16);
    }
    Ok(rows)
}

impl Relaxation {
    /// The relaxation of a problem; the only error is out of memory.
    pub(crate) fn new(alloc: Global, problem: &Problem) -> Result<Relaxation, AllocError> {
        let uses = uses_of(alloc, problem)?;
        let items = limited_items(alloc, problem, &uses)?;
        let rows = rows_of(alloc, problem, &items)?;
        let mut made = Relaxation {
            items,
            primary: problem.primary(),
            members: Vec::new(alloc),
            starts: vec![in alloc; 0; 1]?,
        };
        made.add_options(problem, &rows)?;
        made.add_slacks()?;
        Ok(made)
    }

    /// Adds the options.
    fn add_options(&mut self, problem: &Problem, rows: &Row) -> Result<(), AllocError> {
        for option in 0..problem.options() as u16 {
            self.add_members(rows, problem.option(option))?;
            self.starts.push(self.members.len())?;
        }
        Ok(())
    }

    /// Adds the rows of an option's items.
    fn add_members(&mut self, rows: &Row, items: &[u16]) -> Result<(), AllocError> {
        for item in items {
            let row = rows.at(*item as usize);
            if row != NO_ROW {
                self.members.push(row)?;
            }
        }
        Ok(())
    }

    /// Adds a column for each row of a secondary item.
    fn add_slacks(&mut self) -> Result<(), AllocError> {
        for row in self.primary..self.items.len() {
            self.members.push(row.min(NO_ROW as usize) as u16)?;
            self.starts.push(self.members.len())?;
        }
        Ok(())
    }

    /// How many rows there are.
    pub(crate) fn rows(&self) -> usize {
        self.items.len()
    }

    /// The items of the rows, in order.
    pub(crate) fn items(&self) -> &[u16] {
        &self.items
    }

    /// How many rows are those of primary items, the first ones.
    pub(crate) fn primary(&self) -> usize {
        self.primary
    }

    /// How many columns there are.
    pub(crate) fn columns(&self) -> usize {
        self.starts.len().saturating_sub(1)
    }

    /// The rows of a column, none past the last one.
    pub(crate) fn column(&self, place: usize) -> &[u16] {
        let start = start_at(&self.starts, place);
        let end = start_at(&self.starts, place.saturating_add(1));
        match self.members.get(start..end) {
            Some(rows) => rows,
            None => &[],
        }
    }
}

/// Where a column begins, 0 past the last one.
fn start_at(starts: &[usize], place: usize) -> usize {
    match starts.get(place) {
        Some(start) => *start,
        None => 0,
    }
}
