//! Rows of sets that are numbered: of the items, and of the pairs of an item and a colour.

ghost use Rattle.std.specs.Prelude.{◌≡◌, ℕ, ◌+◌, ◌<◌, ◌≤◌, Bool, [], length, replicate, IfOk, OnOk};
ghost use Rattle.std.specs.List.{All};
ghost use Rattle.option_sets.specs.Rows.{AreRowsBy, AreRowsOf, with_option};

use crate::lists::Tints;
use crate::row::Row;
use cover_problem::Problem;
use std::alloc::{AllocError, Global};

/// So many empty sets; the only error is out of memory.
fn empty_rows(alloc: Global, count: usize) -> Result<Vec<Row>, AllocError>
    ensures { IfOk result (λ rows. rows.items ≡ replicate count []) }
{
    let mut rows = Vec::with_capacity(alloc, count)?;
    for _row in 0..count {
        rows.push(Row::new(alloc))?;
    }
    Ok(rows)
}

/// Of each item the options that name it; the only error is out of memory.
pub fn rows_of_items(alloc: Global, problem: &Problem) -> Result<Vec<Row>, AllocError>
    ensures { IfOk result
        (λ rows. AreRowsOf problem.now.options (length problem.now.names) rows.items) }
{
    let mut rows = empty_rows(alloc, problem.items())?;
    // (ascending, since a row takes an option only behind all that it has)
    for option in 0..problem.options() as u16 {
        add_items(&mut rows, option, problem.option(option))?;
    }
    Ok(rows)
}

/// Adds an option to the sets of its items.
fn add_items(rows: &mut [Row], option: u16, items: &[u16]) -> Result<(), AllocError>
    requires { All (λ i. i < length rows.old) items.now }
    ensures { OnOk result ((n : ℕ) (has : ℕ → ℕ → Bool) → n ≤ option + 1 → AreRowsBy n has rows.old
        → AreRowsBy (option + 1) (with_option has option items.now) rows.new) }
{
    for item in items {
        rows[*item as usize].add(option)?;
    }
    Ok(())
}

/// Of each tint the options that have it, by the tints of each option; the only error is out of memory.
pub fn rows_of_tints(alloc: Global, count: usize, lists: &[Tints]) -> Result<Vec<Row>, AllocError>
    requires few { length lists.now < 65536 }
    requires inside { All (λ tints. All (λ t. t < count) tints) lists.now }
    ensures { IfOk result (λ rows. AreRowsOf lists.now count rows.items) }
{
    let mut rows = empty_rows(alloc, count)?;
    for option in 0..lists.len() {
        add_tints(&mut rows, option as u16, lists[option].as_slice())?;
    }
    Ok(rows)
}

/// Adds an option to the sets of its tints.
fn add_tints(rows: &mut [Row], option: u16, tints: &[u32]) -> Result<(), AllocError>
    requires { All (λ t. t < length rows.old) tints.now }
    ensures { OnOk result ((n : ℕ) (has : ℕ → ℕ → Bool) → n ≤ option + 1 → AreRowsBy n has rows.old
        → AreRowsBy (option + 1) (with_option has option tints.now) rows.new) }
{
    for tint in tints {
        rows[*tint as usize].add(option)?;
    }
    Ok(())
}
