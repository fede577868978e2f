//! The literals of causes, and their hints.

use crate::layout::Layout;
use crate::packed::Packed;
use crate::store::Store;
use crate::trail::Cause;
use implied_clauses::Hint;
use std::alloc::AllocError;

/// Writes the literals of a clause, but for one, in place of what the list held. The only error is out of memory.
pub fn write_row(
    layout: &Layout,
    store: &Store,
    cause: Cause,
    implied: Packed,
    row: &mut Vec<Packed>,
) -> Result<(), AllocError> {
    row.clear();
    match cause {
        Cause::Decision => Ok(()),
        Cause::Clash(first, second) => {
            push_other(Packed::left(first), implied, row)?;
            push_other(Packed::left(second), implied, row)
        }
        Cause::Item(item) => push_options(layout, item, implied, row),
        Cause::Clause(number) => push_clause(store, number, implied, row),
    }
}

/// Adds a literal, unless it is the implied one.
#[inline(always)]
fn push_other(literal: Packed, implied: Packed, row: &mut Vec<Packed>) -> Result<(), AllocError> {
    if literal != implied {
        row.push(literal)?;
    }
    Ok(())
}

fn push_options(
    layout: &Layout,
    item: u16,
    implied: Packed,
    row: &mut Vec<Packed>,
) -> Result<(), AllocError> {
    for naming in layout.options_of(item) {
        push_other(Packed::chosen(naming.number), implied, row)?;
    }
    Ok(())
}

fn push_clause(
    store: &Store,
    number: u32,
    implied: Packed,
    row: &mut Vec<Packed>,
) -> Result<(), AllocError> {
    for literal in store.row(number) {
        push_other(*literal, implied, row)?;
    }
    Ok(())
}

/// Returns the hint that names a clause, if there is one.
pub fn hint_of(store: &Store, cause: Cause) -> Option<Hint> {
    match cause {
        Cause::Decision => None,
        Cause::Clash(first, second) => Some(Hint::Clash(first, second)),
        // (the kernel has the clause of each primary item at the item's place)
        Cause::Item(item) => Some(Hint::Clause(u32::from(item))),
        Cause::Clause(number) => Some(Hint::Clause(store.clause(number).place)),
    }
}
