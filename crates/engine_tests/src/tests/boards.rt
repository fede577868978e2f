//! Boards without two opposite corners, for dominoes, which can't fill them.

use std::alloc::Global;
use std::process::Abort;

/// Whether a cell is on a board whose last one, like the first, is cut out.
fn is_on(rows: u16, columns: u16, row: u16, column: u16) -> bool {
    let is_first = row == 0 && column == 0;
    let is_last = row >= rows.saturating_sub(1) && column >= columns.saturating_sub(1);
    !is_first && !is_last
}

/// An option of two cells, if both are on the board.
fn push_domino<R: Abort>(
    rt: &R,
    text: &mut String,
    (rows, columns): (u16, u16),
    (row, column): (u16, u16),
    (other_row, other_column): (u16, u16),
) {
    if is_on(rows, columns, row, column) && is_on(rows, columns, other_row, other_column) {
        write!(text, "\n{row}.{column} {other_row}.{other_column}").expect(rt, "memory");
    }
}

/// Dominoes on a board of so many rows and columns.
pub fn board<R: Abort>(rt: &R, alloc: Global, rows: u16, columns: u16) -> String {
    let mut text = String::new(alloc);
    for row in 0..rows {
        for column in 0..columns {
            if is_on(rows, columns, row, column) {
                write!(text, "{row}.{column} ").expect(rt, "memory");
            }
        }
    }
    for row in 0..rows {
        for column in 1..columns {
            push_domino(
                rt,
                &mut text,
                (rows, columns),
                (row, column - 1),
                (row, column),
            );
        }
    }
    for row in 1..rows {
        for column in 0..columns {
            push_domino(
                rt,
                &mut text,
                (rows, columns),
                (row - 1, column),
                (row, column),
            );
        }
    }
    text
}
