//! Texts of problems, by a number.

use std::alloc::{AllocError, Global};

/// The cells of a T in its four directions, by row and column.
static SHAPES: [[(u8, u8); 4]; 4] = [
    [(0, 0), (0, 1), (0, 2), (1, 1)],
    [(1, 0), (1, 1), (1, 2), (0, 1)],
    [(0, 0), (1, 0), (2, 0), (1, 1)],
    [(0, 1), (1, 1), (2, 1), (1, 0)],
];

/// Pairs of the numbers from 1 to `size`, those of d with d places between them.
pub fn langford(alloc: Global, size: u8) -> Result<String, AllocError> {
    let size = u32::from(size);
    let places = 2 * size;
    let mut text = String::new(alloc);
    for number in 1..=size {
        text.push_str(format!(in alloc; "{number} ")?.as_str())?;
    }
    for place in 1..=places {
        text.push_str(format!(in alloc; "s{place} ")?.as_str())?;
    }
    for number in 1..=size {
        for place in 1..=places {
            if place + number + 1 <= places {
                text.push_str(format!(in alloc;
                    "\n{number} s{place} s{}",
                    place + number + 1
                )?.as_str())?;
            }
        }
    }
    Ok(text)
}

/// Whether a cell is on the board without two opposite corners.
fn is_on(size: u32, row: u32, column: u32) -> bool {
    row < size && column < size && (row, column) != (0, 0) && (row, column) != (size - 1, size - 1)
}

/// A board without two opposite corners, by dominoes.
pub fn board(alloc: Global, size: u8) -> Result<String, AllocError> {
    let size = u32::from(size);
    let mut head = String::new(alloc);
    let mut text = String::new(alloc);
    for row in 0..size {
        for column in 0..size {
            if !is_on(size, row, column) {
                continue;
            }
            head.push_str(format!(in alloc; "{row}-{column} ")?.as_str())?;
            if is_on(size, row, column + 1) {
                text.push_str(format!(in alloc;
                    "\n{row}-{column} {row}-{}",
                    column + 1
                )?.as_str())?;
            }
            if is_on(size, row + 1, column) {
                text.push_str(format!(in alloc;
                    "\n{row}-{column} {}-{column}",
                    row + 1
                )?.as_str())?;
            }
        }
    }
    head.push_str(text.as_str())?;
    Ok(head)
}

/// Whether a T from this cell on lies on the board.
fn fits(size: u8, shape: &[(u8, u8)], row: u8, column: u8) -> bool {
    shape.iter().all(|cell| {
        u32::from(row) + u32::from(cell.0) < u32::from(size)
            && u32::from(column) + u32::from(cell.1) < u32::from(size)
    })
}

/// The option of a T from this cell on.
fn push_shape(
    text: &mut String,
    alloc: Global,
    shape: &[(u8, u8)],
    row: u8,
    column: u8,
) -> Result<(), AllocError> {
    text.push_str("\n")?;
    for cell in shape {
        let (row, column) = (
            u32::from(row) + u32::from(cell.0),
            u32::from(column) + u32::from(cell.1),
        );
        text.push_str(format!(in alloc; "{row}-{column} ")?.as_str())?;
    }
    Ok(())
}

/// A board by tetrominoes like a T.
pub fn tetrominoes(alloc: Global, size: u8) -> Result<String, AllocError> {
    let mut head = String::new(alloc);
    let mut text = String::new(alloc);
    for row in 0..size {
        for column in 0..size {
            head.push_str(format!(in alloc; "{row}-{column} ")?.as_str())?;
            for shape in &SHAPES {
                if fits(size, shape, row, column) {
                    push_shape(&mut text, alloc, shape, row, column)?;
                }
            }
        }
    }
    head.push_str(text.as_str())?;
    Ok(head)
}

/// Each pair of points in one triple.
pub fn triples(alloc: Global, size: u8) -> Result<String, AllocError> {
    let size = u32::from(size);
    let mut head = String::new(alloc);
    let mut text = String::new(alloc);
    for first in 0..size {
        for second in first + 1..size {
            head.push_str(format!(in alloc; "{first}-{second} ")?.as_str())?;
            for third in second + 1..size {
                text.push_str(format!(in alloc;
                    "\n{first}-{second} {first}-{third} {second}-{third}"
                )?.as_str())?;
            }
        }
    }
    head.push_str(text.as_str())?;
    Ok(head)
}

/// So many lessons of one teacher with so many periods each, one after the other, in so many periods: each with a class
/// of its own.
pub fn lessons(alloc: Global, lessons: u8, length: u8, periods: u8) -> Result<String, AllocError> {
    let mut text = String::new(alloc);
    for lesson in 0..lessons {
        text.push_str(format!(in alloc; "lesson-{lesson} ")?.as_str())?;
    }
    text.push_str("|")?;
    for period in 0..periods {
        text.push_str(format!(in alloc; " ann-{period}")?.as_str())?;
    }
    push_classes(&mut text, alloc, lessons, periods)?;
    for lesson in 0..lessons {
        push_lesson(&mut text, alloc, lesson, length, periods)?;
    }
    Ok(text)
}

/// The periods of so many classes.
fn push_classes(
    text: &mut String,
    alloc: Global,
    classes: u8,
    periods: u8,
) -> Result<(), AllocError> {
    for class in 0..classes {
        for period in 0..periods {
            text.push_str(format!(in alloc; " class-{class}-{period}")?.as_str())?;
        }
    }
    Ok(())
}

/// The options of a lesson: it begins in each period from which on it is over in time.
fn push_lesson(
    text: &mut String,
    alloc: Global,
    lesson: u8,
    length: u8,
    periods: u8,
) -> Result<(), AllocError> {
    let last = periods.saturating_sub(length);
    for first in 0..=last {
        text.push_str(format!(in alloc; "\nlesson-{lesson}")?.as_str())?;
        for period in first..first.saturating_add(length) {
            text.push_str(format!(in alloc; " ann-{period} class-{lesson}-{period}")?.as_str())?;
        }
    }
    Ok(())
}
