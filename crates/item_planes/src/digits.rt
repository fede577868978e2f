//! How far a subtraction's borrow may run through the planes (a ripple borrow), and how many planes the search for the
//! least count reads.
//!
//! Counts never rise on the way down, so the largest count of a level bounds the next one's: `Planes::digits` reads it
//! off the upper planes. Deep in a search all counts are often below 8, and three planes of the eight are enough. Each
//! width is code of its own, without a loop, so there are three widths and no more. `bench/TRIED.md` has what three
//! digits save, measured with two other changes.

/// How many binary digits some counts have.
#[derive(Clone, Copy)]
pub enum Digits {
    /// Each count is below 8.
    Three,
    /// Each count is below 32.
    Five,
    /// Each count is below 256.
    Eight,
}
