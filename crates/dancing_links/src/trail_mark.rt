//! Where a choice begins on the trail, as a decision level does in a SAT solver.
//!
//! There are two numbers since a choice is made by an item. To go on to that item's next option, what is behind
//! `middle` comes back, and the item stays covered. To take the choice back, all behind `start` does.

/// How long the trail was at a choice.
#[derive(Clone, Copy)]
pub struct TrailMark {
    /// Before it.
    pub start: usize,
    /// Once the item was covered by which it was made, and no other.
    pub middle: usize,
}
