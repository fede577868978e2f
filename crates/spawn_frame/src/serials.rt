//! A frame's children as an interval of indices: a split names all of them at once, one serial behind the other, and a
//! serial is never reused. So no list or link leads from a child to the next one. No children is the empty interval.

/// Serials that follow one another, as those of a unit's children do.
#[derive(Clone, Copy, Debug, PartialEq, Eq)]
pub struct Serials {
    /// The least of them.
    pub first: u32,
    /// The one behind the last; there are none where it is the first.
    pub end: u32,
}
