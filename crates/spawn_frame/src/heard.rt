//! An inlet of Cilk may abort the rest by itself; this one only says that it is time. The core then answers Ripe to the
//! next worker that asks, and that worker finishes the frame, so the end of a frame is an event with an entry in the
//! book.

/// What an inlet says once it has heard of some of its children.
#[derive(Clone, Copy, Debug, PartialEq, Eq)]
pub enum Heard {
    /// More children are wanted.
    Open,
    /// What the children come to together is known.
    Settled,
}
