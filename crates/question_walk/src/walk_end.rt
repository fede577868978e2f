//! What a walk comes to.

/// What a walk comes to.
#[derive(Clone, Copy, Debug, PartialEq, Eq)]
pub enum WalkEnd {
    /// The chosen options are the first cover.
    Found,
    /// There is none.
    NoCover,
    /// Nothing yet: the watch stopped the learner, or there was no room for what it learned.
    Stopped,
}

/// What a step of a walk comes to.
#[derive(Clone, Copy, Debug, PartialEq, Eq)]
pub(crate) enum Step {
    /// Further steps follow.
    On,
    /// It has to be known whether an exact cover begins with the chosen options.
    Ask,
    /// The walk ends.
    End(WalkEnd),
}
