//! Redoing stolen work whose thief is lost is Cilk-NOW's. Here the child gets its next attempt, by which results of
//! earlier ones are told apart, so there is nothing to redo of a child that nobody has, and none after the last
//! attempt.

/// Why a child isn't redone.
#[derive(Clone, Copy, Debug, PartialEq, Eq)]
pub enum RedoFault {
    /// There is no such child that is out.
    NotOut,
    /// The child stands at its last attempt, 4,294,967,295.
    NamesSpent,
}
