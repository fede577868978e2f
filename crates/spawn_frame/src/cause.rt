//! The byte of a Refuse packet. No site reads it: whatever the cause, the guest is dropped. It is for whoever reads a
//! book.

/// Why a result is refused.
#[derive(Clone, Copy, Debug, PartialEq, Eq)]
pub enum Cause {
    /// The child is wanted no more.
    Aborted,
    /// The child was redone, or the result is not of the site that has it.
    Superseded,
    /// There is no such child, or it never was at that attempt.
    Unknown,
}
