//! What a search without a limit comes to.

/// What a search without a limit comes to.
#[derive(Clone, Copy, Debug, PartialEq, Eq)]
pub enum Decision {
    /// The chosen options are the first cover.
    Found,
    /// There is none. A search that keeps no states would make about so many visits, or more where this is 2^64 - 1; no
    /// clause says so.
    Barren(u64),
    /// A watch stopped it.
    Stopped,
}
