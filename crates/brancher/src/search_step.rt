//! What a visit comes to from one prefix to the next.

use crate::visit::Visit;

/// What a visit comes to next.
#[derive(Clone, Copy, Debug, PartialEq, Eq)]
pub(crate) enum SearchStep {
    /// Another prefix, with so much fuel left.
    On(u64),
    /// Its end.
    End(Visit),
}
