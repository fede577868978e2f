//! What a test of a certificate comes to.

use crate::expected::Expected;

/// What a test of a certificate comes to.
#[derive(Clone, Copy, Debug, PartialEq, Eq)]
pub enum Checked {
    /// There is no exact cover.
    Right,
    /// The line with this number, from 1, is not what was expected.
    Wrong(u64, Expected),
}
