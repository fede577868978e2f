//! Problems of a known kind, as texts, for tests.
#![tactic(auto)]

mod texts;

pub use texts::{board, langford, lessons, tetrominoes, triples};
