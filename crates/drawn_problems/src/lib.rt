//! Random problems, as texts, for trials.
#![tactic(auto)]

mod draw;

pub use draw::{below, drawn_text};
