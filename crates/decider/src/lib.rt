//! Whether there is an exact cover below a prefix, whatever number of visits it takes to see it.
#![tactic(auto)]

mod decider;
mod deciding;
mod decision;
mod trace;

pub use decider::Decider;
pub use decision::Decision;
pub use trace::{Trace, Untraced};
