//! The engine that learns: it reads a problem, and writes any exact cover, or that there is none.
#![tactic(auto)]

mod heard_stop;
mod learn;
mod learn_progress;
mod learn_watch;

pub use learn::{LearnEnd, learn_engine, learn_problem};
pub use learn_progress::LearnProgress;
pub use learn_watch::LearnWatch;
