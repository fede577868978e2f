//! The engine that answers by whatever is first: a search that keeps states, a learner, a reason that excludes covers,
//! or workers of a run in memory.
#![tactic(auto)]

mod answer;
mod basis;
mod heard_answer;
mod heard_lanes;
mod lanes;
mod race;
mod race_watches;
mod telling;

pub use answer::{AnswerEnd, Task, answer_engine};
pub use basis::{Basis, Won};
pub use heard_answer::{Listeners, write_heard_answer};
