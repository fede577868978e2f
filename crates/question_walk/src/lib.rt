//! A walk to the first exact cover in the order of the search, which asks a learner before it goes down: for each
//! option in turn whether an exact cover begins so. What it says is true, whatever the learner answers with: a cover is
//! counted, and that there is none is believed from the kernel of implied clauses alone.
#![tactic(auto)]

mod asking;
mod laws;
mod question_walk;
mod walk;
mod walk_end;

pub use laws::{first_cover_of_a_child, no_cover_of_a_child};
pub use question_walk::QuestionWalk;
pub use walk_end::WalkEnd;
