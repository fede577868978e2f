//! What is below a unit of work, and the abort of it.
#![tactic(auto)]

mod abort;
mod descendants;
mod laws;

pub use abort::abort_below;
pub use descendants::Descendants;
pub use laws::{parents_decide, same_tops_reach_the_same};
pub use spawn_frame::Out;
