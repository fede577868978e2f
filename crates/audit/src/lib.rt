//! Whether the books of a run's sites are together one run of the world.
#![tactic(auto)]

mod auditing;
mod laws;
mod least_left;
mod merge;
mod missing;
mod packet_index;
mod put_out;
mod taking;
mod waiting_path;

pub use auditing::{Clean, Unclean, audit};
pub use laws::merged_books_are_a_run;
