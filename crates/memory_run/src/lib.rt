//! A run of one node in this process, over links in memory, whose answer is believed by itself: a cover is counted, and
//! the books of a run that found none are audited.
#![tactic(auto)]

mod run;
mod waiting_link;

pub use run::run_in_memory;
pub use waiting_link::{WaitingLink, Wakers};
