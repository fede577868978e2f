//! The children that a site gives away, and the results that come back.
#![tactic(auto)]

mod arrivals;
mod children;
mod given;
mod guests;
mod judged;
mod known;
mod laws;
mod learn_fault;
mod ledger;
mod membership;
mod news;
mod redo_fault;
mod redos;
mod return_reply;
mod returns;
mod sharing;
mod steals;

pub use given::Given;
pub use judged::Judged;
pub use laws::aborts_are_few;
pub use learn_fault::LearnFault;
pub use ledger::Ledger;
pub use redo_fault::RedoFault;
pub use return_reply::ReturnReply;
