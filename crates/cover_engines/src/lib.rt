//! The engine of `solve`, whose sites have threads and sockets.
#![tactic(auto)]

mod audited;
mod first_cause;
mod followed_run;
mod host;
mod memory_share;
mod network;
mod overcounts;
mod quiet_run;
mod sockets;
mod solve;

pub use audited::{AuditFinding, write_audited};
pub use followed_run::FollowedRun;
pub use host::{Host, names_of};
pub use memory_share::{USUAL_BOOK_BYTES, book_bytes_of};
pub use network::{Loopback, Network, NetworkFault};
pub use quiet_run::QuietRun;
pub use sockets::links;
pub use solve::{SolveEnd, SolveTask, solve_engine, solve_problem};
