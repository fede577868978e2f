//! The threads of a site, and a whole run of sites.
#![tactic(auto)]

mod actor;
mod barren_prefix;
mod context;
mod entered_gifts;
mod exchange;
mod few_visits;
mod hand;
mod idleness;
mod incarnation_plan;
mod looks;
mod node;
mod node_end;
mod own_time;
mod receiver;
mod run;
mod savings;
mod schedule;
mod seat_receipts;
mod sender;
mod shared;
mod signals;
mod site_run;
mod turns;
mod worker;

pub use node_end::NodeEnd;
pub use run::{RunEnd, run_sites};
pub use site_limits::{
    BookBytes, EndCause, Follower, Gate, Hunger, Open, Pace, Plan, Quota, SiteEnd, Timing,
};
pub use site_network::{Link, LinkFault, MemoryLink, Sockets, UdpLink, Wires, bound};

// (for tests alone)
pub use actor::asks_in_vain;
pub use idleness::{IdleTurn, Idleness};
pub use node::{run_node, run_root};
pub use own_time::OwnTime;
pub use savings::{Savings, Shown};
pub use schedule::Schedule;
pub use seat_receipts::SeatReceipts;
pub use signals::Signals;
pub use worker::room_for;
