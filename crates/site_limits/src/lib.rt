//! How long the threads of a site work, and what ends them: how many visits a job may make, how many turns a thread
//! takes, when a site acts by itself, and why it ends. It needs no core, so that it is proved beside the cores.
#![tactic(auto)]

mod book_bytes;
mod end_cause;
mod ending;
mod follower;
mod gate;
mod hunger;
mod pace;
mod plan;
mod search_watch;
mod site_end;
mod timing;
mod turn;

pub use book_bytes::BookBytes;
pub use end_cause::EndCause;
pub use ending::Ending;
pub use follower::Follower;
pub use gate::{Gate, Open};
pub use hunger::Hunger;
pub use pace::{Pace, Quota};
pub use plan::Plan;
pub use search_watch::SearchWatch;
pub use site_end::SiteEnd;
pub use timing::Timing;
pub use turn::{Limits, Turn};
