//! The engines that search in one thread: each reads sources, writes a text to a sink and returns an exit status. What
//! is read and written is a type parameter, so that the contracts can name the bytes. Here is also what all engines
//! share: their faults and statuses, the lines of progress, limits of visits and of time.
#![tactic(auto)]

mod alone;
mod answering;
mod asking;
mod certifying;
mod check;
mod deciding;
mod engine;
mod failure;
mod fault;
mod forecast;
mod input;
mod line_timer;
mod lines;
mod looking;
mod progress;
mod progress_log;
mod progress_watch;
mod search_limits;
mod searching;
mod stopwatch;
mod telling;
mod timed_watch;
mod tree_estimate;
mod unanswered;
mod walk_watch;

pub use alone::{AloneEnd, alone_engine, alone_within};
pub use answering::answer_within;
pub use certifying::{
    ReasonListener, Unheard, certified_until, write_certified, write_certified_within,
};
pub use check::{CheckEnd, check_engine, check_within};
pub use deciding::{answer_until, is_excluded};
pub use engine::{EngineEnd, Written, ended_with};
pub use failure::{Failure, Unread};
pub use fault::EngineFault;
pub use forecast::Forecast;
pub use input::{read_all, read_input, read_whole};
pub use line_timer::LineTimer;
pub use lines::{write_given, write_line, write_published};
pub use progress::Progress;
pub use progress_log::{LineStyle, ProgressLog};
pub use progress_watch::{EndWatch, ProgressWatch};
pub use search_limits::{SearchLimits, TimeLimit};
pub use searching::search_until;
pub use stopwatch::Stopwatch;
pub use telling::{
    InputNames, tell, tell_end, tell_failure, tell_fault, tell_unbound, tell_unopened,
};
pub use timed_watch::TimedWatch;
pub use tree_estimate::TreeEstimate;
pub use unanswered::{Unanswered, tell_unanswered};
