//! The engine that writes a reason why a file's problem has no exact cover.
#![tactic(auto)]

mod cause;
mod text;
mod why;

pub use cause::{Cause, cause_lines, find_cause_until};
pub use why::{WhyEnd, why_engine, why_problem};
