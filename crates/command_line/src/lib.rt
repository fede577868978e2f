//! The command line of `solve_cli`, read by clap: from its words to the settings of a run.
#![tactic(auto)]

mod commands;
mod fault;
mod numbers;
mod ranges;
mod words;

pub use fault::SettingsFault;
pub use words::{request, settings};
