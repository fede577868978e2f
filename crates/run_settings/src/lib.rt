//! What a run of the program is asked to do. Nothing else is here: the command line makes settings and the engines take
//! them, and neither needs the other.
#![tactic(auto)]

mod request;
mod settings;

pub use request::Request;
pub use settings::{Mode, STANDARD_INPUT, Settings};
