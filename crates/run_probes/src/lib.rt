//! What tests of whole runs look through: a gate that holds a worker back, and links that keep what is sent. It is here
//! for two crates of tests, of which one needs the engines and the other none of them.
#![tactic(auto)]

mod held_gate;
mod recorder;
mod sent_gate;

pub use held_gate::{Awaited, HeldGate};
pub use recorder::{Recorder, Sent, recorded};
pub use sent_gate::{Expected, SentGate, first_victim};
