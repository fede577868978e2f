//! The engine that simulates a world of sites.
#![tactic(auto)]

mod simulate;

pub use simulate::{SimulateEnd, simulate_engine, simulate_source};
