//! Worlds as scripts of events.

mod chance;
mod refused;
mod restarts;
mod runs;
mod said;
