//! What the engines write of texts in memory, and where devices fail.

mod alone;
mod boards;
mod check;
mod colours;
mod devices;
mod long;
mod named;
mod progress;
mod refused;
mod run_output;
mod simulate;
mod texts;
mod unlimited;
mod why;
mod within;
