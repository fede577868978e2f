//! Texts of problems and answers, lawful and not.

mod answers;
mod changed;
mod clashes;
mod copies;
mod devices;
mod greatest;
mod limits;
mod reading;
mod refused;
mod texts;
mod unknown;
