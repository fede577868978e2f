//! Cores as scripts of events, and the values of events and replies.

mod alike;
mod copies;
mod handed;
mod lists;
mod node;
mod offered;
mod refused;
mod registry;
mod said;
mod until;
mod wide;
