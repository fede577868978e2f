//! Choices of options in an exact cover problem: what a search by branching needs of whatever keeps them.
#![tactic(auto)]

mod branching;

pub use branching::Branching;
