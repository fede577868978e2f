//! Copies of what a problem is made of, for problems that are made of others, and how many nodes a problem has.
#![tactic(auto)]

mod names;
mod nodes;
mod numbers;

pub use names::{colour_names_of, name_by, names_of};
pub use nodes::nodes_of;
pub use numbers::{colours_by_option, numbers_by};
