//! Dancing links (TAOCP 7.2.2.1): the options of an exact cover problem as columns of nodes that are linked both ways.
//!
//! Each item has a column with a node for each option that names it, between a head and a tail, and a key, which counts
//! these nodes and shows whether the item is covered. To choose an option is to cover its items: their keys get a mark,
//! and the options that name them leave the columns of their other items, but for options that give an item the same
//! colour: these stay. A node that left still knows its neighbours, and a trail has the nodes that left, in order. So
//! choices are taken back link by link, in the reverse order, without a walk, and all links are as before.
#![tactic(auto)]

mod board;
mod build;
mod commit;
mod cover;
mod keys;
mod laws;
mod layout;
mod link;
mod links;
mod options;
mod place;
mod searching;
mod trail_mark;
mod uncommit;
mod uncovered;

pub use laws::{links_by_choices, links_by_options};
pub use links::Links;
pub use options::OptionsOf;
