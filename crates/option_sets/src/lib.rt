//! Sets of the options of an exact cover problem, 64 options to a word: which options name an item, and which ones an
//! option leaves when it is chosen. They are built once for a problem and never changed.
#![tactic(auto)]

mod clash_tables;
mod clear;
mod kept;
mod lists;
mod row;
mod rows;
mod sets;
mod tints;
mod word;

pub use sets::{OptionSets, word_below};
pub use word::Word;
