//! A search over sets of options that are live, 64 options to a word.
//!
//! Each choice copies the live options of its level to the next one, without those that clash with the option chosen,
//! and counts for each primary item how many name it. So taking a choice back restores nothing: the level before it
//! still stands.
#![tactic(auto)]

mod choice_step;
mod counts;
mod keys;
mod level;
mod levels;
mod made_choice;
mod plane_counts;
mod searching;
mod sets;
mod uncovered;
mod untried;

pub use sets::LiveSets;
