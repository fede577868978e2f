//! Reasons by cases: where a reason excludes each option of an item once it is chosen, there is no exact cover.
#![tactic(auto)]

mod case;
mod choosing;
mod finding;
mod laws;
mod trying;

pub use case::{Case, Cases};
pub use choosing::after_choice;
pub use finding::find_cases_until;
pub use laws::{a_choice_keeps_its_covers, cases_exclude_covers};
