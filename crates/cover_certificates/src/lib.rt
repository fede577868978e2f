//! Certificates that a problem has no exact cover: what they say, and a checker of their texts.
#![tactic(auto)]

mod case;
mod certificate;
mod checked;
mod clause_line;
mod expected;
mod fault;
mod items;
mod laws;
mod learning;
mod line;
mod notes;
mod reasons;
mod refuting;
mod script;
mod sparing;
mod tables;
mod words;

pub use certificate::{begins_certificate, check_certificate};
pub use checked::Checked;
pub use expected::Expected;
pub use laws::{refutations_are_sound, stuck_items_exclude_covers};
