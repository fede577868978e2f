//! What the registry does at each event.
#![tactic(auto)]

mod again;
mod formed;
mod greeting;
mod laws;
mod publication;
mod registry;
mod root;
mod telling;

pub use formed::the_registry_stays_formed;
pub use laws::{the_registry_acts_unless_it_refuses, the_root_has_what_enters};
pub use publication::answer_of;
pub use registry::Registry;
