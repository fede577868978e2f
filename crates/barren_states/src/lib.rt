//! A table of states of a search below which there is no cover, and how many visits it takes to see it.
//!
//! A state is known by its key, a list of words. The table has room for so many states: one that is kept may take the
//! place of another one. It knows nothing of problems; what is true of all that is put in is true of all that is found.
#![tactic(auto)]

mod places;
mod slot;
mod slots;
mod states;
mod worth;

pub use states::{BarrenStates, MOST_WORDS};
