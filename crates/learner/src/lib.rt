//! A search for any exact cover that learns clauses from its conflicts and begins again now and then. What it finds is
//! true, whatever it does: a cover is counted, and that there is none is believed from the kernel of implied clauses
//! alone.
#![tactic(auto)]

mod analysis;
mod assignment;
mod causes;
mod counts;
mod deciding;
mod figures;
mod find;
mod heap;
mod hints;
mod incremental;
mod layout;
mod learner;
mod marks;
mod packed;
mod proof;
mod propagation;
mod reducing;
mod restarts;
mod settings;
mod store;
mod tables;
mod trail;
mod watches;

pub use figures::{Figures, LearnerWatch};
pub use find::{Found, find_cover};
pub use incremental::IncrementalLearner;
pub use settings::Settings;
