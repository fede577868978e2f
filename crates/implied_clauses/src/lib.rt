//! Clauses that every exact cover of a problem satisfies. One is learned only if it follows, by unit propagation along
//! hints, from those that are known. If the empty clause was learned, there is no exact cover.
#![tactic(auto)]

mod assumptions;
mod clause;
mod clauses;
mod following;
mod items;
mod laws;
mod literal;
mod rest;

pub use clauses::ImpliedClauses;
pub use laws::{
    barren_prefixes_are_implied_clauses, clashing_options_are_not_both_chosen,
    clauses_that_follow_are_implied, one_option_of_each_item_is_chosen,
    refuted_problems_have_no_cover,
};
pub use literal::{Hint, Literal};
