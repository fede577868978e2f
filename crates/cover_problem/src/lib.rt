//! Exact cover problems, and what a list of options means in one.
//!
//! An exact cover is a set of options in which each primary item stands exactly once and each secondary item at most
//! once, or more often in one colour. The crate has the problem as a value, tests of lists of options, and, as
//! functions that do nothing, the laws of the definitions on which the searches rest.
#![tactic(auto)]

mod answer;
mod check;
mod laws;
mod limits;
mod lists;
mod marking;
mod naming;
mod prefix;
mod problem;
mod verdict;

pub use answer::Answer;
pub use check::check_cover;
pub use laws::{
    alike_prefixes_are_searched_alike, branch_item_is_first_fewest, children_are_prefixes,
    coloured_search, covers_have_no_clash, first_is_a_prefix, first_is_an_exact_cover,
    in_order_is_in_file_order, live_options_agree, live_options_tell_what_is_uncovered,
    one_child_of_each_cover, prefixes_are_short, search_by_children, small_search,
    uncovered_items_tell_what_is_live, uses_of_a_list, without_colours,
};
pub use limits::{MOST_BYTES, MOST_COLOURS, MOST_ITEMS, MOST_NODES, MOST_OPTIONS};
pub use lists::{Name, Numbers};
pub use prefix::{clash, in_file_order, in_order, is_covered, is_live, is_prefix, option_names};
pub use problem::Problem;
pub use verdict::Verdict;
