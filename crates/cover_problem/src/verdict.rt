//! What `check_cover` says. The registry and the learner read only whether it is `Exact`; `solve_cli check` also writes
//! which item is wrong. `ChosenTwice` has a place of its own, since a list that names an option twice also covers its
//! items twice.

/// What a test of a list of options answers: the first of these that holds.
#[derive(Clone, Copy, Debug, PartialEq, Eq)]
pub enum Verdict {
    /// A number of the list is no option's.
    NoSuchOption,
    /// An option stands in the list twice.
    ChosenTwice,
    /// This primary item, the first such, is named by none of the options.
    Uncovered(u16),
    /// This item, the first such, is named by two of the options or more, and they don't all give it one colour.
    CoveredTwice(u16),
    /// The options are an exact cover.
    Exact,
}
