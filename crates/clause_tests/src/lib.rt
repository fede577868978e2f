//! Tests of `implied_clauses`: which clauses it learns by which hints, worked out by hand, and that wrong ones are
//! refused.
#![tactic(auto)]

#[cfg(test)]
mod tests;
