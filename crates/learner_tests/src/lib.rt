//! Tests of `learner`: that it finds what there is, gives up where it is told to, and keeps within its room; and of
//! `question_walk`, which asks it.
#![tactic(auto)]

#[cfg(test)]
mod tests;
