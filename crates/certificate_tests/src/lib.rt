//! Tests of certificates: some written by hand, right and wrong, and those that a learner writes.
#![tactic(auto)]

#[cfg(test)]
mod tests;
