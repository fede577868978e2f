//! Tests of `learn` and its line of progress, of `answer` and its runs in memory, and of the search for causes.
#![tactic(auto)]

#[cfg(test)]
mod tests;
