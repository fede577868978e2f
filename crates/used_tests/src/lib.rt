//! Tests of `used_items`: which items are found that each exact cover uses, and which rooms show it.
#![tactic(auto)]

#[cfg(test)]
mod tests;
