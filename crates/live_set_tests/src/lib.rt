//! Tests of live sets. Nothing else is here, since a crate with tests is proved twice.
#![tactic(auto)]

#[cfg(test)]
mod tests;
