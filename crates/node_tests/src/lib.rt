//! Tests of the threads of a run and of the links between its sites. Nothing else is here, since a crate with tests is
//! proved twice.
#![tactic(auto)]

#[cfg(test)]
mod tests;
