//! Tests of the command line. Nothing else is here, since a crate with tests is proved twice, and what needs clap is
//! dear.
#![tactic(auto)]

#[cfg(test)]
mod tests;
