//! Tests of the program's engines, over texts in memory and devices that fail. Nothing else is here, since a crate with
//! tests is proved twice.
#![tactic(auto)]

#[cfg(test)]
mod tests;
