//! Tests of `solve`: of its runs over sockets, and of ends that these don't reach. Nothing else is here, since a crate
//! with tests is proved twice.
#![tactic(auto)]

#[cfg(test)]
mod tests;
