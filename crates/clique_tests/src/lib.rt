//! Tests of `clash_cliques`: which cliques are found, which given by hand are such, and where their items have too
//! little room.
#![tactic(auto)]

#[cfg(test)]
mod tests;
