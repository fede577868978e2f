//! Tests of `case_reasons`: what is left of a problem once an option is chosen, and for which problems cases are found.
#![tactic(auto)]

#[cfg(test)]
mod tests;
