//! Tests of `cover_reasons`: which reasons are found, and which ones hold, for problems whose reasons are known from
//! elsewhere.
#![tactic(auto)]

#[cfg(test)]
mod tests;
