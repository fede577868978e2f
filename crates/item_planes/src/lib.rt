//! How many options name each of at most 64 items, digit by digit.
//!
//! Bit `i` of a plane is one binary digit of the count of item `i`. So an option is counted off for all of its items at
//! once, and the least count is found in as many steps as there are planes. (Such counters are called vertical, or
//! bit-sliced. There are eight digits, so that items may have 255 options: with seven, a problem with items of 166 was
//! searched at less than half the speed.)
#![tactic(auto)]

mod digit;
mod digits;
mod planes;

pub use digits::Digits;
pub use planes::Planes;
