//! How much a state is worth that is kept. No contract speaks of it: whichever state gives way, the table holds nothing
//! that is wrong.

/// The worth of a state that takes so many visits: it grows with their logarithm, so that small states give way to
/// large ones, and is at most 253.
#[inline(always)]
pub fn worth_of(visits: u64) -> u8 {
    // (64 digits would make 257, more than a byte holds)
    let digits = (u64::BITS - visits.leading_zeros()).min(63);
    // (4 for each doubling: a state of twice as many visits is given up after four more keys were kept beside it)
    (digits as u8) * 4 + 1
}
