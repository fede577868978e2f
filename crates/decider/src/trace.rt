//! What hears of a search, step by step, so that it can write down why there is no cover.

/// What hears of the steps of a search without a limit, in their order. It gives each state that is kept a number by
/// which it knows it again. No contract speaks of it: whatever it answers, the search comes to the same.
pub trait Trace {
    /// Hears that each live option that names the item is chosen in turn.
    fn branches(&mut self, item: u16);

    /// Hears that the search has come to a state that is kept with this number. Returns how many visits it takes; none
    /// if the state is to be searched once more.
    fn meets(&mut self, number: u64) -> Option<u64>;

    /// Hears that what is left behind so many chosen options has no cover, which took so many visits. Returns the
    /// number to keep it with; it isn't kept with a number below `LEAST_VISITS`.
    fn keeps(&mut self, chosen: usize, visits: u64) -> u64;
}

/// What hears of nothing: a state's number is how many visits it takes.
#[derive(Clone, Copy, Debug, PartialEq, Eq)]
pub struct Untraced;

impl Trace for Untraced {
    #[inline(always)]
    fn branches(&mut self, _item: u16) {}

    #[inline(always)]
    fn meets(&mut self, number: u64) -> Option<u64> {
        Some(number)
    }

    #[inline(always)]
    fn keeps(&mut self, _chosen: usize, visits: u64) -> u64 {
        visits
    }
}
