//! What may end the search for a reason.

/// What looks at the search for a reason now and then, and may end it.
pub trait ReasonWatch {
    /// Whether the search is to end. Once it has said so, it always does. It is asked for each primary item of a kind,
    /// before each option that is made to weigh nothing and before each pivot, and now and then while tables are made,
    /// so more than once in a thousandth of a second, but for problems at the limits of their format.
    fn look(&mut self) -> bool;
}

/// How many options are gone through before a watch is asked again: some hundredths of a thousandth of a second.
const PACE: u16 = 64;

/// Whether the search is to end at an option, in a loop over all of them: the watch is asked at each 64th.
pub fn looks_at<W: ReasonWatch>(option: u16, watch: &mut W) -> bool {
    option % PACE == 0 && watch.look()
}

/// The watch that ends nothing.
#[derive(Clone, Copy, Debug, PartialEq, Eq)]
pub struct Endless;

impl ReasonWatch for Endless {
    fn look(&mut self) -> bool {
        false
    }
}
