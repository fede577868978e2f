//! A search with a budget, for one question: are all children of this prefix known to be barren? Where they are, the
//! table answers each in one look, and the search is over in a few visits; where they aren't, it is given up. See
//! `CLIMB` in `worker`.

use brancher::Watch;

/// Stops a search that keeps states after a few visits.
#[derive(Clone, Copy, Debug, PartialEq, Eq)]
pub struct FewVisits {
    /// How many it may still make.
    left: u64,
}

impl FewVisits {
    /// The watch that lets so many visits pass.
    pub fn new(left: u64) -> FewVisits {
        FewVisits { left }
    }
}

impl Watch for FewVisits {
    ghost use Rattle.std.specs.Prelude.{true};

    ghost may_stop = { true };

    fn look(&mut self, _chosen: &[u16], _left: u64) -> bool {
        self.left == 0
    }

    fn wait(&self) -> u64 {
        // (a watch that names no number is asked only after 1,024 visits, four times what CLIMB allows)
        self.left
    }

    fn made(&mut self, visits: u64, _left: u64) {
        self.left = self.left.saturating_sub(visits);
    }
}
