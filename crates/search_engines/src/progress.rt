//! How far a search has come, as a line of text.

use crate::forecast::Forecast;
use crate::tree_estimate::TreeEstimate;
use std::fmt::{self, Display, Formatter, Write};

/// How far a search has come.
#[derive(Clone, Copy, Debug, PartialEq, Eq)]
pub struct Progress {
    /// How many whole seconds it has lasted.
    pub seconds: u64,
    /// How many prefixes it has visited.
    pub visits: u64,
    /// The share of the tree that lies behind it, of `TreeEstimate::WHOLE`, as DLX1 estimates it.
    pub share: u64,
    /// How many jobs workers search, if the search has workers.
    pub jobs: Option<u64>,
    /// How full the fullest book is, in percent, if sites keep books: a run ends once one is full.
    pub fullest: Option<u64>,
}

impl Display for Progress {
    fn fmt<W: Write>(&self, f: &mut Formatter<W>) -> fmt::Result {
        // (a part is a ten-thousandth of a percent, the last digit that is written)
        let parts = self.share / (TreeEstimate::WHOLE / 1_000_000);
        write!(
            f,
            "{} s: {} visits, {:>3}.{:04} % of the tree",
            self.seconds,
            self.visits,
            parts / 10_000,
            parts % 10_000
        )?;
        match self.jobs {
            Some(1) => write!(f, ", 1 job out")?,
            Some(jobs) => write!(f, ", {jobs} jobs out")?,
            None => {}
        }
        if let Some(fullest) = self.fullest {
            write!(f, ", fullest book {fullest} %")?;
        }
        match Forecast::of(self.seconds, self.share) {
            Some(forecast) => write!(f, ", {forecast}"),
            None => Ok(()),
        }
    }
}
