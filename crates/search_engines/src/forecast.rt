//! How long a search may still go on.

ghost use Rattle.std.specs.Prelude.{◌≤◌};

use crate::tree_estimate::TreeEstimate;
use std::fmt::{self, Display, Formatter, Write};

/// A millionth of the tree. A forecast wants a hundred of them: with less behind it, how fast a search goes says
/// little.
const PART: u64 = TreeEstimate::WHOLE / 1_000_000;

/// How many of them there have to be. Chosen, not measured.
const LEAST: u64 = 100;

/// After so many seconds there is a forecast: the first ones would swing from line to line.
const EARLIEST: u64 = 10;

/// A unit of time is used from two of them on: what rounding to whole ones takes away is then less than a third.
const MINUTE: u64 = 60;

const HOUR: u64 = 60 * MINUTE;

const DAY: u64 = 24 * HOUR;

/// How many seconds a search may still go on.
#[derive(Clone, Copy, Debug, PartialEq, Eq)]
pub struct Forecast {
    seconds: u64,
}

impl Forecast {
    /// Returns the forecast of a search that has this share of the tree behind it, of `TreeEstimate::WHOLE`, after so
    /// many seconds; none while that is too little to judge by, and none at the end. The rest is taken to go as fast.
    /// The parts of a tree are no equal work, so a forecast is rough, and near the end of a search often wrong.
    pub fn of(seconds: u64, share: u64) -> Option<Forecast> {
        let parts = share / PART;
        if seconds < EARLIEST || parts < LEAST {
            return None;
        }
        let left = 1_000_000u64.saturating_sub(parts);
        if left == 0 {
            return None;
        }
        // (no division by 0: parts are LEAST or more)
        let seconds = seconds.saturating_mul(left) / parts;
        Some(Forecast { seconds })
    }
}

impl Display for Forecast {
    fn fmt<W: Write>(&self, f: &mut Formatter<W>) -> fmt::Result {
        let (unit, name) = unit_of(self.seconds);
        write!(f, "some {} {name} left", self.seconds / unit)
    }
}

/// Returns the greatest unit of which there are two in so many seconds, in seconds, and its name.
fn unit_of(seconds: u64) -> (u64, &'static str)
    ensures { 1 ≤ result.0 }
{
    if seconds >= 2 * DAY {
        (DAY, "days")
    } else if seconds >= 2 * HOUR {
        (HOUR, "h")
    } else if seconds >= 2 * MINUTE {
        (MINUTE, "min")
    } else {
        (1, "s")
    }
}
