//! What a worker does while there is no work: it asks, waits, or looks again at once.
//!
//! Work is near as long as others have some, and who asks sooner gets it sooner, so at first few idle turns wait; later
//! more do, and longer. In a simulation of four workers that made a run 1.3 % faster. A wait is no turn, since a worker
//! that was idle for long would else be gone.

ghost use Rattle.std.specs.Prelude.{◌≤◌};

use std::time::Duration;

/// In so many idle turns in a row only every 32nd waits, then in as many more every sixteenth, and so on down to each:
/// work is near as long as others have some, and who asks sooner gets it sooner. In a simulation of four workers the
/// idle time fell from 2.5 to 1.2 % (`bench/TRIED.md`); the number itself was chosen.
const EAGER: u32 = 1_024;

/// A worker asks another site for work at the first and at each so many idle turns in a row: each request is an entry
/// of two books. Chosen, not measured.
const ASKING: u32 = 64;

/// What a worker does in a turn in which it found nothing to do.
#[derive(Clone, Copy, Debug, PartialEq, Eq)]
pub enum IdleTurn {
    /// It asks another site for work.
    Asks,
    /// It waits so long.
    Waits(Duration),
    /// It looks again at once.
    Passes,
}

/// How many turns in a row found nothing to do.
#[derive(Clone, Copy, Debug, PartialEq, Eq)]
pub struct Idleness {
    turns: u32,
}

impl Idleness {
    /// None.
    pub fn new() -> Idleness {
        Idleness { turns: 0 }
    }

    /// There is something to do.
    pub fn end(&mut self) {
        self.turns = 0;
    }

    /// One more, in a run of so many workers in all; what the worker does in it.
    pub fn next(&mut self, workers: u64) -> IdleTurn {
        let turns = self.turns;
        self.turns = turns.saturating_add(1);
        if turns % ASKING == 0 {
            IdleTurn::Asks
        } else if turns % stride(turns) == 0 {
            IdleTurn::Waits(Duration::from_micros(nap(turns, workers)))
        } else {
            IdleTurn::Passes
        }
    }
}

/// Of how many idle turns one waits, after so many in a row.
fn stride(idle: u32) -> u32
    ensures { 1 ≤ result }
{
    match idle / EAGER {
        0 => 32,
        1 => 16,
        2 => 8,
        3 => 4,
        4 => 2,
        _ => 1,
    }
}

/// How long an idle turn waits, in microseconds, after so many in a row: min(20 + idle / 64 · workers, max(1,000, 125 ·
/// workers)).
///
/// The longest wait grows with the workers, so that those of a run ask at most some 125 times a second together,
/// however many they are. It gets longer by one for each worker whenever this one asks again, so that many that ask at
/// once leave those at work alone.
fn nap(idle: u32, workers: u64) -> u64 {
    let longest = workers.saturating_mul(125).max(1_000);
    let more = u64::from(idle / ASKING).saturating_mul(workers);
    more.saturating_add(20).min(longest)
}
