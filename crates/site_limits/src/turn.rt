//! A thread's work is bounded by turns as well as by the clock: a bound that is the same on each machine. A wait is no
//! turn, or a worker that was idle for long would be gone.

use crate::end_cause::EndCause;

/// What came of a thread's turn.
#[derive(Clone, Copy, Debug, PartialEq, Eq)]
pub enum Turn {
    /// It is one of the turns that the thread may take.
    Counted,
    /// It is none of them: there was nothing to do, or what came was known.
    Free,
    /// Something was to be done, but memory ran out.
    Starved,
    /// The thread ends.
    Ended(EndCause),
}

/// How often memory may run out with no turn that counts in between: then the thread ends, a tenth of a second later,
/// as it waits a millisecond each time. Chosen, not measured.
const SHORTAGES: u32 = 100;

/// How many turns a thread may take, and how many it took that count.
#[derive(Clone, Copy, Debug, PartialEq, Eq)]
pub struct Limits {
    most: u64,
    taken: u64,
    /// How often memory ran out since the last turn that counted.
    shortages: u32,
}

impl Limits {
    /// Allows so many turns.
    pub fn new(most: u64) -> Limits {
        Limits {
            most,
            taken: 0,
            shortages: 0,
        }
    }

    /// How many it took that count.
    pub fn taken(&self) -> u64 {
        self.taken
    }

    /// Whether they are used up.
    pub fn is_spent(&self) -> bool {
        self.taken >= self.most
    }

    /// Counts a turn by its result, and returns the cause if the thread ends by it.
    pub fn note(&mut self, turn: Turn) -> Option<EndCause> {
        match turn {
            Turn::Counted => self.count_turn(),
            Turn::Free => {}
            Turn::Starved => return self.starve(),
            Turn::Ended(cause) => return Some(cause),
        }
        None
    }

    /// Memory ran out in a turn, which ends the thread where it happens too often.
    fn starve(&mut self) -> Option<EndCause> {
        self.shortages = self.shortages.saturating_add(1);
        if self.shortages < SHORTAGES {
            None
        } else {
            Some(EndCause::Memory)
        }
    }

    /// It took a turn that counts.
    fn count_turn(&mut self) {
        self.shortages = 0;
        self.taken = self.taken.saturating_add(1);
    }
}
