//! Where kept states save so many visits for each that is made, one worker of a node is as fast as several: the others
//! would only find the same states once more. They come back after thousands of visits that saved less, of however many
//! searches: one long search wouldn't be seen where jobs are short.

/// Where kept states save so many visits for each that is made, one worker of a node is as fast as several. To work
/// alone where they save a fifth was tried and not kept (`bench/TRIED.md`); the number itself was chosen.
const SOLE: u64 = 1_000;

/// So many visits that save less show that they don't: more than the first job of a run may make, 24,000. Chosen, not
/// measured.
const TELLING: u64 = 30_000;

/// What a worker's searches show of how much its kept states save.
#[derive(Clone, Copy, Debug, PartialEq, Eq)]
pub enum Shown {
    /// So much that the node's other workers would only find the same states once more.
    Much,
    /// Less.
    Little,
    /// Too little was searched to tell.
    Nothing,
}

/// How many visits a worker's searches made, and how many were gone by them, since they last showed how much its kept
/// states save.
#[derive(Clone, Copy, Debug, PartialEq, Eq)]
pub struct Savings {
    made: u64,
    gone: u64,
}

impl Savings {
    /// None so far.
    pub fn new() -> Savings {
        Savings { made: 0, gone: 0 }
    }

    /// Counts a search that made so many visits, by which so many were gone, and returns what is shown now. A search
    /// that saves much shows it by itself; that they save little, many visits show together, however short each search
    /// is.
    pub fn note(&mut self, made: u64, gone: u64) -> Shown {
        self.made = self.made.saturating_add(made);
        self.gone = self.gone.saturating_add(gone);
        if is_much(made, gone) {
            *self = Savings::new();
            return Shown::Much;
        }
        if self.made < TELLING {
            return Shown::Nothing;
        }
        let shown = if is_much(self.made, self.gone) {
            Shown::Much
        } else {
            Shown::Little
        };
        *self = Savings::new();
        shown
    }
}

/// Whether so many visits that were made saved much.
fn is_much(made: u64, gone: u64) -> bool {
    gone / made.max(1) >= SOLE
}
