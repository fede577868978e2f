//! What the searches of a problem keep.
//!
//! Once all options below a prefix were tried in vain, its state is kept where
//! - `Trials` says that the search isn't in its first visits any more, in which it doesn't look either;
//! - what was left on coming to it is noted: `Trials` says down to which depth the table is asked, and the loop that
//!   keeps nothing drops the notes behind it. A search without fuel keeps what it looked for on its way, and what
//!   another worker found needs no note;
//! - it took `LEAST_VISITS` or more, those that were skipped counted. Whoever traces a search may say fewer, and so
//!   leave a state out;
//! - it has a key, of the table's width, and the table has slots. Of a key's two slots the one of lesser worth is taken,
//!   the first one of equals, and what was in it goes (`BarrenStates`).
//!
//! If the room for a table is refused, half of it is tried, and so on down to none: that is no error, since the table
//! only saves time.

ghost use Rattle.std.specs.Prelude.{◌≡◌, ◌-◌, ◌<◌, ◌≤◌, ℕ, List, length, IfOk, IfSome, slice_index, slice_set};
ghost use Rattle.barren_states.specs.States.{bytes_of, Holds};
ghost use Rattle.brancher.specs.Keeping.{AreKept, IsKeptOf, IsKnown};

use crate::trials::Trials;
use crate::watch::{Lookout, Watch};
use barren_states::BarrenStates;
use choices::Branching;
use cover_problem::Problem;
use std::alloc::{AllocError, Global};
use std::marker::Model;

/// The fewest visits of a state that is kept: a smaller one is visited again as fast as it is found.
pub const LEAST_VISITS: u64 = 4;

/// What the searches of a problem keep: the states that they found barren, and, while one is under way, how much fuel
/// was left when it came to prefixes of its way.
#[derive(Drop)]
pub struct Kept {
    /// The states.
    states: BarrenStates,
    /// What was left, at the place of the prefix's length; 0 says nothing.
    entered: Vec<u64>,
    /// Room for a key.
    key: Vec<u64>,
    /// Where states are looked for.
    trials: Trials,
    /// When a watch is to look.
    lookout: Lookout,
}

impl Model for Kept {
    ghost use Rattle.brancher.specs.Keeping.{Keeping};

    ghost Value = { Keeping };

    ghost view = { λ s. record { states = s.states; entered = s.entered.items } };
}

impl Kept {
    /// Nothing yet, with room for states of keys of so many words in at most so many bytes, or in less where that is
    /// refused. The only error is out of memory.
    pub fn build(
        alloc: Global,
        problem: &Problem,
        width: usize,
        room: u64,
    ) -> Result<Kept, AllocError>
        requires width { width ≤ 1024 }
        ensures kept { IfOk result (AreKept problem.now) }
        ensures empty { IfOk result (λ kept. (key : List ℕ) (visits : ℕ) →
            Holds kept.states key visits → ⊥) }
        ensures room { IfOk result (λ kept. bytes_of kept.states.most kept.states ≤ room) }
    {
        problem.recall_rules();
        let depths = problem.primary() + 1;
        // (without words there are no keys: nothing is ever kept then)
        let states = states_in(alloc, width, if width > 0 { room } else { 0 })?;
        let entered = vec![in alloc; 0u64; depths]?;
        let key = vec![in alloc; 0u64; width]?;
        let trials = Trials::build(alloc, depths, width > 0)?;
        Ok(Kept {
            states,
            entered,
            key,
            trials,
            lookout: Lookout::default(),
        })
    }

    /// Whether nothing is looked for at prefixes of this length and below.
    #[inline(always)]
    pub fn is_beyond(&self, depth: usize) -> bool {
        self.trials.is_beyond(depth)
    }

    /// How many visits may be made until it is tried again where looking pays.
    pub(crate) fn until_trial(&self) -> u64
        ensures { 0 < result }
    {
        self.trials.until_trial()
    }

    /// Whether the search is in its first visits, in which it neither looks for states nor keeps them.
    #[inline(always)]
    pub fn is_early(&self) -> bool {
        self.trials.is_early()
    }

    /// Whether the watch is to look now.
    #[inline(always)]
    pub fn is_watch_due<W: Watch>(&mut self, watch: &W) -> bool
        ensures { self.new ≡ self.old }
    {
        self.lookout.is_due(watch)
    }

    /// Counts visits that were made.
    #[inline(always)]
    pub fn made(&mut self, visits: u64)
        ensures { self.new ≡ self.old }
    {
        self.trials.made(visits);
        self.lookout.made(visits);
    }

    /// Notes how much was left when the search came to a prefix of this length.
    #[inline(always)]
    pub(crate) fn note(&mut self, depth: usize, left: u64)
        requires { depth < length self.old.entered }
        ensures states { self.new.states ≡ self.old.states }
        ensures entered { self.new.entered ≡ slice_set self.old.entered depth left }
    {
        self.entered[depth] = left;
    }

    /// Takes the notes of prefixes back that have this length or more.
    pub(crate) fn forget_from(&mut self, depth: usize)
        ensures states { self.new.states ≡ self.old.states }
        ensures long { length self.new.entered ≡ length self.old.entered }
        ensures before { (place : ℕ) → place < depth →
            slice_index self.new.entered place ≡ slice_index self.old.entered place }
        ensures forgotten { (place : ℕ) → depth ≤ place →
            slice_index self.new.entered place ≡ 0 }
    {
        for place in depth..self.entered.len() {
            self.entered[place] = 0;
        }
    }

    /// How many visits were kept of the chosen options, or the number that a trace of the search gave them, if they
    /// were kept and the search looks already.
    #[inline(always)]
    pub fn look<B: Branching>(&mut self, state: &B) -> Option<u64>
        ensures unchanged { self.new ≡ self.old }
        ensures known { IfSome result (IsKnown (B.choices state.now).problem
            (B.choices state.now).chosen self.old.states) }
    {
        if self.trials.is_early() {
            return None;
        }
        if !state.write_key(&mut self.key) {
            return None;
        }
        let depth = state.chosen().len();
        self.trials.looked(depth);
        let visits = self.states.look(&self.key)?;
        self.trials.found(depth, visits);
        Some(visits)
    }

    /// Keeps so many visits of the chosen options, unless they are few; from then on the search looks.
    #[inline(always)]
    pub fn keep<B: Branching>(&mut self, state: &B, visits: u64)
        ensures entered { self.new.entered ≡ self.old.entered }
        ensures states { IsKeptOf (B.choices state.now).problem
            (B.choices state.now).chosen visits self.old.states self.new.states }
        ensures room { bytes_of self.new.states.most self.new.states
            ≡ bytes_of self.old.states.most self.old.states }
    {
        if visits < LEAST_VISITS {
            return;
        }
        self.trials.begin_looks();
        if !state.write_key(&mut self.key) {
            return;
        }
        self.states.keep(&self.key, visits);
    }

    /// How much less is left than when the search came to a prefix of this length, where that is noted.
    #[inline(always)]
    pub(crate) fn since(&self, depth: usize, left: u64) -> Option<u64>
        requires { depth < length self.now.entered }
        ensures { IfSome result (λ visits. (1 ≤ slice_index self.now.entered depth)
            × (visits ≡ slice_index self.now.entered depth - left)) }
    {
        let noted = self.entered[depth];
        if noted > 0 {
            Some(noted.saturating_sub(left))
        } else {
            None
        }
    }
}

/// A table of states of keys of so many words, in at most so many bytes, or in less where that is refused; the only
/// error is out of memory.
fn states_in(alloc: Global, width: usize, room: u64) -> Result<BarrenStates, AllocError>
    requires { width ≤ 1024 }
    ensures empty { IfOk result (λ states. (key : List ℕ) (visits : ℕ) → Holds states key visits → ⊥) }
    ensures room { IfOk result (λ states. bytes_of states.most states ≤ room) }
{
    // (half as much each time: the table only saves time, so a small one is better than an error)
    for half in 0..u64::BITS {
        if let Ok(states) = BarrenStates::build(alloc, width, room >> half) {
            return Ok(states);
        }
    }
    Err(AllocError)
}
