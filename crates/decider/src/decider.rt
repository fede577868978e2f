//! A search without a limit over one problem.

ghost use Rattle.std.specs.Prelude.{◌≡◌, [], IfOk};
ghost use Rattle.cover_problem.specs.Search.{first};
ghost use Rattle.decider.specs.Deciding.{IsDecision};

use crate::deciding::decide;
use crate::decision::Decision;
use crate::trace::{Trace, Untraced};
use brancher::{Kept, Kernel, Tables, Watch};
use std::alloc::{AllocError, Global};
use std::marker::Model;

/// A search of a whole problem for its first cover, without a limit of visits. It keeps states that it found to have no
/// cover, and goes past them when it meets them again.
#[derive(Drop)]
pub struct Decider<'a> {
    kernel: Kernel<'a>,
    kept: Kept,
}

impl<'a> Model for Decider<'a> {
    ghost use Rattle.brancher.specs.Searching.{Searcher};
    ghost use Rattle.decider.specs.Deciding.{HaveNoCover};
    ghost use Rattle.brancher.specs.Kernels.{choices_in};

    ghost Value = { Searcher };

    ghost view = { λ s. record {
      problem = (choices_in s.kernel).problem;
      found = (choices_in s.kernel).chosen;
    } };

    ghost invariant = { λ s. HaveNoCover (choices_in s.kernel).problem s.kept.states };
}

impl<'a> Decider<'a> {
    /// A search that has not begun, by the kernel that the tables are for, with room for states in at most so many
    /// bytes; where that is refused, in fewer. The only error is out of memory.
    pub fn new(alloc: Global, tables: &'a Tables<'a>, room: u64) -> Result<Decider<'a>, AllocError>
        ensures problem { IfOk result (λ s. s.problem ≡ tables.now) }
        ensures found { IfOk result (λ s. s.found ≡ []) }
    {
        let kernel = Kernel::of_tables(alloc, tables)?;
        let kept = Kept::build(alloc, tables.problem(), kernel.key_words(), room)?;
        Ok(Decider { kernel, kept })
    }

    /// Searches the problem until it is decided or the watch stops it. With `Found`, `found` is the first cover.
    pub fn decide<W: Watch>(&mut self, watch: &mut W) -> Decision
        requires { self.old.found ≡ [] }
        ensures problem { self.new.problem ≡ self.old.problem }
        ensures decision { IsDecision W.may_stop (first self.old.problem []) self.new.found result }
    {
        self.decide_traced(watch, &mut Untraced)
    }

    /// Does what `decide` does, and the trace hears of each step. The trace hears of all searches of this decider, or
    /// of none.
    pub fn decide_traced<W: Watch, T: Trace>(&mut self, watch: &mut W, trace: &mut T) -> Decision
        requires { self.old.found ≡ [] }
        ensures problem { self.new.problem ≡ self.old.problem }
        ensures decision { IsDecision W.may_stop (first self.old.problem []) self.new.found result }
    {
        let mut steps = 0;
        // (asked once for a search and not at each prefix: each arm has a recursion of its own)
        match &mut self.kernel {
            Kernel::Links(links) => decide(links, watch, trace, &mut self.kept, &mut steps),
            Kernel::Sets(sets) => decide(sets, watch, trace, &mut self.kept, &mut steps),
        }
    }

    /// The cover that the search found, in the order of its choices.
    pub fn found(&self) -> &[u16]
        ensures { result.now ≡ self.now.found }
    {
        self.kernel.chosen()
    }
}
