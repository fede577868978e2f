//! What a search chooses its options in: links or sets. Each call of a searcher goes on to whichever it is.

ghost use Rattle.std.specs.Prelude.{◌≡◌, ◌≤◌, ℕ, [], None, true, IfOk};
ghost use Rattle.cover_problem.specs.Prefix.{is_prefix};
ghost use Rattle.cover_problem.specs.Problem.{IsProblem};
ghost use Rattle.cover_problem.specs.Search.{first, visits};
ghost use Rattle.brancher.specs.Keeping.{AreKept};
ghost use Rattle.brancher.specs.Kernels.{choices_in};
ghost use Rattle.brancher.specs.Visit.{IsVisit};

use crate::keeping::visit_below_keeping;
use crate::kept::Kept;
use crate::shared::keep_shared;
use crate::tables::Tables;
use crate::visit::{Visit, visit_below};
use crate::watch::Watch;
use choices::Branching;
use cover_problem::Problem;
use dancing_links::Links;
use live_sets::LiveSets;
use std::alloc::{AllocError, Global};

/// What a search chooses its options in.
#[derive(Drop)]
pub enum Kernel<'a> {
    /// Options as columns of linked nodes.
    Links(Links<'a>),
    /// Sets of live options, level by level.
    Sets(LiveSets<'a>),
}

impl<'a> Kernel<'a> {
    /// Links of the problem; the only error is out of memory.
    pub(crate) fn linked(alloc: Global, problem: &'a Problem) -> Result<Kernel<'a>, AllocError>
        ensures problem { IfOk result (λ kernel. (choices_in kernel).problem ≡ problem.now) }
        ensures chosen { IfOk result (λ kernel. (choices_in kernel).chosen ≡ []) }
    {
        Ok(Kernel::Links(Links::build(alloc, problem)?))
    }

    /// Live options over the tables' sets, or links where there are none; the only error is out of memory.
    pub fn of_tables(alloc: Global, tables: &'a Tables<'a>) -> Result<Kernel<'a>, AllocError>
        ensures problem { IfOk result (λ kernel. (choices_in kernel).problem ≡ tables.now) }
        ensures chosen { IfOk result (λ kernel. (choices_in kernel).chosen ≡ []) }
    {
        match tables.sets() {
            Some(sets) => Ok(Kernel::Sets(LiveSets::build(alloc, sets)?)),
            None => Kernel::linked(alloc, tables.problem()),
        }
    }

    /// The problem.
    pub(crate) fn problem(&self) -> &Problem
        ensures problem { result.now ≡ (choices_in self.now).problem }
        ensures lawful { IsProblem (choices_in self.now).problem }
    {
        match self {
            Kernel::Links(links) => links.problem(),
            Kernel::Sets(sets) => sets.problem(),
        }
    }

    /// The chosen options.
    pub fn chosen(&self) -> &[u16]
        ensures chosen { result.now ≡ (choices_in self.now).chosen }
        ensures prefix { is_prefix (choices_in self.now).problem (choices_in self.now).chosen
            ≡ true }
    {
        match self {
            Kernel::Links(links) => links.chosen(),
            Kernel::Sets(sets) => sets.chosen(),
        }
    }

    /// Puts a prefix in place of what is chosen, and visits it and what is below it.
    pub(crate) fn visit<W: Watch>(&mut self, prefix: &[u16], fuel: u64, watch: &mut W) -> Visit
        requires { is_prefix (choices_in self.old).problem prefix.now ≡ true }
        ensures problem { (choices_in self.new).problem ≡ (choices_in self.old).problem }
        ensures lawful { IsProblem (choices_in self.old).problem }
        ensures visit { IsVisit (first (choices_in self.old).problem prefix.now)
            (visits (choices_in self.old).problem prefix.now) fuel prefix.now
            (choices_in self.new).chosen result }
        ensures stopped { (left : ℕ) → result ≡ Visit.Stopped left → W.may_stop ≡ true }
    {
        // (asked once for a search and not at each visit: each arm has a loop of its own)
        match self {
            Kernel::Links(links) => visit_below(links, prefix, fuel, watch),
            Kernel::Sets(sets) => visit_below(sets, prefix, fuel, watch),
        }
    }

    /// Visits as `visit` does; states that are kept are not visited again.
    pub(crate) fn visit_keeping<W: Watch>(
        &mut self,
        prefix: &[u16],
        fuel: u64,
        watch: &mut W,
        kept: &mut Kept,
    ) -> Visit
        requires prefix { is_prefix (choices_in self.old).problem prefix.now ≡ true }
        requires kept { AreKept (choices_in self.old).problem kept.old }
        ensures problem { (choices_in self.new).problem ≡ (choices_in self.old).problem }
        ensures lawful { IsProblem (choices_in self.old).problem }
        ensures visit { IsVisit (first (choices_in self.old).problem prefix.now)
            (visits (choices_in self.old).problem prefix.now) fuel prefix.now
            (choices_in self.new).chosen result }
        ensures stopped { (left : ℕ) → result ≡ Visit.Stopped left → W.may_stop ≡ true }
        ensures kept { AreKept (choices_in self.old).problem kept.new }
    {
        match self {
            Kernel::Links(links) => visit_below_keeping(links, prefix, fuel, watch, kept),
            Kernel::Sets(sets) => visit_below_keeping(sets, prefix, fuel, watch, kept),
        }
    }

    /// Puts a prefix in place of what is chosen, below which there is no cover, and keeps that, and how many visits it
    /// takes.
    pub(crate) fn keep_shared(&mut self, prefix: &[u16], count: u64, kept: &mut Kept)
        requires prefix { is_prefix (choices_in self.old).problem prefix.now ≡ true }
        requires barren { first (choices_in self.old).problem prefix.now ≡ None }
        requires count { visits (choices_in self.old).problem prefix.now ≡ count }
        requires kept { AreKept (choices_in self.old).problem kept.old }
        ensures problem { (choices_in self.new).problem ≡ (choices_in self.old).problem }
        ensures kept { AreKept (choices_in self.old).problem kept.new }
    {
        match self {
            Kernel::Links(links) => keep_shared(links, prefix, count, kept),
            Kernel::Sets(sets) => keep_shared(sets, prefix, count, kept),
        }
    }

    /// How many words a key has; 0 where there are no keys.
    pub fn key_words(&self) -> usize
        ensures { result ≤ 1024 }
    {
        match self {
            Kernel::Links(links) => links.key_words(),
            Kernel::Sets(sets) => sets.key_words(),
        }
    }
}
