//! A search as engines and workers call it: a store of live options, with or without a table of states that are kept.
//!
//! The store is dancing links (`new`) or what `Tables` were built for, links or bit sets by an `estimate`; what is
//! found doesn't depend on it. The table is a transposition table (see `keeping`): a searcher with one meets the same
//! clauses, and ends sooner where states repeat.
//!
//! `find` and its two variants take the room for a cover before they search. A search may take hours, and what it found
//! is not to be lost because memory runs out at its end. Where the room is refused, nothing was searched and the caller
//! has its prefix again.
//!
//! A search that was stopped isn't lost either: `find_so_far` makes of it a search that spent a smaller fuel, namely
//! the visits until then. That is a right finding like any other, so a worker can post it and have its prefix split.

ghost use Rattle.std.specs.Prelude.{◌≡◌, ◌<◌, ◌≤◌, ℕ, List, [], length, Some, None, Ok, true, false, IfOk, IfErr, IfSome, OnOk, OnErr, vec_capacity};
ghost use Rattle.cover_problem.specs.Prefix.{is_prefix, IsBarren, IsCoverOver};
ghost use Rattle.cover_problem.specs.Problem.{IsProblem};
ghost use Rattle.cover_problem.specs.Search.{Covers, first, outcome, visits};
ghost use Rattle.cover_problem.specs.declared.limits.TheConstants.{MOST_ITEMS};

use crate::finding::Finding;
use crate::kept::Kept;
use crate::kernel::Kernel;
use crate::outcome::Outcome;
use crate::tables::Tables;
use crate::visit::Visit;
use crate::watch::{Unwatched, Watch};
use cover_problem::Problem;
use std::alloc::{AllocError, Global};
use std::marker::Model;

/// The room for kept states that suits a search by one thread, in bytes (of a `Searcher`; `Tables` are something else).
pub const STATE_BYTES: u64 = 64 << 20;

/// A search over one problem, by dancing links or over sets of live options.
#[derive(Drop)]
pub struct Searcher<'a> {
    kernel: Kernel<'a>,
    /// What is kept of states that have no cover; none where nothing is.
    kept: Option<Kept>,
    alloc: Global,
}

impl<'a> Model for Searcher<'a> {
    ghost use Rattle.std.specs.Prelude.{IfSome};
    ghost use Rattle.brancher.specs.Keeping.{AreKept};
    ghost use Rattle.brancher.specs.Kernels.{choices_in};
    ghost use Rattle.brancher.specs.Searching.{Searcher as SearcherValue};

    ghost Value = { SearcherValue };

    ghost view = { λ s. record {
      problem = (choices_in s.kernel).problem;
      found = (choices_in s.kernel).chosen;
    } };

    ghost invariant = { λ s. IfSome s.kept (AreKept (choices_in s.kernel).problem) };
}

impl<'a> Searcher<'a> {
    ghost use Rattle.brancher.specs.Finding.{finding_by};
    ghost use Rattle.brancher.specs.Visit.{outcome_told, IsVisit, took};

    /// A search over the problem, by dancing links; the only error is out of memory.
    pub fn new(alloc: Global, problem: &'a Problem) -> Result<Searcher<'a>, AllocError>
        ensures { IfOk result (λ s. s.problem ≡ problem.now) }
    {
        let kernel = Kernel::linked(alloc, problem)?;
        Ok(Searcher {
            kernel,
            kept: None,
            alloc,
        })
    }

    /// A search over the tables of a problem, which several searches may share; the only error is out of memory. Only
    /// tests and tools call this: the program keeps states, or searches by `decider`.
    pub fn of_tables(alloc: Global, tables: &'a Tables<'a>) -> Result<Searcher<'a>, AllocError>
        ensures { IfOk result (λ s. s.problem ≡ tables.now) }
    {
        let kernel = Kernel::of_tables(alloc, tables)?;
        Ok(Searcher {
            kernel,
            kept: None,
            alloc,
        })
    }

    /// A search as `of_tables` makes it that keeps states which it found to have no cover, and goes past them when it
    /// meets them again. They take at most so many bytes; where these are refused they take fewer, or it keeps none.
    /// The only error is out of memory.
    pub fn keeping(
        alloc: Global,
        tables: &'a Tables<'a>,
        room: u64,
    ) -> Result<Searcher<'a>, AllocError>
        ensures { IfOk result (λ s. s.problem ≡ tables.now) }
    {
        let kernel = Kernel::of_tables(alloc, tables)?;
        let words = kernel.key_words();
        let kept = if words > 0 {
            // (no error if memory is refused: without states the search comes to the same, only later)
            Kept::build(alloc, tables.problem(), words, room).ok()
        } else {
            None
        };
        Ok(Searcher {
            kernel,
            kept,
            alloc,
        })
    }

    /// The problem.
    pub fn problem(&self) -> &Problem
        ensures problem { result.now ≡ self.now.problem }
        ensures lawful { IsProblem self.now.problem }
    {
        self.kernel.problem()
    }

    /// Searches for the first cover below a prefix, with at most so many visits.
    pub fn search(&mut self, prefix: &[u16], fuel: u64) -> Outcome
        requires prefix { is_prefix self.old.problem prefix.now ≡ true }
        requires fuel { 1 ≤ fuel }
        ensures problem { self.new.problem ≡ self.old.problem }
        ensures outcome { outcome_told result self.new.found
            ≡ outcome self.old.problem prefix.now fuel }
        ensures cover { result ≡ Outcome.Cover →
            IsCoverOver self.old.problem prefix.now self.new.found }
        ensures short { result ≡ Outcome.Cover → length self.new.found ≤ MOST_ITEMS }
        ensures barren { result ≡ Outcome.Barren → IsBarren self.old.problem prefix.now }
    {
        match self.visit(prefix, fuel, &mut Unwatched) {
            Visit::Found => Outcome::Cover,
            Visit::Barren(_) => Outcome::Barren,
            Visit::Spent => Outcome::Spent,
            // (it is proved that this is never reached: such a watch stops nothing)
            Visit::Stopped(_) => unreachable!(),
        }
    }

    /// Visits a prefix and what is below it, until the watch stops it.
    fn visit<W: Watch>(&mut self, prefix: &[u16], fuel: u64, watch: &mut W) -> Visit
        requires prefix { is_prefix self.old.problem prefix.now ≡ true }
        requires fuel { 1 ≤ fuel }
        ensures problem { self.new.problem ≡ self.old.problem }
        ensures lawful { IsProblem self.old.problem }
        ensures visit { IsVisit (first self.old.problem prefix.now)
            (visits self.old.problem prefix.now) fuel prefix.now self.new.found result }
        ensures stopped { (left : ℕ) → result ≡ Visit.Stopped left → W.may_stop ≡ true }
    {
        match &mut self.kept {
            Some(kept) => self.kernel.visit_keeping(prefix, fuel, watch, kept),
            None => self.kernel.visit(prefix, fuel, watch),
        }
    }

    /// Searches as `search` does, and copies out what it came to; `found` is the cover then, too. It takes the room for
    /// a cover first: if memory runs out, nothing is searched, and the prefix comes back.
    pub fn find(&mut self, prefix: Vec<u16>, fuel: u64) -> Result<Finding, Vec<u16>>
        requires prefix { is_prefix self.old.problem prefix.items ≡ true }
        requires fuel { 1 ≤ fuel }
        ensures problem { self.new.problem ≡ self.old.problem }
        ensures finding { IfOk result (λ finding.
            finding ≡ finding_by prefix.items fuel (outcome self.old.problem prefix.items fuel)) }
        ensures found { OnOk result ((cover : List ℕ) →
            outcome self.old.problem prefix.items fuel ≡ Covers cover → self.new.found ≡ cover) }
        ensures unchanged { OnErr result (self.new ≡ self.old) }
        ensures back { IfErr result (λ list. list.items ≡ prefix.items) }
    {
        // (before the search, which may take hours: so no refusal can lose what it found)
        let Ok(room) = Vec::with_capacity(self.alloc, self.kernel.problem().primary()) else {
            return Err(prefix);
        };
        let outcome = self.search(&prefix, fuel);
        Ok(self.copied_into(room, prefix, fuel, outcome))
    }

    /// What a search of the prefix came to, with its cover in the room, which takes no memory.
    fn copied_into(&self, room: Vec<u16>, prefix: Vec<u16>, fuel: u64, outcome: Outcome) -> Finding
        requires empty { room.items ≡ [] }
        requires room { self.now.problem.primary ≤ vec_capacity room }
        ensures { result ≡ finding_by prefix.items fuel (outcome_told outcome self.now.found) }
    {
        let cover = match outcome {
            Outcome::Cover => written(self.found(), room),
            Outcome::Barren | Outcome::Spent => Vec::new(self.alloc),
        };
        Finding::from_parts(prefix, fuel, outcome, cover)
    }

    /// Searches as `find` does until the watch stops it; none where it did. With the finding it returns how many visits
    /// it counted: all those of a prefix without a cover, else the fuel. It takes the room for a cover first: if memory
    /// runs out, nothing is searched, and the prefix comes back.
    pub fn find_until<W: Watch>(
        &mut self,
        prefix: Vec<u16>,
        fuel: u64,
        watch: &mut W,
    ) -> Result<Option<(Finding, u64)>, Vec<u16>>
        requires prefix { is_prefix self.old.problem prefix.items ≡ true }
        requires fuel { 1 ≤ fuel }
        ensures problem { self.new.problem ≡ self.old.problem }
        ensures finding { IfOk result (λ ended. IfSome ended (λ found.
            found.0 ≡ finding_by prefix.items fuel (outcome self.old.problem prefix.items fuel))) }
        ensures visits { IfOk result (λ ended. IfSome ended (λ found.
            found.1 ≡ took found.0.outcome (visits self.old.problem prefix.items) fuel)) }
        ensures stopped { result ≡ Ok None → W.may_stop ≡ true }
        ensures unchanged { OnErr result (self.new ≡ self.old) }
        ensures back { IfErr result (λ list. list.items ≡ prefix.items) }
    {
        let Ok(room) = Vec::with_capacity(self.alloc, self.kernel.problem().primary()) else {
            return Err(prefix);
        };
        let (outcome, count) = match self.visit(&prefix, fuel, watch) {
            Visit::Found => (Outcome::Cover, fuel),
            Visit::Barren(left) => (Outcome::Barren, fuel - left),
            Visit::Spent => (Outcome::Spent, fuel),
            Visit::Stopped(_) => return Ok(None),
        };
        Ok(Some((self.copied_into(room, prefix, fuel, outcome), count)))
    }

    /// Searches as `find_until` does. Where the watch stopped it, it returns what it came to by then: with fuel for
    /// what was counted until then, skipped visits too, it would be spent, so the finding has that fuel. None where
    /// nothing was counted.
    pub fn find_so_far<W: Watch>(
        &mut self,
        prefix: Vec<u16>,
        fuel: u64,
        watch: &mut W,
    ) -> Result<Option<(Finding, u64)>, Vec<u16>>
        requires prefix { is_prefix self.old.problem prefix.items ≡ true }
        requires fuel { 1 ≤ fuel }
        ensures problem { self.new.problem ≡ self.old.problem }
        ensures finding { IfOk result (λ ended. IfSome ended (λ found.
            found.0 ≡ finding_by prefix.items found.0.fuel
            (outcome self.old.problem prefix.items found.0.fuel))) }
        ensures fuel { IfOk result (λ ended. IfSome ended (λ found.
            (1 ≤ found.0.fuel) × (found.0.fuel ≤ fuel))) }
        ensures whole { W.may_stop ≡ false → IfOk result (λ ended.
            IfSome ended (λ found. found.0.fuel ≡ fuel)) }
        ensures visits { IfOk result (λ ended. IfSome ended (λ found.
            found.1 ≡ took found.0.outcome (visits self.old.problem prefix.items) found.0.fuel)) }
        ensures stopped { result ≡ Ok None → W.may_stop ≡ true }
        ensures unchanged { OnErr result (self.new ≡ self.old) }
        ensures back { IfErr result (λ list. list.items ≡ prefix.items) }
    {
        let Ok(room) = Vec::with_capacity(self.alloc, self.kernel.problem().primary()) else {
            return Err(prefix);
        };
        let (fuel, outcome, count) = match self.visit(&prefix, fuel, watch) {
            Visit::Found => (fuel, Outcome::Cover, fuel),
            Visit::Barren(left) => (fuel, Outcome::Barren, fuel - left),
            Visit::Spent => (fuel, Outcome::Spent, fuel),
            Visit::Stopped(left) if left < fuel => (fuel - left, Outcome::Spent, fuel - left),
            Visit::Stopped(_) => return Ok(None),
        };
        Ok(Some((self.copied_into(room, prefix, fuel, outcome), count)))
    }

    /// How many visits a search of a prefix takes below which there is no cover, where that is seen before the watch
    /// stops the search; none where it isn't, where there is one, or where no states are kept: such a search doesn't
    /// ask the watch how long it may go on.
    pub fn barren_visits<W: Watch>(&mut self, prefix: &[u16], watch: &mut W) -> Option<u64>
        requires { is_prefix self.old.problem prefix.now ≡ true }
        ensures problem { self.new.problem ≡ self.old.problem }
        ensures barren { IfSome result (λ count. (first self.old.problem prefix.now ≡ None)
            × (visits self.old.problem prefix.now ≡ count)) }
    {
        if !self.keeps() {
            return None;
        }
        match self.visit(prefix, u64::MAX, watch) {
            Visit::Barren(left) => Some(u64::MAX - left),
            Visit::Found | Visit::Spent | Visit::Stopped(_) => None,
        }
    }

    /// Keeps that there is no cover below a prefix, and how many visits a search of it takes, as if it had been
    /// searched. It does nothing where no states are kept.
    pub fn keep_shared(&mut self, prefix: &[u16], count: u64)
        requires prefix { is_prefix self.old.problem prefix.now ≡ true }
        requires barren { first self.old.problem prefix.now ≡ None }
        requires count { visits self.old.problem prefix.now ≡ count }
        ensures { self.new.problem ≡ self.old.problem }
    {
        if let Some(kept) = &mut self.kept {
            self.kernel.keep_shared(prefix, count, kept);
        }
    }

    /// Whether it keeps states.
    pub fn keeps(&self) -> bool {
        self.kept.is_some()
    }

    /// The cover that the last search found. It has at most as many options as there are primary items, so at most
    /// 1,000.
    pub fn found(&self) -> &[u16]
        ensures found { result.now ≡ self.now.found }
        ensures short { length result.now ≤ MOST_ITEMS }
        ensures few { length result.now ≤ self.now.problem.primary }
    {
        // (for what the getter says: in a lawful problem a prefix has at most 1,000 options)
        self.kernel.problem();
        self.kernel.chosen()
    }
}

/// The numbers, in the room.
fn written(numbers: &[u16], room: Vec<u16>) -> Vec<u16>
    requires empty { room.items ≡ [] }
    requires fits { length numbers.now ≤ vec_capacity room }
    ensures { result.items ≡ numbers.now }
{
    let mut list = room;
    for number in numbers {
        list.push_reserved(*number);
    }
    list
}
