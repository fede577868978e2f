//! What a search over sets of options needs of a problem.

ghost use Rattle.std.specs.Prelude.{◌≡◌, ℕ, ◌+◌, ◌/◌, ◌<◌, length, filter, map, not, ◌==◌, ◌&&◌, nat_lt, IfOk};
ghost use Rattle.std.specs.Int.{bit_at};
ghost use Rattle.std.specs.List.{range_with_len};
ghost use Rattle.cover_problem.specs.Prefix.{clash};
ghost use Rattle.cover_problem.specs.Problem.{IsProblem, items_of};
ghost use Rattle.option_sets.specs.Sets.{words_of, has, IsRow};
ghost use Rattle.option_sets.specs.ClashTables.{primary_of};

use crate::clash_tables::ClashTables;
use crate::clear::meet;
use crate::kept::kept_sets;
use crate::word::Word;
use cover_problem::{Numbers, Problem};
use std::alloc::{AllocError, Global};
use std::marker::Model;

/// The sets of a problem's options. A contract sees them as the problem.
#[derive(Drop)]
pub struct OptionSets<'a> {
    tables: ClashTables<'a>,
    /// How many words a set has.
    words: usize,
    /// The primary items of each option.
    named: Vec<Numbers>,
    // (one flat list: a set is found by a product, not by a pointer that has to be loaded first)
    /// The sets that each option leaves, one behind the other; of a large problem none.
    kept: Vec<u64>,
}

impl<'a> Model for OptionSets<'a> {
    ghost use Rattle.cover_problem.specs.Problem.{Problem as ProblemValue};
    ghost use Rattle.option_sets.specs.ClashTables.{AreSets};

    ghost Value = { ProblemValue };

    ghost view = { λ s. s.tables };

    ghost invariant = { λ s. AreSets s.tables s.words s.named.items s.kept.items };
}

impl<'a> OptionSets<'a> {
    /// The sets of a problem; the only error is out of memory.
    pub fn build(alloc: Global, problem: &'a Problem) -> Result<OptionSets<'a>, AllocError>
        ensures { IfOk result (λ sets. sets ≡ problem.now) }
    {
        let tables = ClashTables::build(alloc, problem)?;
        let named = primary_items(alloc, problem)?;
        let kept = kept_sets(alloc, &tables)?;
        let words = tables.words();
        Ok(OptionSets {
            tables,
            words,
            named,
            kept,
        })
    }

    /// The problem.
    pub fn problem(&self) -> &'a Problem
        ensures problem { result.now ≡ self.now }
        ensures lawful { IsProblem self.now }
    {
        self.tables.problem()
    }

    /// How many words a set of options has.
    #[inline(always)]
    pub fn words(&self) -> usize
        ensures { result ≡ words_of self.now }
    {
        self.words
    }

    /// The options that name an item, as the words of their set that aren't zero, by rising places.
    #[inline(always)]
    pub fn row(&self, item: u16) -> &[Word]
        requires { item < length self.now.names }
        ensures { IsRow self.now item result.now }
    {
        self.tables.row(item)
    }

    /// The primary items that an option names, in its order.
    #[inline(always)]
    pub fn primary_items(&self, option: u16) -> &[u16]
        requires { option < length self.now.options }
        ensures { result.now ≡ filter (λ i. nat_lt i self.now.primary) (items_of self.now option) }
    {
        self.named[option as usize].as_slice()
    }

    /// Makes a set that of all options.
    pub fn fill(&self, set: &mut [u64])
        requires { length set.old ≡ words_of self.now }
        ensures { (x : ℕ) → has set.new x ≡ nat_lt x (length self.now.options) }
    {
        fill_below(set, self.tables.problem().options());
    }

    /// Makes `next` those of the live options that don't clash with an option.
    #[inline(always)]
    pub fn spare(&self, option: u16, live: &[u64], next: &mut [u64])
        requires option { option < length self.now.options }
        requires live { length live.now ≡ words_of self.now }
        requires next { length next.old ≡ words_of self.now }
        ensures { (x : ℕ) → has next.new x ≡ (has live.now x && not (clash self.now option x)) }
    {
        let kept: &[u64] = &self.kept;
        let words = next.len();
        let start = option as usize * words;
        // (the list of a large problem is empty, so this one test serves it, too)
        if start < kept.len() {
            return meet(live, &kept[start..start + words], next);
        }
        next.copy_from_slice(live);
        self.tables.bar(option, next);
    }
}

/// The primary items of each option; the only error is out of memory.
fn primary_items(alloc: Global, problem: &Problem) -> Result<Vec<Numbers>, AllocError>
    ensures { IfOk result (λ named. named.items
        ≡ map (primary_of problem.now) (range_with_len 0 (length problem.now.options))) }
{
    let mut lists = Vec::with_capacity(alloc, problem.options())?;
    for option in 0..problem.options() as u16 {
        lists.push(primary_items_of(alloc, problem, option)?)?;
    }
    Ok(lists)
}

/// The primary items of an option, in its order; the only error is out of memory.
fn primary_items_of(alloc: Global, problem: &Problem, option: u16) -> Result<Numbers, AllocError>
    requires { option < length problem.now.options }
    ensures { IfOk result (λ items. items ≡ primary_of problem.now option) }
{
    let primary = problem.primary();
    let items = problem
        .option(option)
        .iter()
        .copied()
        .filter(|item| (*item as usize) < primary)
        .collect(alloc)?;
    Ok(Numbers::from_vec(items))
}

/// Makes a set that of the options below a number.
fn fill_below(set: &mut [u64], options: usize)
    requires { length set.old ≡ (options + 63) / 64 }
    ensures { (x : ℕ) → has set.new x ≡ nat_lt x options }
{
    for place in 0..set.len() {
        // (each word begins below the number of options, so the difference is never negative)
        set[place] = word_below(options - place * 64);
    }
}

/// A word with so many of its bits, from the lowest on, or with all of them.
pub fn word_below(count: usize) -> u64
    ensures { (k : ℕ) → k < 64 → (bit_at result k == 1) ≡ nat_lt k count }
{
    if count >= 64 {
        return u64::MAX;
    }
    (1 << count) - 1
}
