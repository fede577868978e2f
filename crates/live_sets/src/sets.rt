//! The live options of a problem in which options are chosen.

ghost use Rattle.std.specs.Prelude.{◌≡◌, ℕ, ◌+◌, ◌<◌, ◌≤◌, [], length, IfOk, IfSome, IsTrue, true, false, slice_get};
ghost use Rattle.cover_problem.specs.Branching.{branch_item, IsOpen};
ghost use Rattle.cover_problem.specs.Onward.{live_options_from};
ghost use Rattle.cover_problem.specs.Prefix.{is_covered, is_live, is_prefix};
ghost use Rattle.cover_problem.specs.Problem.{IsProblem};
ghost use Rattle.choices.specs.Keys.{IsKey, TellLive};
ghost use Rattle.choices.specs.Choices.{Choices, with_child, with_child_if, with_choice, IsChild, IsNextChoice};
ghost use Rattle.live_sets.specs.Rows.{IsUntried, IsTaken, IsPopped, untried_of};

use crate::keys::item_in;
use crate::levels::Levels;
use crate::made_choice::MadeChoice;
use crate::uncovered::WORD;
use crate::untried::{Untried, behind};
use cover_problem::Problem;
use option_sets::OptionSets;
use std::alloc::{AllocError, Global};
use std::marker::Model;

/// The options of a problem that are live, level by level, and the options that are chosen in it.
///
/// Only `build` takes memory.
#[derive(Drop)]
pub struct LiveSets<'a> {
    sets: &'a OptionSets<'a>,
    levels: Levels,
    /// Of each choice its item, and what is left behind its option.
    marks: Vec<MadeChoice<'a>>,
    /// The chosen options, in the order of the choices.
    chosen: Vec<u16>,
}

impl<'a> Model for LiveSets<'a> {
    ghost use Rattle.std.specs.Prelude.{vec_capacity, map, ◌≤◌};
    ghost use Rattle.choices.specs.Choices.{Choices};
    ghost use Rattle.live_sets.specs.Rows.{AreRows};

    ghost Value = { Choices };

    ghost view = { λ s. record {
      problem = s.sets.now;
      chosen = s.chosen.items;
      branches = map (λ m. m.item) s.marks.items;
    } };

    ghost invariant = { λ s. AreRows s.sets.now s.chosen.items s.marks.items s.levels
        × (s.sets.now.primary ≤ vec_capacity s.marks)
        × (s.sets.now.primary ≤ vec_capacity s.chosen) };
}

impl<'a> LiveSets<'a> {
    /// The live options of a problem in which nothing is chosen; the only error is out of memory.
    pub fn build(alloc: Global, sets: &'a OptionSets<'a>) -> Result<LiveSets<'a>, AllocError>
        ensures problem { IfOk result (λ rows. rows.problem ≡ sets.now) }
        ensures chosen { IfOk result (λ rows. rows.chosen ≡ []) }
    {
        let primary = sets.problem().primary();
        let chosen = Vec::with_capacity(alloc, primary)?;
        let marks = Vec::with_capacity(alloc, primary)?;
        let levels = Levels::build(alloc, sets)?;
        Ok(LiveSets {
            sets,
            levels,
            marks,
            chosen,
        })
    }

    /// The problem.
    pub fn problem(&self) -> &'a Problem
        ensures problem { result.now ≡ self.now.problem }
        ensures lawful { IsProblem self.now.problem }
    {
        self.sets.problem()
    }

    /// The chosen options, in the order of the choices.
    pub fn chosen(&self) -> &[u16]
        ensures chosen { result.now ≡ self.now.chosen }
        ensures prefix { is_prefix self.now.problem self.now.chosen ≡ true }
    {
        &self.chosen
    }

    /// The uncovered primary item with fewest live options, the first of those; none where all are covered.
    #[inline(always)]
    pub fn branch_item(&self) -> Option<u16>
        ensures item { result ≡ branch_item self.now.problem self.now.chosen }
        ensures uncovered { IfSome result (IsOpen self.now.problem self.now.chosen) }
        ensures named { IfSome result (λ item. item < length self.now.problem.names) }
    {
        item_in(self.levels.leasts[self.chosen.len()])
    }

    /// The words of the live options, where the branch item has one; none where it has none or all items are covered.
    #[inline(always)]
    fn live_options(&self) -> Option<&[u64]>
        ensures { IfSome result (λ live. TellLive self.now.problem self.now.chosen live.now) }
    {
        let item = self.branch_item()?;
        let live = self.levels.live_at(self.sets, self.chosen.len());
        let untried = Untried::of_row(self.sets.row(item));
        // (live options say which items are uncovered only if each of those has one; each has one if the branch item
        // does)
        untried.next(live)?;
        Some(live)
    }

    /// How many words a key has: those of the bits of the items where all are primary, else those of the live options.
    pub fn key_words(&self) -> usize
        ensures { result ≤ 1024 }
    {
        let problem = self.sets.problem();
        // (for the rules that there are at most 1,000 items, and at most 20,000 options, whose bits take 313 words)
        problem.recall_rules();
        if problem.primary() == problem.items() {
            problem.items().div_ceil(WORD)
        } else {
            self.sets.words()
        }
    }

    /// Writes the key of the chosen options, if the words are as many as it has and the branch item has a live option.
    /// Answers whether it did.
    #[inline(always)]
    pub fn write_key(&self, words: &mut [u64]) -> bool
        ensures { IsTrue result → IsKey self.now.problem self.now.chosen words.new }
    {
        // (where the branch item has none, the search is at its end sooner than a look)
        let Some(live) = self.live_options() else {
            return false;
        };
        let problem = self.sets.problem();
        if problem.primary() == problem.items() {
            return self
                .levels
                .counts
                .write_uncovered(self.sets, &self.chosen, words);
        }
        if words.len() != live.len() {
            return false;
        }
        words.copy_from_slice(live);
        true
    }

    /// Chooses a live option, by its first primary item.
    pub fn choose(&mut self, option: u16)
        requires option { option < length self.old.problem.options }
        requires live { is_live self.old.problem self.old.chosen option ≡ true }
        ensures { self.new ≡ with_choice self.old option }
    {
        // (each option of a problem names a primary item)
        let item = self.sets.primary_items(option)[0];
        let live = self.levels.live_at(self.sets, self.chosen.len());
        let untried = behind(self.sets.row(item), live, option);
        self.push(option, MadeChoice::new(item, untried));
    }

    /// Chooses the first live option that names an uncovered item, by that item. Answers the option; where there is
    /// none, nothing changes.
    #[inline(always)]
    pub fn choose_first(&mut self, item: u16) -> Option<u16>
        requires item { item < length self.old.problem.names }
        requires uncovered { is_covered self.old.problem self.old.chosen item ≡ false }
        ensures first { result ≡ slice_get
            (live_options_from self.old.problem self.old.chosen item 0) 0 }
        ensures child { IfSome result (IsChild self.old.problem self.old.chosen item) }
        ensures chosen { self.new ≡ with_child_if self.old item result }
    {
        let untried = Untried::of_row(self.sets.row(item));
        self.take(MadeChoice::new(item, untried))
    }

    /// Chooses, in place of the option that was chosen last, the next one that was live and names the item by which
    /// that one was chosen. Answers the option; where none follows, the choice is taken back.
    #[inline(always)]
    pub fn choose_next(&mut self) -> Option<u16>
        requires { 0 < length self.old.chosen }
        ensures { (before : Choices) (item option : ℕ) → self.old ≡ with_child before item option →
            IsNextChoice before item option result self.new }
    {
        let (_, mark) = self.pop();
        // (a short cut: the call below would find none, too, after it has looked up the live options)
        if mark.untried().is_empty() {
            return None;
        }
        self.take(mark)
    }

    /// Takes the last choice back, and answers it.
    pub fn undo(&mut self) -> u16
        requires { 0 < length self.old.chosen }
        ensures { (item : ℕ) × (self.old ≡ with_child self.new item result) }
    {
        let (option, _) = self.pop();
        option
    }

    /// Chooses the first live option that is left, by an item; where none is left, nothing changes.
    #[inline(always)]
    fn take(&mut self, mark: MadeChoice<'a>) -> Option<u16>
        requires { (start : ℕ) × IsUntried self.old.problem self.old.chosen mark.item start (untried_of mark) }
        ensures { (start : ℕ) → IsUntried self.old.problem self.old.chosen mark.entry.item start (untried_of mark.entry)
            → IsTaken self.old mark.entry.item start result self.new }
    {
        let live = self.levels.live_at(self.sets, self.chosen.len());
        let (option, untried) = mark.untried().next(live)?;
        self.push(option, MadeChoice::new(mark.item, untried));
        Some(option)
    }

    /// Chooses a live option by an item, of which it leaves what comes behind the option.
    #[inline(always)]
    fn push(&mut self, option: u16, mark: MadeChoice<'a>)
        requires option { option < length self.old.problem.options }
        requires live { is_live self.old.problem self.old.chosen option ≡ true }
        requires untried { IsUntried self.old.problem self.old.chosen mark.item (option + 1) (untried_of mark) }
        ensures { self.new ≡ with_child self.old mark.entry.item option }
    {
        self.levels.push(self.sets, &self.chosen, option);
        self.marks.push_reserved(mark);
        self.chosen.push_reserved(option);
    }

    /// Takes the last choice back: the option, and by which item it was chosen, with what is left behind it.
    #[inline(always)]
    fn pop(&mut self) -> (u16, MadeChoice<'a>)
        requires { 0 < length self.old.chosen }
        ensures { IsPopped self.old result.0 result.1 self.new }
    {
        let last = self.chosen.len() - 1;
        let option = self.chosen[last];
        let mark = self.marks[last];
        self.chosen.pop();
        self.marks.pop();
        (option, mark)
    }
}
