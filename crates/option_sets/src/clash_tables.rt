//! Which options each option bars, by the items that it names and the colours that it gives them.

ghost use Rattle.std.specs.Prelude.{◌≡◌, ℕ, ◌<◌, length, not, ◌&&◌, slice_index, IfOk};
ghost use Rattle.cover_problem.specs.Prefix.{clash};
ghost use Rattle.cover_problem.specs.Problem.{IsProblem, items_of};
ghost use Rattle.option_sets.specs.Sets.{words_of, has, IsRow};
ghost use Rattle.option_sets.specs.ClashTables.{clash_at};

use crate::clear::{clear_row, clear_row_but};
use crate::lists::Tints;
use crate::row::Row;
use crate::rows::{rows_of_items, rows_of_tints};
use crate::tints::tints_of;
use crate::word::Word;
use cover_problem::Problem;
use std::alloc::{AllocError, Global};
use std::marker::Model;

/// Of each item the options that name it, of each tint those that have it, and the tints of each option.
#[derive(Drop)]
pub struct ClashTables<'a> {
    problem: &'a Problem,
    rows: Vec<Row>,
    tints: Vec<Row>,
    lists: Vec<Tints>,
}

impl<'a> Model for ClashTables<'a> {
    ghost use Rattle.cover_problem.specs.Problem.{Problem as ProblemValue};
    ghost use Rattle.option_sets.specs.ClashTables.{AreClashTables};

    ghost Value = { ProblemValue };

    ghost view = { λ t. t.problem.now };

    ghost invariant = { λ t. AreClashTables t.problem.now t.rows.items t.tints.items t.lists.items };
}

impl<'a> ClashTables<'a> {
    /// The tables of a problem; the only error is out of memory.
    pub fn build(alloc: Global, problem: &'a Problem) -> Result<ClashTables<'a>, AllocError>
        ensures { IfOk result (λ tables. tables ≡ problem.now) }
    {
        let rows = rows_of_items(alloc, problem)?;
        let (lists, numbering) = tints_of(alloc, problem)?;
        let tints = rows_of_tints(alloc, numbering.len(), &lists)?;
        Ok(ClashTables {
            problem,
            rows,
            tints,
            lists,
        })
    }

    /// The problem.
    #[inline(always)]
    pub fn problem(&self) -> &'a Problem
        ensures problem { result.now ≡ self.now }
        ensures lawful { IsProblem self.now }
    {
        self.problem
    }

    /// How many words a set of options has.
    pub fn words(&self) -> usize
        ensures words { result ≡ words_of self.now }
        ensures lawful { IsProblem self.now }
    {
        self.problem.options().div_ceil(64)
    }

    /// The options that name an item.
    #[inline(always)]
    pub fn row(&self, item: u16) -> &[Word]
        requires { item < length self.now.names }
        ensures { IsRow self.now item result.now }
    {
        self.rows[item as usize].as_slice()
    }

    /// Takes the options that clash with an option out of a set.
    pub fn bar(&self, option: u16, set: &mut [u64])
        requires option { option < length self.now.options }
        requires set { length set.old ≡ words_of self.now }
        ensures { (x : ℕ) → has set.new x ≡ (has set.old x && not (clash self.now option x)) }
    {
        for place in 0..self.problem.option(option).len() {
            self.bar_item(option, place, set);
        }
    }

    /// Takes the options out of a set that name the item at a place of an option and don't agree with it there.
    #[inline(always)]
    fn bar_item(&self, option: u16, place: usize, set: &mut [u64])
        requires option { option < length self.now.options }
        requires place { place < length (items_of self.now option) }
        requires set { length set.old ≡ words_of self.now }
        ensures { (x : ℕ) → has set.new x ≡ (has set.old x
            && not (clash_at self.now option (slice_index (items_of self.now option) place) x)) }
    {
        let item = self.problem.option(option)[place];
        let tint = self.lists[option as usize].as_slice()[place];
        let row = self.rows[item as usize].as_slice();
        // (the option gives no colour: then all options that name the item clash with it, itself among them)
        if tint == 0 {
            clear_row(set, row);
        } else {
            clear_row_but(set, row, self.tints[tint as usize].as_slice());
        }
    }
}
