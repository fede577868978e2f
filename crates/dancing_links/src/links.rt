//! The links of a problem in which options are chosen.

ghost use Rattle.std.specs.Prelude.{◌≡◌, ℕ, ◌+◌, ◌-◌, ◌<◌, ◌≤◌, ◌==◌, ◌&&◌, [], length, not, nat_lt, IfOk, IfSome, true, false, slice_get};
ghost use Rattle.cover_problem.specs.Branching.{branch_item, live_options, IsOpen};
ghost use Rattle.cover_problem.specs.Onward.{open_items_from, live_options_from};
ghost use Rattle.cover_problem.specs.Problem.{IsProblem};
ghost use Rattle.choices.specs.Choices.{Choices, with_child, with_child_if, with_choice, IsChild, IsNextChoice};
ghost use Rattle.dancing_links.specs.Choices.{IsPrimary};
ghost use Rattle.dancing_links.specs.Columns.{colour_at, IsLinked};
ghost use Rattle.dancing_links.specs.Linking.{down_of};
ghost use Rattle.dancing_links.specs.Table.{table};
ghost use Rattle.cover_problem.specs.Prefix.{is_covered, is_live, is_prefix};

use crate::board::Board;
use crate::build::build_links;
use crate::commit::{
    cover_from, cover_others, recommit, uncover_from, uncover_one, uncover_others,
};
use crate::keys::{build_keys, count_in, first_unmarked, is_marked, item_in, least_of};
use crate::layout::{Layout, layout_of};
use crate::link::Link;
use crate::options::OptionsOf;
use crate::trail_mark::TrailMark;
use cover_problem::Problem;
use std::alloc::{AllocError, Global};
use std::marker::Model;

/// The dancing links of a problem, and the options that are chosen in it.
///
/// Each choice covers the items of its option, from the one on by which it is made; only `build` takes memory.
#[derive(Drop)]
pub struct Links<'a> {
    problem: &'a Problem,
    layout: Layout,
    board: Board,
    /// How long the trail was at each choice.
    marks: Vec<TrailMark>,
    /// The chosen options, in the order of the choices.
    chosen: Vec<u16>,
    /// The node by which each was chosen: the items of its option were covered from its own on.
    entries: Vec<u32>,
}

impl<'a> Model for Links<'a> {
    ghost use Rattle.std.specs.Prelude.{vec_capacity, map, ◌≡◌, ◌≤◌};
    ghost use Rattle.dancing_links.specs.Columns.{column_of};
    ghost use Rattle.choices.specs.Choices.{Choices};
    ghost use Rattle.dancing_links.specs.Choices.{IsLinks, IsTrail, commits_of};

    ghost Value = { Choices };

    ghost view = { λ s. record {
      problem = s.problem.now;
      chosen = s.chosen.items;
      branches = map
          (column_of s.layout) s.entries.items;
    } };

    ghost invariant = { λ s. IsLinks s.problem.now
        s.layout s.chosen.items s.entries.items s.board.links s.board.keys
        (vec_capacity s.chosen)
        × (s.problem.now.primary ≤ vec_capacity s.entries) × (s.board.commits
        ≡ commits_of s.layout s.entries.items)
        × IsTrail s.layout s.problem.now.primary s.entries.items
        s.board.trail s.board.room s.marks.items
        (vec_capacity s.marks) };
}

impl<'a> Links<'a> {
    /// The links of a problem in which nothing is chosen; the only error is out of memory.
    pub fn build(alloc: Global, problem: &'a Problem) -> Result<Links<'a>, AllocError>
        ensures problem { IfOk result (λ links. links.problem ≡ problem.now) }
        ensures chosen { IfOk result (λ links. links.chosen ≡ []) }
    {
        // (each choice covers a primary item, so there is room for all choices, and the search takes no memory)
        let chosen = Vec::with_capacity(alloc, problem.primary())?;
        let entries = Vec::with_capacity(alloc, problem.primary())?;
        let marks = Vec::with_capacity(alloc, problem.primary())?;
        let layout = layout_of(alloc, problem)?;
        let mut trail = Vec::new(alloc);
        // (no node leaves its column twice, so this is room enough for all that leave)
        trail.resize(layout.tails(), 0)?;
        let links = build_links(alloc, &layout)?;
        let keys = build_keys(alloc, &layout)?;
        let mut commits = Vec::new(alloc);
        commits.resize(problem.items(), 0)?;
        Ok(Links {
            problem,
            layout,
            board: Board::new(links, keys, commits, trail),
            marks,
            chosen,
            entries,
        })
    }

    /// The problem.
    pub fn problem(&self) -> &'a Problem
        ensures problem { result.now ≡ self.now.problem }
        ensures lawful { IsProblem self.now.problem }
    {
        self.problem
    }

    /// The chosen options, in the order of the choices.
    pub fn chosen(&self) -> &[u16]
        ensures chosen { result.now ≡ self.now.chosen }
        ensures prefix { is_prefix self.now.problem self.now.chosen ≡ true }
    {
        &self.chosen
    }

    /// Chooses a live option, by its first primary item.
    pub fn choose(&mut self, option: u16)
        requires option { option < length self.old.problem.options }
        requires live { is_live self.old.problem self.old.chosen option ≡ true }
        ensures { self.new ≡ with_choice self.old option }
    {
        // (always the first primary item: so after such choices the links depend on the options alone)
        let node = primary_node(&self.layout, self.problem, option);
        let start = self.board.out();
        let middle = cover_from(&self.layout, &mut self.board, node);
        self.marks.push_reserved(TrailMark { start, middle });
        self.entries.push_reserved(node as u32);
        self.chosen.push_reserved(option);
    }

    /// Chooses the first live option that names an uncovered item, by that item: it is covered first, then the option's
    /// other items in turn. Answers the option; where there is none, nothing changes.
    pub fn choose_first(&mut self, item: u16) -> Option<u16>
        requires item { item < length self.old.problem.names }
        requires uncovered { is_covered self.old.problem self.old.chosen item ≡ false }
        ensures first { result ≡ slice_get
            (live_options_from self.old.problem self.old.chosen item 0) 0 }
        ensures child { IfSome result (IsChild self.old.problem self.old.chosen item) }
        ensures chosen { self.new ≡ with_child_if self.old item result }
    {
        let node = self.board.links()[item as usize].down as usize;
        if node >= self.layout.tails() {
            return None;
        }
        let option = self.layout.option_at(node);
        let start = self.board.out();
        let middle = cover_from(&self.layout, &mut self.board, node);
        self.marks.push_reserved(TrailMark { start, middle });
        self.entries.push_reserved(node as u32);
        self.chosen.push_reserved(option);
        Some(option)
    }

    /// Chooses, in place of the option that was chosen last, the next one that was live and names the item by which
    /// that one was chosen. The item stays covered, in the colour that the option gives it. Answers the option; where
    /// none follows, the choice is taken back.
    #[inline(always)]
    pub fn choose_next(&mut self) -> Option<u16>
        requires { 0 < length self.old.chosen }
        ensures { (before : Choices) (item option : ℕ) → self.old ≡ with_child before item option →
            IsNextChoice before item option result self.new }
    {
        let node = self.entries[self.entries.len() - 1] as usize;
        let mark = self.marks[self.marks.len() - 1];
        self.marks.pop();
        self.entries.pop();
        self.chosen.pop();
        let layout = &self.layout;
        if is_last(layout, self.board.links(), node) {
            // What the item hid and what the others hid comes back in one pass, in place of two.
            uncover_from(layout, &mut self.board, mark.start, node);
            return None;
        }
        uncover_others(layout, &mut self.board, mark.middle, node);
        // (read only now: in a column whose item has a colour, covering the others may have taken out nodes below)
        let next = self.board.links()[node].down as usize;
        if next >= layout.tails() {
            uncover_one(layout, &mut self.board, mark.start, node);
            return None;
        }
        let option = layout.option_at(next);
        let start = mark.start;
        recommit(layout, &mut self.board, start, node, next);
        let middle = self.board.out();
        cover_others(layout, &mut self.board, next);
        self.marks.push_reserved(TrailMark { start, middle });
        self.entries.push_reserved(next as u32);
        self.chosen.push_reserved(option);
        Some(option)
    }

    /// Takes the last choice back, and answers it: all links are as before it.
    pub fn undo(&mut self) -> u16
        requires { 0 < length self.old.chosen }
        ensures { (item : ℕ) × (self.old ≡ with_child self.new item result) }
    {
        let option = self.chosen[self.chosen.len() - 1];
        let node = self.entries[self.entries.len() - 1] as usize;
        let mark = self.marks[self.marks.len() - 1];
        self.marks.pop();
        self.entries.pop();
        self.chosen.pop();
        uncover_from(&self.layout, &mut self.board, mark.start, node);
        option
    }

    /// Whether an item stands in a chosen option.
    pub fn is_covered(&self, item: u16) -> bool
        requires { item < length self.now.problem.names }
        ensures { result ≡ is_covered self.now.problem self.now.chosen item }
    {
        is_marked(self.board.keys()[item as usize])
    }

    /// Whether an option clashes with no chosen one: its first primary item is uncovered, and its node there is in.
    pub fn is_live(&self, option: u16) -> bool
        requires { option < length self.now.problem.options }
        ensures { result ≡ is_live self.now.problem self.now.chosen option }
    {
        let node = primary_node(&self.layout, self.problem, option);
        let item = self.layout.item_at(node) as u16;
        // (both: the nodes of a covered item stay in its own column, so being in doesn't say that they are live)
        !self.is_covered(item) && self.layout.is_known(self.board.links(), node)
    }

    /// How many live options name an uncovered item.
    pub fn count(&self, item: u16) -> usize
        requires item { item < length self.now.problem.names }
        requires uncovered { is_covered self.now.problem self.now.chosen item ≡ false }
        ensures { result ≡ length (live_options self.now.problem self.now.chosen item) }
    {
        count_in(self.board.keys()[item as usize])
    }

    /// The uncovered primary item with fewest live options, the first of those; none where all are covered.
    pub fn branch_item(&self) -> Option<u16>
        ensures item { result ≡ branch_item self.now.problem self.now.chosen }
        ensures uncovered { IfSome result (IsOpen self.now.problem self.now.chosen) }
        ensures named { IfSome result (λ item. item < length self.now.problem.names) }
    {
        let primary = self.problem.primary();
        let least = least_of(&self.board.keys()[..primary]);
        item_in(least)
    }

    /// The first uncovered primary item; none where all are covered.
    ///
    /// With `next_item` the uncovered items can be walked through in the order of the file. A search asks for its
    /// branch item instead, so only tests call the two.
    pub fn first_item(&self) -> Option<u16>
        ensures first { result ≡ slice_get (open_items_from self.now.problem self.now.chosen 0) 0 }
        ensures uncovered { IfSome result (IsOpen self.now.problem self.now.chosen) }
        ensures item { IfSome result (λ item. item < length self.now.problem.names) }
    {
        first_unmarked(self.board.keys(), 0, self.problem.primary())
    }

    /// The next uncovered primary item after an uncovered item; none where no more follows.
    pub fn next_item(&self, item: u16) -> Option<u16>
        requires item { item < length self.now.problem.names }
        requires uncovered { is_covered self.now.problem self.now.chosen item ≡ false }
        ensures next { result ≡ slice_get
            (open_items_from self.now.problem self.now.chosen (item + 1)) 0 }
        ensures uncovered { IfSome result (IsOpen self.now.problem self.now.chosen) }
        ensures item { IfSome result (λ next. next < length self.now.problem.names) }
        ensures later { IfSome result (λ next. item < next) }
    {
        first_unmarked(self.board.keys(), item as usize + 1, self.problem.primary())
    }

    /// The live options that name an uncovered item, in file order.
    pub fn options_of(&self, item: u16) -> OptionsOf<'_>
        requires item { item < length self.now.problem.names }
        requires uncovered { is_covered self.now.problem self.now.chosen item ≡ false }
        ensures { result ≡ live_options self.now.problem self.now.chosen item }
    {
        let node = self.board.links()[item as usize].down as usize;
        OptionsOf::from_node(&self.layout, self.board.links(), node)
    }
}

/// The node of an option's first primary item.
fn primary_node(layout: &Layout, problem: &Problem, option: u16) -> usize
    requires layout { layout.now ≡ table problem.now }
    requires option { option < length problem.now.options }
    ensures { IsPrimary problem.now layout.now option result }
{
    let (begin, end) = layout.node_range(option);
    layout.node_below(problem.primary(), begin, end)
}

/// Whether a node without a colour is the last one of its column that is in. While it covers its item, covering others
/// doesn't change that.
#[inline(always)]
fn is_last(layout: &Layout, links: &[Link], node: usize) -> bool
    requires node { (layout.now.heads + layout.now.heads ≤ node + 1) × (node < layout.now.tails) }
    requires linked { IsLinked layout.now links.now }
    ensures { result ≡ not (nat_lt (down_of links.now node) layout.now.tails)
        && colour_at layout.now node == 0 }
{
    let tails = layout.tails();
    // (with a colour, agreeing nodes below may be out for now: covering the option's other items took them out)
    links[node].down as usize >= tails && layout.colour_at(node) == 0
}
