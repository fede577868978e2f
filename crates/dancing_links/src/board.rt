//! What covering and uncovering change, as one.

ghost use Rattle.std.specs.Prelude.{◌≡◌, ◌==◌, ◌<◌, ◌≤◌, ◌+◌, ◌∷◌, [], drop, length, slice_index_or, take};
ghost use Rattle.std.specs.List.{All};
ghost use Rattle.dancing_links.specs.Board.{board, counted, CoversItem, PutsBack, Unmarks};
ghost use Rattle.dancing_links.specs.Columns.{column_of, colour_at, IsLinked, IsOptionNode};
ghost use Rattle.dancing_links.specs.Committing.{IsCommits, committed, uncommit as uncommitted};
ghost use Rattle.dancing_links.specs.Covering.{others};
ghost use Rattle.dancing_links.specs.Trail.{HasRoom};

use crate::cover::{cover, piece_of, purify, restore};
use crate::layout::Layout;
use crate::link::Link;
use crate::uncommit::{uncommit, uncommit_others};
use std::marker::Model;

/// The links, the keys, how often each item got a colour, and the nodes that left their columns.
///
/// Contracts see the trail up to its top, and for how many nodes it has room.
#[derive(Drop)]
pub struct Board {
    links: Vec<Link>,
    /// The key of each item, by which the branch item is found.
    keys: Vec<u32>,
    /// How many chosen options give each item a colour.
    commits: Vec<u32>,
    /// The nodes that left their columns, in the order in which they did, and room for all others.
    trail: Vec<u32>,
    /// How many nodes are on the trail.
    out: usize,
}

impl Model for Board {
    ghost use Rattle.std.specs.Prelude.{◌≤◌, length, take};
    ghost use Rattle.dancing_links.specs.Board.{Board as BoardValue, board};

    ghost Value = { BoardValue };

    ghost view = { λ b. board b.links.items b.keys.items b.commits.items
        (take b.out b.trail.items) (length b.trail.items) };

    ghost invariant = { λ b. b.out ≤ length b.trail.items };
}

impl Board {
    /// A board whose trail is empty, with room for as many nodes as the trail is long.
    pub fn new(links: Vec<Link>, keys: Vec<u32>, commits: Vec<u32>, trail: Vec<u32>) -> Board
        ensures { result ≡ board links.items keys.items commits.items [] (length trail.items) }
    {
        Board {
            links,
            keys,
            commits,
            trail,
            out: 0,
        }
    }

    /// The links.
    #[inline(always)]
    pub fn links(&self) -> &[Link]
        ensures { result.now ≡ self.now.links }
    {
        &self.links
    }

    /// The keys.
    #[inline(always)]
    pub fn keys(&self) -> &[u32]
        ensures { result.now ≡ self.now.keys }
    {
        &self.keys
    }

    /// How many nodes are on the trail.
    #[inline(always)]
    pub fn out(&self) -> usize
        ensures { result ≡ length self.now.trail }
    {
        self.out
    }

    /// Covers an item that gets no colour.
    #[inline(always)]
    pub fn cover(&mut self, layout: &Layout, item: usize)
        requires item { item + 1 < layout.now.heads }
        requires linked { IsLinked layout.now self.old.links }
        requires keys { length self.old.keys + 1 ≡ layout.now.heads }
        requires room { HasRoom layout.now self.old.links item self.old.trail self.old.room }
        ensures linked { IsLinked layout.now self.new.links }
        ensures covers { CoversItem layout.now item 0 self.old self.new }
    {
        let top = self.out;
        self.out = cover(
            layout,
            &mut self.links,
            &mut self.keys,
            &mut self.trail,
            top,
            item,
        );
    }

    /// Covers the item of a node with a colour, which the item gets.
    #[inline(always)]
    pub fn purify(&mut self, layout: &Layout, node: usize)
        requires node { (layout.now.heads + layout.now.heads ≤ node + 1) × (node < layout.now.tails) }
        requires colour { 0 < colour_at layout.now node }
        requires linked { IsLinked layout.now self.old.links }
        requires keys { length self.old.keys + 1 ≡ layout.now.heads }
        requires room { HasRoom layout.now self.old.links (column_of layout.now node) self.old.trail
            self.old.room }
        ensures linked { IsLinked layout.now self.new.links }
        ensures covers { CoversItem layout.now (column_of layout.now node)
            (colour_at layout.now node) self.old self.new }
    {
        let top = self.out;
        self.out = purify(
            layout,
            &mut self.links,
            &mut self.keys,
            &mut self.trail,
            top,
            node,
        );
    }

    /// Puts back what is on the trail from a place on.
    #[inline(always)]
    pub fn put_back(&mut self, layout: &Layout, start: usize)
        requires start { start ≤ length self.old.trail }
        requires nodes { All (IsOptionNode layout.now) (drop start self.old.trail) }
        requires linked { IsLinked layout.now self.old.links }
        requires keys { length self.old.keys + 1 ≡ layout.now.heads }
        ensures linked { IsLinked layout.now self.new.links }
        ensures back { PutsBack layout.now start self.old self.new }
    {
        let piece = piece_of(&self.trail, start, self.out);
        restore(layout, &mut self.links, &mut self.keys, piece);
        self.out = start;
    }

    /// Counts that an item got its colour once more; answers whether it was the first time.
    #[inline(always)]
    pub fn count_commit(&mut self, item: usize) -> bool
        requires { item < length self.old.commits }
        ensures first { result ≡ (slice_index_or self.old.commits item 0 == 0) }
        ensures counted { self.new ≡ counted self.old item }
    {
        let is_first = self.commits[item] == 0;
        // (it counts chosen options, at most 1,000, so it never wraps, and no contract needs to bound it)
        self.commits[item] = self.commits[item].wrapping_add(1);
        is_first
    }

    /// Takes the mark off the item that a node covered, and takes back that it gave it a colour.
    #[inline(always)]
    pub fn uncommit(&mut self, layout: &Layout, node: usize)
        requires node { (layout.now.heads + layout.now.heads ≤ node + 1) × (node < layout.now.tails) }
        requires keys { length self.old.keys + 1 ≡ layout.now.heads }
        requires commits { IsCommits layout.now self.old.commits }
        ensures unmarks { Unmarks layout.now (node ∷ []) self.old self.new }
        ensures commits { self.new.commits ≡ uncommitted layout.now self.old.commits node }
    {
        uncommit(layout, &mut self.keys, &mut self.commits, node);
    }

    /// The same for the other nodes of a node's option.
    #[inline(always)]
    pub fn uncommit_others(&mut self, layout: &Layout, node: usize)
        requires node { (layout.now.heads + layout.now.heads ≤ node + 1) × (node < layout.now.tails) }
        requires keys { length self.old.keys + 1 ≡ layout.now.heads }
        requires commits { IsCommits layout.now self.old.commits }
        ensures unmarks { Unmarks layout.now (others layout.now node) self.old self.new }
        ensures kept { IsCommits layout.now self.new.commits }
        ensures commits { committed layout.now self.new.commits (others layout.now node)
            ≡ self.old.commits }
    {
        uncommit_others(layout, &mut self.keys, &mut self.commits, node);
    }
}
