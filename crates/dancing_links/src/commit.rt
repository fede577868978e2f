//! The nodes of an option cover their items one after the other; an item that has its colour already is not covered
//! again.
//!
//! `commit` is Knuth's name (TAOCP 7.2.2.1, Algorithm C). His purified nodes get a negative colour, so that later
//! options know that the item has its colour. Here each item counts the chosen options that gave it one: the first
//! covers it, and no node changes.

ghost use Rattle.std.specs.Prelude.{◌≡◌, ◌<◌, ◌≤◌, ◌+◌, ◌∷◌, [], drop, length, take};
ghost use Rattle.std.specs.List.{All};
ghost use Rattle.dancing_links.specs.Board.{CoversNodes, HasRoomFor, IsLawful, UncoversNodes};
ghost use Rattle.dancing_links.specs.Columns.{column_of, colour_at, IsLinked, IsOptionNode};
ghost use Rattle.dancing_links.specs.Committing.{IsCommits, HasRoomNext, Recommits, uncommit, committed, covering};
ghost use Rattle.dancing_links.specs.Covering.{nodes_by, others};
ghost use Rattle.dancing_links.specs.Trail.{IsMiddle};

use crate::board::Board;
use crate::layout::{Layout, Rows};

/// A node gives its item its colour: where none did before, the item is covered.
#[inline(never)]
fn give(layout: &Layout, board: &mut Board, node: usize)
    requires node { (layout.now.heads + layout.now.heads ≤ node + 1) × (node < layout.now.tails) }
    requires colour { 0 < colour_at layout.now node }
    requires lawful { IsLawful layout.now board.old }
    requires room { HasRoomFor layout.now (node ∷ []) board.old }
    ensures linked { IsLinked layout.now board.new.links }
    ensures covers { CoversNodes layout.now (node ∷ []) board.old board.new }
{
    let item = layout.item_at(node);
    let is_first = board.count_commit(item);
    if is_first {
        board.purify(layout, node);
    }
}

/// Lets a node cover its item. One with a colour gives it to the item, and covers nothing where that was done before.
pub fn commit(layout: &Layout, board: &mut Board, node: usize)
    requires node { (layout.now.heads + layout.now.heads ≤ node + 1) × (node < layout.now.tails) }
    requires lawful { IsLawful layout.now board.old }
    requires room { HasRoomFor layout.now (node ∷ []) board.old }
    ensures linked { IsLinked layout.now board.new.links }
    ensures covers { CoversNodes layout.now (node ∷ []) board.old board.new }
{
    let colour = layout.colour_at(node);
    if colour == 0 {
        board.cover(layout, layout.item_at(node));
    } else {
        give(layout, board, node);
    }
}

/// Uncovers the item that a node covered last: the trail has what that hid from a place on.
pub fn uncover_one(layout: &Layout, board: &mut Board, start: usize, node: usize)
    requires node { (layout.now.heads + layout.now.heads ≤ node + 1) × (node < layout.now.tails) }
    requires lawful { IsLawful layout.now board.old }
    requires start { start ≤ length board.old.trail }
    requires trail { All (IsOptionNode layout.now) (drop start board.old.trail) }
    ensures linked { IsLinked layout.now board.new.links }
    ensures uncovers { UncoversNodes layout.now (node ∷ []) start board.old board.new }
    ensures commits { board.new.commits ≡ uncommit layout.now board.old.commits node }
{
    // (for what the getter says: that the table is lawful)
    let _heads = layout.heads();
    board.put_back(layout, start);
    board.uncommit(layout, node);
}

/// Lets a node cover its item in place of another one of its column, which covered it last, and put what it hid on the
/// trail from a place on. Where neither has a colour, nothing changes.
pub fn recommit(layout: &Layout, board: &mut Board, start: usize, last: usize, next: usize)
    requires last { (layout.now.heads + layout.now.heads ≤ last + 1) × (last < layout.now.tails) }
    requires next { (layout.now.heads + layout.now.heads ≤ next + 1) × (next < layout.now.tails) }
    requires column { column_of layout.now next
        ≡ column_of layout.now last }
    requires lawful { IsLawful layout.now board.old }
    requires start { start ≤ length board.old.trail }
    requires trail { All (IsOptionNode layout.now) (drop start board.old.trail) }
    requires room { HasRoomNext layout.now board.old.links board.old.commits
        (take start board.old.trail) (drop start board.old.trail) last board.old.room }
    ensures linked { IsLinked layout.now board.new.links }
    ensures recovers { Recommits layout.now board.old.commits board.old.links board.old.keys
        board.old.trail start last next board.new.links board.new.keys board.new.trail
        board.new.commits }
    ensures count { length board.new.keys ≡ length board.old.keys }
    ensures room { board.new.room ≡ board.old.room }
{
    // (without colours the item hides the same whichever of its options is chosen)
    if layout.colour_at(last) != 0 || layout.colour_at(next) != 0 {
        uncover_one(layout, board, start, last);
        commit(layout, board, next);
    }
}

/// Lets the other nodes of a node's option cover their items, the next one first.
#[inline(always)]
pub fn cover_others(layout: &Layout, board: &mut Board, node: usize)
    requires node { (layout.now.heads + layout.now.heads ≤ node + 1) × (node < layout.now.tails) }
    requires lawful { IsLawful layout.now board.old }
    requires room { HasRoomFor layout.now (others layout.now node) board.old }
    ensures linked { IsLinked layout.now board.new.links }
    ensures covers { CoversNodes layout.now (others layout.now node) board.old board.new }
{
    let places = layout.places();
    let rows = Rows { layout, places };
    let mut other = rows.right_of(node);
    while other != node {
        commit(layout, board, other);
        other = rows.right_of(other);
    }
}

/// Uncovers the items that the other nodes of a node's option covered: the trail has what that hid from a place on.
#[inline(always)]
pub fn uncover_others(layout: &Layout, board: &mut Board, start: usize, node: usize)
    requires node { (layout.now.heads + layout.now.heads ≤ node + 1) × (node < layout.now.tails) }
    requires lawful { IsLawful layout.now board.old }
    requires start { start ≤ length board.old.trail }
    requires trail { All (IsOptionNode layout.now) (drop start board.old.trail) }
    ensures linked { IsLinked layout.now board.new.links }
    ensures uncovers { UncoversNodes layout.now (others layout.now node) start board.old board.new }
    ensures kept { IsCommits layout.now board.new.commits }
    ensures commits { committed layout.now board.new.commits
        (others layout.now node) ≡ board.old.commits }
{
    // (for what the getter says: that the table is lawful)
    let _heads = layout.heads();
    board.put_back(layout, start);
    board.uncommit_others(layout, node);
}

/// Lets the nodes of a node's option cover their items: itself first, then the others from the next one on. Answers the
/// top of the trail once it did.
pub fn cover_from(layout: &Layout, board: &mut Board, node: usize) -> usize
    requires node { (layout.now.heads + layout.now.heads ≤ node + 1) × (node < layout.now.tails) }
    requires lawful { IsLawful layout.now board.old }
    requires room { HasRoomFor layout.now (nodes_by layout.now node) board.old }
    ensures linked { IsLinked layout.now board.new.links }
    ensures covers { CoversNodes layout.now (nodes_by layout.now node) board.old board.new }
    ensures middle { IsMiddle layout.now board.old.links
        (covering layout.now board.old.commits (node ∷ [])) board.old.trail result }
{
    // (for what the getter says: that the table is lawful)
    let _heads = layout.heads();
    commit(layout, board, node);
    // (above it on the trail is what the other items hide: without colours only that goes back for the item's next
    // option)
    let middle = board.out();
    cover_others(layout, board, node);
    middle
}

/// Uncovers those items, in the reverse order: the trail has what that hid from a place on.
#[inline(always)]
pub fn uncover_from(layout: &Layout, board: &mut Board, start: usize, node: usize)
    requires node { (layout.now.heads + layout.now.heads ≤ node + 1) × (node < layout.now.tails) }
    requires lawful { IsLawful layout.now board.old }
    requires start { start ≤ length board.old.trail }
    requires trail { All (IsOptionNode layout.now) (drop start board.old.trail) }
    ensures linked { IsLinked layout.now board.new.links }
    ensures uncovers { UncoversNodes layout.now (nodes_by layout.now node) start board.old board.new }
    ensures kept { IsCommits layout.now board.new.commits }
    ensures commits { committed layout.now board.new.commits
        (nodes_by layout.now node) ≡ board.old.commits }
{
    // (for what the getter says: that the table is lawful)
    let _heads = layout.heads();
    board.put_back(layout, start);
    board.uncommit_others(layout, node);
    board.uncommit(layout, node);
}
