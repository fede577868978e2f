//! Covering of items: their keys get a mark, and the options that name them leave the columns of their other items, but
//! for those that give an item the colour that it gets.
//!
//! This is Knuth's `cover` with `hide` (TAOCP 7.2.2.1), and his `purify` for colours. There are three differences. An
//! item leaves no list of items: its key is marked. Each node that leaves goes on a trail, so uncovering reads the
//! trail backwards and walks down no column. And of a colour no node is marked: a node that agrees simply stays.

ghost use Rattle.std.specs.Prelude.{◌≡◌, ◌<◌, ◌≤◌, ◌+◌, ◌++◌, drop, length, take};
ghost use Rattle.std.specs.List.{All};
ghost use Rattle.dancing_links.specs.Columns.{column_of, colour_at, IsLinked, IsOptionNode};
ghost use Rattle.dancing_links.specs.Keys.{fewer, more, KeysCovered};
ghost use Rattle.dancing_links.specs.Covering.{others, Covers};
ghost use Rattle.dancing_links.specs.Linking.{unlinks, relinks};
ghost use Rattle.dancing_links.specs.Trail.{HasRoom, Trails};

use crate::keys::{count_less, count_more, turn_mark};
use crate::layout::{Layout, Rows};
use crate::link::Link;

/// Takes the other nodes of a node's option out of their columns, the one to the right first, and puts them on top of
/// the trail; answers its new top.
#[inline(always)]
#[tactic(auto, unfolding(crate::specs::Covering::others))]
fn hide(
    rows: &Rows<'_>,
    links: &mut [Link],
    keys: &mut [u32],
    trail: &mut [u32],
    top: usize,
    node: usize,
) -> usize
    requires node { (rows.now.heads ≤ node) × (node < rows.now.tails) }
    requires linked { IsLinked rows.now links.old }
    requires keys { length keys.old + 1 ≡ rows.now.heads }
    requires room { top + length (others rows.now node) ≤ length trail.old }
    ensures linked { IsLinked rows.now links.new }
    ensures links { links.new ≡ unlinks links.old (others rows.now node) }
    ensures keys { keys.new
        ≡ fewer rows.now keys.old (others rows.now node) }
    ensures trail { take result trail.new ≡ take top trail.old ++ others rows.now node }
    ensures top { result ≤ length trail.new }
{
    let mut top = top;
    // (round the ring from the next node on, as in TAOCP: no test depends on where in its option the node is)
    let mut other = rows.right_of(node);
    while other != node {
        rows.unlink(links, other);
        count_less(rows, keys, other);
        trail[top] = other as u32;
        top += 1;
        other = rows.right_of(other);
    }
    top
}

/// Covers an item that gets no colour: marks its key, and takes all options that name it out of the columns of their
/// other items; answers the new top of the trail.
pub fn cover(
    layout: &Layout,
    links: &mut [Link],
    keys: &mut [u32],
    trail: &mut [u32],
    top: usize,
    item: usize,
) -> usize
    requires item { item + 1 < layout.now.heads }
    requires linked { IsLinked layout.now links.old }
    requires keys { length keys.old + 1 ≡ layout.now.heads }
    requires top { top ≤ length trail.old }
    requires room { HasRoom layout.now links.old item (take top trail.old) (length trail.old) }
    ensures linked { IsLinked layout.now links.new }
    ensures links { Covers layout.now links.old item 0 links.new }
    ensures keys { KeysCovered layout.now links.old item 0 keys.old keys.new }
    ensures trail { Trails layout.now links.old item 0 (take top trail.old)
        (take result trail.new) }
    ensures top { result ≤ length trail.new }
{
    let places = layout.places();
    let rows = Rows { layout, places };
    let tails = layout.tails();
    turn_mark(keys, item);
    let mut top = top;
    let mut node = links[item].down as usize;
    // (columns are no rings: numbers rise down to the tail, which bounds the walk, and no proof needs a case for the
    // wrap)
    while node < tails {
        top = hide(&rows, links, keys, trail, top, node);
        // (the node is still in its column: hiding took out the other nodes of its option alone)
        node = links[node].down as usize;
    }
    top
}

/// Covers the item of a node with a colour, which the item gets: marks its key, and takes the options that name it
/// without that colour out of the columns of their other items; answers the new top of the trail.
pub fn purify(
    layout: &Layout,
    links: &mut [Link],
    keys: &mut [u32],
    trail: &mut [u32],
    top: usize,
    node: usize,
) -> usize
    requires node { (layout.now.heads + layout.now.heads ≤ node + 1) × (node < layout.now.tails) }
    requires colour { 0 < colour_at layout.now node }
    requires linked { IsLinked layout.now links.old }
    requires keys { length keys.old + 1 ≡ layout.now.heads }
    requires top { top ≤ length trail.old }
    requires room { HasRoom layout.now links.old (column_of layout.now node) (take top trail.old)
        (length trail.old) }
    ensures linked { IsLinked layout.now links.new }
    ensures links { Covers layout.now links.old (column_of layout.now node)
        (colour_at layout.now node) links.new }
    ensures keys { KeysCovered layout.now links.old (column_of layout.now node)
        (colour_at layout.now node) keys.old keys.new }
    ensures trail { Trails layout.now links.old (column_of layout.now node)
        (colour_at layout.now node) (take top trail.old) (take result trail.new) }
    ensures top { result ≤ length trail.new }
{
    let places = layout.places();
    let rows = Rows { layout, places };
    let tails = layout.tails();
    let item = layout.item_at(node);
    let colour = layout.colour_at(node);
    turn_mark(keys, item);
    let mut top = top;
    let mut other = links[item].down as usize;
    while other < tails {
        // (nodes that agree stay as they are; Knuth's program marks each of them, here the item counts how often it got
        // its colour)
        if !rows.has_colour(other, colour) {
            top = hide(&rows, links, keys, trail, top, other);
        }
        other = links[other].down as usize;
    }
    top
}

/// The piece of the trail from a place on, up to its top.
#[inline(always)]
pub fn piece_of(trail: &[u32], start: usize, top: usize) -> &[u32]
    requires { (start ≤ top) × (top ≤ length trail.now) }
    ensures { result.now ≡ drop start (take top trail.now) }
{
    &trail[start..top]
}

/// Puts the nodes of a piece of the trail back, the last one first.
pub fn restore(layout: &Layout, links: &mut [Link], keys: &mut [u32], trail: &[u32])
    requires nodes { All (IsOptionNode layout.now) trail.now }
    requires linked { IsLinked layout.now links.old }
    requires keys { length keys.old + 1 ≡ layout.now.heads }
    ensures linked { IsLinked layout.now links.new }
    ensures links { links.new ≡ relinks links.old trail.now }
    ensures keys { keys.new ≡ more layout.now keys.old trail.now }
{
    let places = layout.places();
    let rows = Rows { layout, places };
    let mut left = trail.len();
    // (in the reverse order: a node can go back only once its neighbours are those that it left)
    while left > 0 {
        left -= 1;
        let node = trail[left] as usize;
        rows.relink(links, node);
        count_more(&rows, keys, node);
    }
}
