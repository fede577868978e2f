//! The items that nodes covered lose their marks, and the nodes give them no colour any more.
//!
//! Taken back in reverse, as all in dancing links: the item is uncovered when the count of those that gave it its
//! colour is 0 again.

ghost use Rattle.std.specs.Prelude.{◌≡◌, ◌<◌, ◌≤◌, ◌+◌, ◌∷◌, [], length};
ghost use Rattle.dancing_links.specs.Columns.{colour_at};
ghost use Rattle.dancing_links.specs.Committing.{IsCommits, uncommit, committed, covering};
ghost use Rattle.dancing_links.specs.Covering.{others};
ghost use Rattle.dancing_links.specs.Keys.{turned};

use crate::keys::turn_mark;
use crate::layout::{Layout, Rows};

/// Takes back that a node gave its item its colour: where none did before, the item gets its mark off.
#[inline(never)]
fn take(layout: &Layout, keys: &mut [u32], commits: &mut [u32], node: usize, colour: u16)
    requires node { (layout.now.heads + layout.now.heads ≤ node + 1) × (node < layout.now.tails) }
    requires colour { (0 < colour) × (colour ≡ colour_at layout.now node) }
    requires keys { length keys.old + 1 ≡ layout.now.heads }
    requires commits { IsCommits layout.now commits.old }
    ensures keys { keys.new
        ≡ turned layout.now keys.old (covering layout.now commits.new (node ∷ [])) }
    ensures commits { commits.new ≡ uncommit layout.now commits.old node }
{
    let item = layout.item_at(node);
    commits[item] = commits[item].wrapping_sub(1);
    if commits[item] == 0 {
        turn_mark(keys, item);
    }
}

/// Takes the mark off the item that a node covered, and takes back that it gave it a colour.
pub fn uncommit(layout: &Layout, keys: &mut [u32], commits: &mut [u32], node: usize)
    requires node { (layout.now.heads + layout.now.heads ≤ node + 1) × (node < layout.now.tails) }
    requires keys { length keys.old + 1 ≡ layout.now.heads }
    requires commits { IsCommits layout.now commits.old }
    ensures keys { keys.new
        ≡ turned layout.now keys.old (covering layout.now commits.new (node ∷ [])) }
    ensures commits { commits.new ≡ uncommit layout.now commits.old node }
{
    let colour = layout.colour_at(node);
    if colour == 0 {
        turn_mark(keys, layout.item_at(node));
    } else {
        take(layout, keys, commits, node, colour);
    }
}

/// Takes the marks off the items that the other nodes of a node's option covered, the next one first: they are
/// different items, so the order does not matter.
#[inline(always)]
pub fn uncommit_others(layout: &Layout, keys: &mut [u32], commits: &mut [u32], node: usize)
    requires node { (layout.now.heads + layout.now.heads ≤ node + 1) × (node < layout.now.tails) }
    requires keys { length keys.old + 1 ≡ layout.now.heads }
    requires commits { IsCommits layout.now commits.old }
    ensures keys { keys.new ≡ turned layout.now keys.old
        (covering layout.now commits.new (others layout.now node)) }
    ensures kept { IsCommits layout.now commits.new }
    ensures commits { committed layout.now commits.new
        (others layout.now node) ≡ commits.old }
{
    let places = layout.places();
    let rows = Rows { layout, places };
    let mut other = rows.right_of(node);
    while other != node {
        uncommit(layout, keys, commits, other);
        other = rows.right_of(other);
    }
}
