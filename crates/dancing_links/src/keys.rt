//! One key for each item: from low to high its number, how many nodes of its column are in, and whether it is covered.
//! So the uncovered item with fewest live options, the first of those, has the least key, which a pass without a branch
//! finds.
//!
//! Of equal counts the lower item wins by the same comparison, as the order of the search wants it. Knuth walks the
//! list of items and keeps the best; a pass over all keys, covered ones too, was faster (`bench/TRIED.md`).

ghost use Rattle.std.specs.Prelude.{◌≡◌, ◌<◌, ◌≤◌, ◌+◌, ◌/◌, ◌%◌, [], length, not, nat_lt, if◌then◌else◌, IfOk, MatchOption};
ghost use Rattle.dancing_links.specs.Columns.{IsTable};
ghost use Rattle.dancing_links.specs.Keys.{with_less, with_more, with_mark, least_from, IsFirstUnmarked, IsKeyed, IsCounting};

use crate::build::numbers_below;
use crate::layout::{Layout, Rows};
use std::alloc::{AllocError, Global};

/// One node in a column, in the key of its item: 2^16, so that the item's number fits below it and one comparison
/// orders by count, then by item.
const ONE_OPTION: u32 = 65_536;

// (no count gets so far: 20,000 options make 1,310,720,000)
/// The mark of a covered item, the top bit of 32; an uncovered one has a lesser key.
const COVERED: u32 = 2_147_483_648;

/// How many keys a step looks at. Eight at a time, in place of a walk through a list of uncovered items, took 14 % off
/// the time (`bench/TRIED.md`); other numbers weren't measured.
const AT_A_TIME: usize = 8;

/// The keys of all items while no node is out; the only error is out of memory.
pub fn build_keys(alloc: Global, layout: &Layout) -> Result<Vec<u32>, AllocError>
    requires { IsTable layout.now }
    ensures { IfOk result (λ keys. IsKeyed layout.now [] keys.items) }
{
    let heads = layout.heads();
    let mut keys = numbers_below(alloc, heads - 1)?;
    // (before them are the heads and the nodes of the items, one fewer)
    for node in 2 * heads - 1..layout.tails() {
        count_node(layout, &mut keys, node);
    }
    Ok(keys)
}

/// Counts a node of an option.
fn count_node(layout: &Layout, keys: &mut [u32], node: usize)
    requires node { (layout.now.heads + layout.now.heads ≤ node + 1) × (node < layout.now.tails) }
    requires before { IsCounting layout.now node keys.old }
    ensures after { IsCounting layout.now (node + 1) keys.new }
{
    let item = layout.item_at(node);
    keys[item] += ONE_OPTION;
}

/// Counts a node of an option no more: its item has one live option less.
#[tactic(auto, unfolding(crate::specs::Keys::with_less))]
#[inline(always)]
pub fn count_less(rows: &Rows<'_>, keys: &mut [u32], node: usize)
    requires node { (rows.now.heads + rows.now.heads ≤ node + 1) × (node < rows.now.tails) }
    requires keys { length keys.old + 1 ≡ rows.now.heads }
    ensures { keys.new ≡ with_less rows.now keys.old node }
{
    let item = rows.item_at(node);
    // (the node was counted, so nothing wraps; by a wrapping call no contract above has to say so)
    keys[item] = keys[item].wrapping_sub(ONE_OPTION);
}

/// Counts a node of an option again.
#[tactic(auto, unfolding(crate::specs::Keys::with_more))]
#[inline(always)]
pub fn count_more(rows: &Rows<'_>, keys: &mut [u32], node: usize)
    requires node { (rows.now.heads + rows.now.heads ≤ node + 1) × (node < rows.now.tails) }
    requires keys { length keys.old + 1 ≡ rows.now.heads }
    ensures { keys.new ≡ with_more rows.now keys.old node }
{
    let item = rows.item_at(node);
    keys[item] = keys[item].wrapping_add(ONE_OPTION);
}

/// Puts the mark of a covered item on the key of one that has none, and takes it off one that has it.
#[tactic(auto, unfolding(crate::specs::Keys::with_mark))]
pub fn turn_mark(keys: &mut [u32], item: usize)
    requires { item < length keys.old }
    ensures { keys.new ≡ with_mark keys.old item }
{
    // (wrapping, since the mark is half of 2^32: added once more it is gone)
    keys[item] = keys[item].wrapping_add(COVERED);
}

/// The lesser of two keys.
fn lesser(key: u32, other: u32) -> u32
    ensures { result ≡ (if nat_lt key other then key else other) }
{
    if key < other { key } else { other }
}

/// The least of a number and some keys.
#[inline(always)]
fn least_after(start: u32, keys: &[u32]) -> u32
    ensures { result ≡ least_from start keys.now }
{
    let mut least = start;
    for key in keys {
        least = lesser(*key, least);
    }
    least
}

/// The least of some keys; where there is none, the greatest number of 32 bits. It takes them eight at a time, and last
/// the last eight, of which some may have been among those before.
pub fn least_of(keys: &[u32]) -> u32
    ensures { result ≡ least_from 4294967295 keys.now }
{
    let count = keys.len();
    if count < AT_A_TIME {
        return least_after(u32::MAX, keys);
    }
    // (a length that is a multiple of eight: the compiler can look at eight keys at once)
    let least = least_after(u32::MAX, &keys[..count - count % AT_A_TIME]);
    least_after(least, &keys[count - AT_A_TIME..])
}

/// Whether a key has the mark of a covered item.
pub fn is_marked(key: u32) -> bool
    ensures { result ≡ not (nat_lt key 2147483648) }
{
    key >= COVERED
}

/// The first item from one on, below a bound, whose key has no mark; none where each has it.
pub fn first_unmarked(keys: &[u32], start: usize, bound: usize) -> Option<u16>
    requires inside { bound ≤ length keys.now }
    requires small { bound ≤ 65535 }
    ensures { IsFirstUnmarked keys.now start bound result }
{
    for item in start..bound {
        if !is_marked(keys[item]) {
            return Some(item as u16);
        }
    }
    None
}

/// How many live options the key of an uncovered item counts.
pub fn count_in(key: u32) -> usize
    ensures { result ≡ key / 65536 }
{
    (key / ONE_OPTION) as usize
}

/// The item of a key, unless it is a covered one.
pub fn item_in(key: u32) -> Option<u16>
    ensures { MatchOption result (2147483648 ≤ key) (λ item.
        (key < 2147483648) × (item ≡ key % 65536)) }
{
    if key < COVERED {
        Some((key % ONE_OPTION) as u16)
    } else {
        None
    }
}
