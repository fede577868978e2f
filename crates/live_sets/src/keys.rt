//! The keys of a level: for each primary item how many live options name it, or that it is covered.

ghost use Rattle.std.specs.Prelude.{◌≡◌, ℕ, ◌<◌, ◌≤◌, List, length, true, false, nat_lt, slice_index, if◌then◌else◌};
ghost use Rattle.std.specs.List.{All};
ghost use Rattle.cover_problem.specs.Numbers.{is_in};
ghost use Rattle.cover_problem.specs.Problem.{IsProblem};
ghost use Rattle.option_sets.specs.Sets.{words_of};
ghost use Rattle.live_sets.specs.Counting.{count_in, item_of, IsLive, AreMarked, AreKeys};
ghost use Rattle.live_sets.specs.Trying.{AreBehind};

use option_sets::{OptionSets, Word};

/// One live option, in the key of its item: 2^16, so that the item's number fits below it, as in dancing links.
const ONE_OPTION: u32 = 65_536;

/// The mark of a covered item, the top bit of 32; an uncovered one has a lesser key.
pub const COVERED: u32 = 2_147_483_648;

/// How many options of a row are live.
#[inline(always)]
pub fn count_row(row: &[Word], live: &[u64]) -> u32
    requires words { AreBehind (length live.now) row.now }
    requires small { length live.now ≤ 1024 }
    ensures { result ≡ count_in row.now live.now }
{
    let mut count = 0;
    for word in row {
        count += (live[word.place as usize] & word.bits).count_ones();
    }
    count
}

/// Counts the live options of each uncovered item, in order, and answers the least key: at an item that has none it
/// stops, since it is the branch item.
pub fn count_rows(sets: &OptionSets, live: &[u64], keys: &mut [u32]) -> u32
    requires lawful { IsProblem sets.now }
    requires live { length live.now ≡ words_of sets.now }
    requires keys { length keys.old ≡ sets.now.primary }
    ensures { (prefix : List ℕ) → IsLive sets.now prefix live.now → AreMarked sets.now prefix keys.old
        → AreKeys sets.now prefix keys.new result }
{
    let mut least = u32::MAX;
    for item in 0..keys.len() {
        if keys[item] >= COVERED {
            continue;
        }
        let key = count_row(sets.row(item as u16), live) * ONE_OPTION + item as u32;
        keys[item] = key;
        // (items behind it keep the counts of the level before: a level is only read for its least key and its marks)
        if key < ONE_OPTION {
            return key;
        }
        least = lesser(key, least);
    }
    least
}

/// The lesser of two keys.
fn lesser(key: u32, other: u32) -> u32
    ensures { result ≡ (if nat_lt key other then key else other) }
{
    if key < other { key } else { other }
}

/// Puts the mark of a covered item on the keys of some items.
#[inline(always)]
pub fn mark_items(keys: &mut [u32], items: &[u16])
    requires { All (λ i. i < length keys.old) items.now }
    ensures long { length keys.new ≡ length keys.old }
    ensures marked { (i : ℕ) → is_in items.now i ≡ true → 2147483648 ≤ slice_index keys.new i }
    ensures kept { (i : ℕ) → is_in items.now i ≡ false → slice_index keys.new i ≡ slice_index keys.old i }
{
    for item in items {
        keys[*item as usize] |= COVERED;
    }
}

/// The item of a key, unless it is that of a covered one.
pub fn item_in(key: u32) -> Option<u16>
    ensures { result ≡ item_of key }
{
    if key < COVERED {
        Some((key % ONE_OPTION) as u16)
    } else {
        None
    }
}
