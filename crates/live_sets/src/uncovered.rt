//! The uncovered primary items, a bit for each.

ghost use Rattle.std.specs.Prelude.{◌≡◌, ℕ, ◌+◌, ◌*◌, ◌<◌, ◌≤◌, ◌==◌, List, length, IsTrue, nat_lt, slice_index, if◌then◌else◌};
ghost use Rattle.std.specs.Int.{bit_at};
ghost use Rattle.cover_problem.specs.Problem.{Problem};
ghost use Rattle.choices.specs.Keys.{TellUncovered};
ghost use Rattle.live_sets.specs.Counting.{AreMarked};
ghost use Rattle.live_sets.specs.Planes.{ArePlanes};

use crate::keys::COVERED;
use item_planes::Planes;

/// How many bits a word has.
pub const WORD: usize = 64;

/// Writes the items whose keys aren't those of covered ones, if the words are as many as that takes. Answers whether it
/// did.
#[tactic(auto, using(crate::proofs::Uncovering::marked_tells))]
pub fn write_unmarked(keys: &[u32], words: &mut [u64]) -> bool
    ensures { IsTrue result → (problem : Problem) (prefix : List ℕ) → AreMarked problem prefix keys.now
        → TellUncovered problem prefix words.new }
{
    if words.len() != keys.len().div_ceil(WORD) {
        return false;
    }
    // (made for each look: to keep it up to date would cost each choice time, also where nothing repeats)
    for place in 0..words.len() {
        words[place] = unmarked_word(keys, place);
    }
    true
}

/// Which of 64 items have keys that aren't those of covered ones, the first of them by the lowest bit.
fn unmarked_word(keys: &[u32], place: usize) -> u64
    requires { 64 * place < length keys.now }
    ensures { (bit : ℕ) → bit < 64 → 64 * place + bit < length keys.now →
        (bit_at result bit == 1) ≡ nat_lt (slice_index keys.now (64 * place + bit)) 2147483648 }
{
    let first = WORD * place;
    let count = (keys.len() - first).min(WORD);
    let mut word = 0u64;
    for bit in 0..count {
        word |= unmarked_bit(keys[first + bit]) << bit;
    }
    word
}

/// A bit that says whether a key isn't that of a covered item.
// (a branch in the loop above would go either way, and cost more than all else)
#[inline(always)]
fn unmarked_bit(key: u32) -> u64
    ensures { result ≡ (if nat_lt key 2147483648 then 1 else 0) }
{
    if key < COVERED { 1 } else { 0 }
}

/// Writes the uncovered ones of at most 64 items, if there is one word. Answers whether it did.
#[tactic(auto, using(crate::proofs::Uncovering::plane_tells))]
#[inline(always)]
pub fn write_plane(planes: &Planes, words: &mut [u64]) -> bool
    ensures { IsTrue result → (problem : Problem) (prefix : List ℕ) → problem.primary ≤ 64
        → ArePlanes problem prefix 0 planes.now → TellUncovered problem prefix words.new }
{
    if words.len() != 1 {
        return false;
    }
    words[0] = planes.uncovered;
    true
}

/// Writes the uncovered ones of at most 128 items, if there are two words. Answers whether it did.
#[tactic(auto, using(crate::proofs::Uncovering::planes_tell))]
#[inline(always)]
pub fn write_planes(low: &Planes, high: &Planes, words: &mut [u64]) -> bool
    ensures { IsTrue result → (problem : Problem) (prefix : List ℕ) → problem.primary ≤ 128
        → ArePlanes problem prefix 0 low.now → ArePlanes problem prefix 64 high.now
        → TellUncovered problem prefix words.new }
{
    if words.len() != 2 {
        return false;
    }
    words[0] = low.uncovered;
    words[1] = high.uncovered;
    true
}
