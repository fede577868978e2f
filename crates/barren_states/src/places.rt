//! Which slots a key may have.
//!
//! The key is hashed whole at each look, word by word, by a multiplication and a shift as in MurmurHash3. Zobrist's
//! hashing, by which game programs change a hash at each move, would cost something at each choice, also where nothing
//! is looked for. The hash becomes a slot by a multiplication (Lemire's range reduction), not by a remainder, so the
//! number of slots may be any.

ghost use Rattle.std.specs.Prelude.{◌<◌, ◌≤◌};

/// A hash of a key.
#[inline(always)]
pub fn hash_of(key: &[u64]) -> u64 {
    // (2^64 over the golden ratio, and below a factor of MurmurHash3: no clause depends on them, only how well keys
    // spread)
    let mut hash = 0x9e37_79b9_7f4a_7c15;
    for word in key {
        hash = mixed(hash ^ *word);
    }
    hash
}

/// A word of which each bit has its part in many bits of the answer.
#[inline(always)]
fn mixed(word: u64) -> u64 {
    let product = word.wrapping_mul(0xff51_afd7_ed55_8ccd);
    // (a product mixes upwards, so what the next word is mixed with has its high bits below)
    product ^ (product >> 32)
}

/// The two slots, of so many, that a key of this hash may have: the one after the other, or the last and the first.
#[inline(always)]
pub fn places_of(hash: u64, slots: usize) -> (usize, usize)
    requires some { 0 < slots }
    requires few { slots ≤ 4294967296 }
    ensures first { result.0 < slots }
    ensures second { result.1 < slots }
{
    let first = scaled(hash >> 32, slots);
    let second = if first + 1 < slots { first + 1 } else { 0 };
    (first, second)
}

/// A number below 2^32 as one below a count, in the same proportion.
// (so there may be any number of slots, and a key's slot in a larger table is no lower than in a smaller one)
#[inline(always)]
fn scaled(part: u64, count: usize) -> usize
    requires part { part < 4294967296 }
    requires some { 0 < count }
    requires few { count ≤ 4294967296 }
    ensures { result < count }
{
    (part * count as u64 >> 32) as usize
}
