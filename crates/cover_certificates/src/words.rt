//! Sets of options, 64 to a word.

ghost use Rattle.std.specs.Prelude.{◌≡◌, ◌/◌, ℕ, true, slice_index_or, IfOk, IsTrue, length};
ghost use Rattle.option_sets.specs.Sets.{has, row_has, word_has};

use option_sets::Word;

/// Returns a word of a set, or 0 behind its end.
#[inline(always)]
fn word_at(words: &[u64], place: usize) -> u64
    ensures { result ≡ slice_index_or words.now place 0 }
{
    match words.get(place) {
        Some(word) => *word,
        None => 0,
    }
}

/// Returns whether the option is in a set.
#[inline(always)]
pub(crate) fn has_option(words: &[u64], option: u16) -> bool
    ensures { result ≡ has words.now option }
{
    (word_at(words, option as usize / 64) >> (option % 64)) & 1 == 1
}

/// Returns whether each option of a word that is in a set is in another set, too.
#[inline(always)]
fn is_word_spared(word: &Word, live: &[u64], other: &[u64]) -> bool
    ensures { result ≡ true → (x : ℕ) → word_has word.now.place word.now.bits x ≡ true →
        has live.now x ≡ true → has other.now x ≡ true }
{
    let place = word.place as usize;
    word.bits & word_at(live, place) & !word_at(other, place) == 0
}

/// Returns whether each option of a row that is in a set is in another set, too.
pub(crate) fn is_row_spared(row: &[Word], live: &[u64], other: &[u64]) -> bool
    ensures { result ≡ true → (x : ℕ) → row_has row.now x ≡ true →
        has live.now x ≡ true → has other.now x ≡ true }
{
    for word in row {
        if !is_word_spared(word, live, other) {
            return false;
        }
    }
    true
}
