//! The uncovered items as bits: where all items are primary they are a key of the chosen options.

ghost use Rattle.std.specs.Prelude.{◌≡◌, ℕ, ◌+◌, ◌*◌, ◌<◌, ◌≤◌, ◌==◌, length, not, IsTrue};
ghost use Rattle.std.specs.Int.{bit_at};
ghost use Rattle.cover_problem.specs.Prefix.{is_covered};
ghost use Rattle.choices.specs.Keys.{IsKey};

use crate::links::Links;

/// How many bits a word has.
const WORD: usize = 64;

impl<'a> Links<'a> {
    /// How many words the bits of the primary items take; 0 where there are secondary items, too.
    pub fn key_words(&self) -> usize
        ensures { result ≤ 1024 }
    {
        let problem = self.problem();
        // (for what the getter says: that there are at most 1,000)
        let items = problem.items();
        // (with secondary items a key needs the live options: links have no list of them, so each look would have to
        // make one)
        if problem.primary() == items {
            items.div_ceil(WORD)
        } else {
            0
        }
    }

    /// Writes which items are uncovered, if all are primary and the words are as many as their bits take. Answers
    /// whether it did.
    pub fn write_uncovered(&self, words: &mut [u64]) -> bool
        ensures { IsTrue result → IsKey self.now.problem self.now.chosen words.new }
    {
        let problem = self.problem();
        let items = problem.items();
        if problem.primary() != items || words.len() != items.div_ceil(WORD) {
            return false;
        }
        // (made for each look: to keep it up to date would cost each choice time, also where nothing repeats)
        for place in 0..words.len() {
            words[place] = self.uncovered_word(place);
        }
        true
    }

    /// Which of 64 items are uncovered, the first of them by the lowest bit.
    fn uncovered_word(&self, place: usize) -> u64
        requires { 64 * place < length self.now.problem.names }
        ensures { (bit : ℕ) → bit < 64 → 64 * place + bit < length self.now.problem.names →
            (bit_at result bit == 1)
            ≡ not (is_covered self.now.problem self.now.chosen (64 * place + bit)) }
    {
        let items = self.problem().items();
        let first = WORD * place;
        let count = (items - first).min(WORD);
        let mut word = 0u64;
        for bit in 0..count {
            if !self.is_covered((first + bit) as u16) {
                word |= 1 << bit;
            }
        }
        word
    }
}
