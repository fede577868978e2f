//! Rows: sets of options as the words of them that aren't zero.

ghost use Rattle.std.specs.Prelude.{◌≡◌, ℕ, ◌+◌, ◌<◌, ◌≤◌, Bool, [], ◌||◌, ◌==◌, OnOk, OnErr};
ghost use Rattle.option_sets.specs.Rows.{IsRowBy};

use crate::word::Word;
use std::alloc::{AllocError, Global};
use std::marker::Model;

/// A set of options as those of its words that aren't zero, by rising places.
#[derive(Drop)]
pub struct Row {
    words: Vec<Word>,
}

impl Model for Row {
    ghost use Rattle.std.specs.Prelude.{List};
    ghost use Rattle.option_sets.specs.declared.word.Word.{Word};

    ghost Value = { List Word };

    ghost view = { λ r. r.words.items };
}

impl Row {
    /// The empty set.
    pub fn new(alloc: Global) -> Row
        ensures { result ≡ [] }
    {
        Row {
            words: Vec::new(alloc),
        }
    }

    /// Its words.
    #[inline(always)]
    pub fn as_slice(&self) -> &[Word]
        ensures { result.now ≡ self.now }
    {
        &self.words
    }

    /// Adds an option that comes after all others of the set. The only error is out of memory, and the set is then as
    /// before.
    pub fn add(&mut self, option: u16) -> Result<(), AllocError>
        ensures ok { OnOk result ((n : ℕ) (has : ℕ → Bool) → n ≤ option + 1 → IsRowBy n has self.old
            → IsRowBy (option + 1) (λ x. has x || x == option) self.new) }
        ensures err { OnErr result (self.new ≡ self.old) }
    {
        let place = option / 64;
        let bits = 1 << (option % 64);
        let count = self.words.len();
        if count > 0 && self.words[count - 1].place == place {
            self.words[count - 1].bits |= bits;
            return Ok(());
        }
        self.words.push(Word { place, bits })?;
        Ok(())
    }
}
