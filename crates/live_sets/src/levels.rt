//! What is kept of each level: its live options, how many name each primary item, and the least key of these.
//!
//! Backtracking by copying: a level is never repaired, only left. That costs a copy of all words at each choice, which
//! is cheap while there are few of them (two or four have code of their own), and dear for many options. Dancing links
//! are the other way round.

ghost use Rattle.std.specs.Prelude.{◌≡◌, ◌+◌, ◌*◌, ◌<◌, ◌≤◌, [], ◌∷◌, ◌++◌, length, IfOk};
ghost use Rattle.option_sets.specs.Sets.{words_of};
ghost use Rattle.live_sets.specs.Counting.{IsLive};
ghost use Rattle.live_sets.specs.Levels.{AreLevels, level_at};

use crate::choice_step::ChoiceStep;
use crate::counts::Counts;
use crate::level::{fill_first, level_at, spare_level};
use option_sets::OptionSets;
use std::alloc::{AllocError, Global};

/// The levels of a search, that of the empty prefix first. Each begins where the one before it ends.
#[derive(Drop)]
pub struct Levels {
    /// The words of the live options of each level.
    pub live: Vec<u64>,
    // (kept for each: where a choice is taken back, nothing is counted again)
    /// The least key at each level.
    pub leasts: Vec<u32>,
    /// How many live options name each primary item at each level.
    pub counts: Counts,
}

impl Levels {
    /// Room for all levels, and that of the empty prefix; the only error is out of memory.
    pub fn build(alloc: Global, sets: &OptionSets) -> Result<Levels, AllocError>
        ensures { IfOk result (λ levels. AreLevels sets.now [] levels) }
    {
        let levels = sets.problem().primary() + 1;
        let live = first_live(alloc, sets, levels)?;
        let mut leasts = vec![in alloc; 0u32; levels]?;
        let (counts, least) = Counts::build(alloc, sets, level_at(&live, sets.words(), 0))?;
        leasts[0] = least;
        Ok(Levels {
            live,
            leasts,
            counts,
        })
    }

    /// The words of the live options of a level.
    #[inline(always)]
    pub fn live_at(&self, sets: &OptionSets, depth: usize) -> &[u64]
        requires { depth * words_of sets.now + words_of sets.now
            ≤ length self.now.live.items }
        ensures { result.now ≡ level_at (words_of sets.now) depth self.now.live.items }
    {
        level_at(&self.live, sets.words(), depth)
    }

    /// Makes the level of some chosen options and one more, which is live once these are chosen.
    // (inlined into the loop of a search, it would have too few registers)
    #[inline(never)]
    pub fn push(&mut self, sets: &OptionSets, chosen: &[u16], option: u16)
        requires levels { AreLevels sets.now chosen.now self.old }
        requires room { length chosen.now < sets.now.primary }
        requires option { option < length sets.now.options }
        ensures { AreLevels sets.now (chosen.now ++ option ∷ []) self.new }
    {
        // (where the compiler knows how many words there are, it needs no loop over them)
        match sets.words() {
            2 => self.push_words(sets, chosen, option, 2),
            4 => self.push_words(sets, chosen, option, 4),
            words => self.push_words(sets, chosen, option, words),
        }
    }

    /// Makes the level as `push` does, where each has so many words.
    #[inline(always)]
    fn push_words(&mut self, sets: &OptionSets, chosen: &[u16], option: u16, words: usize)
        requires words { words ≡ words_of sets.now }
        requires levels { AreLevels sets.now chosen.now self.old }
        requires room { length chosen.now < sets.now.primary }
        requires option { option < length sets.now.options }
        ensures { AreLevels sets.now (chosen.now ++ option ∷ []) self.new }
    {
        let depth = chosen.len();
        spare_level(sets, &mut self.live, depth, option, words);
        let step = ChoiceStep {
            chosen,
            option,
            before: level_at(&self.live, words, depth),
            live: level_at(&self.live, words, depth + 1),
        };
        self.leasts[depth + 1] = self.counts.push(sets, step);
    }
}

/// Room for the live options of so many levels, in the first of them all options. The only error is out of memory.
fn first_live(alloc: Global, sets: &OptionSets, levels: usize) -> Result<Vec<u64>, AllocError>
    requires some { words_of sets.now ≤ levels * words_of sets.now }
    requires small { levels * words_of sets.now ≤ 1000000 }
    ensures long { IfOk result (λ live. length live.items ≡ levels * words_of sets.now) }
    ensures all { IfOk result
        (λ live. IsLive sets.now [] (level_at (words_of sets.now) 0 live.items)) }
{
    let mut live = vec![in alloc; 0u64; levels * sets.words()]?;
    fill_first(sets, &mut live);
    Ok(live)
}
