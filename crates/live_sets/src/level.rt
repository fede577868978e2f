//! Levels of numbers, all of one width, one behind the other.

ghost use Rattle.std.specs.Prelude.{◌≡◌, ℕ, ◌+◌, ◌*◌, ◌<◌, ◌≤◌, ◌∷◌, ◌++◌, [], length, List, not, ◌&&◌, slice_index};
ghost use Rattle.cover_problem.specs.Prefix.{clash};
ghost use Rattle.cover_problem.specs.Problem.{IsProblem};
ghost use Rattle.option_sets.specs.Sets.{has, words_of};
ghost use Rattle.live_sets.specs.Counting.{AreKeys, AreMarked, IsLive};
ghost use Rattle.live_sets.specs.Levels.{level_at};

use crate::keys::{count_rows, mark_items};
use option_sets::OptionSets;

/// The numbers of a level.
#[inline(always)]
pub fn level_at(words: &[u64], width: usize, depth: usize) -> &[u64]
    requires { depth * width + width ≤ length words.now }
    ensures { result.now ≡ level_at width depth words.now }
{
    let start = depth * width;
    &words[start..start + width]
}

/// The keys of a level.
#[inline(always)]
pub fn keys_at(keys: &[u32], width: usize, depth: usize) -> &[u32]
    requires { depth * width + width ≤ length keys.now }
    ensures { result.now ≡ level_at width depth keys.now }
{
    let start = depth * width;
    &keys[start..start + width]
}

/// Makes the live options of the first level all options.
pub fn fill_first(sets: &OptionSets, live: &mut [u64])
    requires inside { words_of sets.now ≤ length live.old }
    ensures long { length live.new ≡ length live.old }
    ensures all { IsLive sets.now [] (level_at (words_of sets.now) 0 live.new) }
{
    let (first, _) = live.split_at_mut(sets.words());
    sets.fill(first);
}

/// Makes the keys of the first level, whose live options are given; answers the least of them.
pub fn count_first(sets: &OptionSets, live: &[u64], keys: &mut [u32]) -> u32
    requires live { IsLive sets.now [] live.now }
    requires inside { sets.now.primary ≤ length keys.old }
    requires zeros { (i : ℕ) → slice_index keys.old i ≡ 0 }
    ensures long { length keys.new ≡ length keys.old }
    ensures keys { AreKeys sets.now [] (level_at sets.now.primary 0 keys.new) result }
{
    let (first, _) = keys.split_at_mut(sets.problem().primary());
    count_rows(sets, live, first)
}

/// Makes the live options of the level behind one: those of that level that don't clash with an option.
#[inline(always)]
pub fn spare_level(sets: &OptionSets, live: &mut [u64], depth: usize, option: u16, width: usize)
    requires width { width ≡ words_of sets.now }
    requires option { option < length sets.now.options }
    requires inside { depth * words_of sets.now + words_of sets.now + words_of sets.now
        ≤ length live.old }
    ensures next { (x : ℕ) → has (level_at (words_of sets.now) (depth + 1) live.new) x
        ≡ (has (level_at (words_of sets.now) depth live.old) x
        && not (clash sets.now option x)) }
    ensures kept { (e : ℕ) → e ≤ depth → level_at (words_of sets.now) e live.new
        ≡ level_at (words_of sets.now) e live.old }
{
    let start = depth * width;
    let (front, back) = live.split_at_mut(start + width);
    sets.spare(option, &front[start..], &mut back[..width]);
}

/// Makes the keys of the level behind one, whose live options are given; answers the least of them.
#[inline(never)]
pub fn count_level(
    sets: &OptionSets,
    live: &[u64],
    keys: &mut [u32],
    depth: usize,
    option: u16,
) -> u32
    requires option { option < length sets.now.options }
    requires live { length live.now ≡ words_of sets.now }
    requires inside { depth * sets.now.primary + sets.now.primary + sets.now.primary
        ≤ length keys.old }
    ensures next { (prefix : List ℕ) → AreMarked sets.now prefix (level_at sets.now.primary depth keys.old)
        → IsLive sets.now (prefix ++ option ∷ []) live.now
        → AreKeys sets.now (prefix ++ option ∷ []) (level_at sets.now.primary (depth + 1) keys.new) result }
    ensures kept { (e : ℕ) → e ≤ depth → level_at sets.now.primary e keys.new
        ≡ level_at sets.now.primary e keys.old }
{
    let width = sets.problem().primary();
    let start = depth * width;
    let (front, back) = keys.split_at_mut(start + width);
    count_next(sets, live, &front[start..], &mut back[..width], option)
}

/// Makes the keys of a level from those of the level before it, where an option was chosen; answers the least of them.
#[inline(always)]
fn count_next(sets: &OptionSets, live: &[u64], before: &[u32], keys: &mut [u32], option: u16) -> u32
    requires lawful { IsProblem sets.now }
    requires option { option < length sets.now.options }
    requires live { length live.now ≡ words_of sets.now }
    requires before { length before.now ≡ sets.now.primary }
    requires keys { length keys.old ≡ sets.now.primary }
    ensures { (prefix : List ℕ) → AreMarked sets.now prefix before.now
        → IsLive sets.now (prefix ++ option ∷ []) live.now
        → AreKeys sets.now (prefix ++ option ∷ []) keys.new result }
{
    keys.copy_from_slice(before);
    mark_items(keys, sets.primary_items(option));
    count_rows(sets, live, keys)
}
