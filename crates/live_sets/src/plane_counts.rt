//! How many live options name each primary item, digit by digit, where there are few of both.
//!
//! The counts are bit-sliced (`item_planes`), so an option is counted off for 64 items at once. A choice has two ways
//! to get the next level's counts: from the last ones, option by option that left, or from nothing, option by option
//! that stayed. Deep in a search few stay. From which depth on that is less work is estimated once (`turn`);
//! `bench/TRIED.md` has what it saved. 65 to 128 items are two halves.

ghost use Rattle.std.specs.Prelude.{◌≡◌, ℕ, ◌+◌, ◌*◌, ◌<◌, ◌≤◌, [], ◌∷◌, ◌++◌, List, length, ◌==◌, true, false, IfOk, IsTrue};
ghost use Rattle.std.specs.Int.{bit_at};
ghost use Rattle.cover_problem.specs.Branching.{branch_item, live_options};
ghost use Rattle.cover_problem.specs.Numbers.{is_in};
ghost use Rattle.cover_problem.specs.Problem.{Problem as ProblemValue, IsProblem};
ghost use Rattle.option_sets.specs.Sets.{has};
ghost use Rattle.item_planes.specs.Counts.{count_at, limit_of, part_at};
ghost use Rattle.live_sets.specs.Counting.{item_of, IsLive};
ghost use Rattle.live_sets.specs.Planes.{named_in, named_of, AreMasks, ArePlanes, ArePlaneCounts, IsLeastOf, IsSmall};
ghost use Rattle.live_sets.specs.ChoiceStep.{IsStep};

use crate::choice_step::ChoiceStep;
use crate::keys::count_row;
use cover_problem::Problem;
use item_planes::{Digits, Planes};
use option_sets::{OptionSets, word_below};
use std::alloc::{AllocError, Global};

/// How many live options name each of 64 primary items at each level, and which of these each option names, as bits of
/// a word.
#[derive(Drop)]
pub struct PlaneCounts {
    /// The first one of the items.
    pub first: u16,
    /// Those of each option.
    pub masks: Vec<u64>,
    /// The counts of each level.
    pub planes: Vec<Planes>,
    /// Behind so many choices the options that stay live are counted, not those that leave.
    pub turn: usize,
}

/// How many options an item may have at most, where there are so many primary items: eight digits of two halves take
/// longer than keys do, some 45 % more instructions on twelve pentominoes in 3 by 20 squares.
fn most_options(primary: usize) -> u32
    ensures { result ≤ 255 }
{
    if primary > 64 { 127 } else { 255 }
}

/// Whether there are at most 64 primary items, and at most 255 options for each, or at most 128, and at most 127. All
/// options are live.
pub fn is_small(sets: &OptionSets, live: &[u64]) -> bool
    requires { IsLive sets.now [] live.now }
    ensures { IsTrue result → IsSmall sets.now }
{
    let primary = sets.problem().primary();
    if primary > 128 {
        return false;
    }
    let most = most_options(primary);
    for item in 0..primary as u16 {
        if count_row(sets.row(item), live) > most {
            return false;
        }
    }
    true
}

impl PlaneCounts {
    /// Room for all levels, and the counts of the empty prefix, whose live options are given, for the items from a
    /// first one on; with the least. The only error is out of memory.
    pub fn build(
        alloc: Global,
        sets: &OptionSets,
        live: &[u64],
        first: u16,
    ) -> Result<(PlaneCounts, Option<(u32, u32)>), AllocError>
        requires small { IsSmall sets.now }
        requires live { IsLive sets.now [] live.now }
        ensures first { IfOk result (λ built. built.0.first ≡ first) }
        ensures counts { IfOk result (λ built. ArePlaneCounts sets.now [] built.0) }
        ensures least { IfOk result (λ built. IsLeastOf sets.now [] first built.1) }
    {
        let primary = sets.problem().primary();
        let masks = masks_of(alloc, sets, first)?;
        let start = first_planes(sets, &masks, live, first);
        let planes = vec![in alloc; start; primary + 1]?;
        let turn = turn_of(sets);
        Ok((
            PlaneCounts {
                first,
                masks,
                planes,
                turn,
            },
            least_from(&start, first, Digits::Eight),
        ))
    }

    /// Makes the counts of a level from those of the level before it, where one more option was chosen; answers the
    /// uncovered item with the least count, and that count.
    #[inline(always)]
    pub fn push(&mut self, sets: &OptionSets, step: ChoiceStep) -> Option<(u32, u32)>
        requires counts { ArePlaneCounts sets.now step.chosen.now self.old }
        requires step { IsStep sets.now step }
        ensures first { self.new.first ≡ self.old.first }
        ensures counts { ArePlaneCounts sets.now (step.entry.chosen.now ++ step.entry.option ∷ []) self.new }
        ensures least { IsLeastOf sets.now (step.entry.chosen.now ++ step.entry.option ∷ []) self.old.first
            result }
    {
        let last = self.planes[step.chosen.len()];
        // (counts never rise from level to level, so the digits of the last level are enough for the next)
        let digits = last.digits();
        let mut next = self.next_planes(sets, step, last, digits);
        next.cover(self.masks[step.option as usize]);
        self.planes[step.chosen.len() + 1] = next;
        least_from(&next, self.first, digits)
    }

    /// The counts of a level once one more option is chosen, whose items are not covered yet: counted from the start,
    /// or from the last ones, which have so many digits.
    #[inline(always)]
    fn next_planes(
        &self,
        sets: &OptionSets,
        step: ChoiceStep,
        last: Planes,
        digits: Digits,
    ) -> Planes
        requires masks { AreMasks sets.now self.now.first self.now.masks.items }
        requires step { IsStep sets.now step }
        requires last { ArePlanes sets.now step.chosen.now self.now.first last }
        requires digits { (i : ℕ) → i < 64 → count_at last i < limit_of digits }
        ensures uncovered { result.uncovered ≡ last.uncovered }
        ensures counted { (i : ℕ) → i < 64 → self.now.first + i < sets.now.primary → count_at result i
            ≡ length (live_options sets.now (step.entry.chosen.now ++ step.entry.option ∷ [])
            (self.now.first + i)) }
    {
        if step.chosen.len() >= self.turn {
            return count_live(
                sets,
                &self.masks,
                step.live,
                self.first,
                last.uncovered,
                digits,
            );
        }
        let mut next = last;
        take_gone(sets, &self.masks, step, self.first, &mut next, digits);
        next
    }
}

/// From how many choices on it is likely that fewer options stay live than leave.
///
/// Say that an option names k items, and that u are uncovered. An option stays if it names none of the k that a choice
/// covers, with a chance of (1 - k/u)^k, which is about 1/2 where u is 3/2 k². Of n items so many are uncovered behind
/// n/k - 3/2 k choices.
fn turn_of(sets: &OptionSets) -> usize {
    let problem = sets.problem();
    // (options that give an item colours may agree, so where there are colours secondary items don't count)
    let items = if problem.colour_names() == 0 {
        problem.items()
    } else {
        problem.primary()
    };
    let options = problem.options();
    let names = names_below(problem, items);
    let choices = items.saturating_mul(options) / names.max(1);
    choices.saturating_sub(names.saturating_mul(3) / options.max(1) / 2)
}

/// How often the options name one of so many first items.
fn names_below(problem: &Problem, items: usize) -> usize {
    let mut names = 0usize;
    for option in 0..problem.options() as u16 {
        let named = problem.option(option).iter();
        let below = named.filter(|item| usize::from(**item) < items).count();
        names = names.saturating_add(below);
    }
    names
}

/// The counts of the empty prefix, whose live options are given.
fn first_planes(sets: &OptionSets, masks: &[u64], live: &[u64], first: u16) -> Planes
    requires small { IsSmall sets.now }
    requires masks { AreMasks sets.now first masks.now }
    requires live { IsLive sets.now [] live.now }
    ensures { ArePlanes sets.now [] first result }
{
    let uncovered = word_below(sets.problem().primary().saturating_sub(first as usize));
    count_live(sets, masks, live, first, uncovered, Digits::Eight)
}

/// Counts the options that are live, of which each item has at most as many as have so many digits.
///
/// They are taken from full counts, and what is left is turned: to take one costs less than to add one.
#[inline(always)]
fn count_live(
    sets: &OptionSets,
    masks: &[u64],
    live: &[u64],
    first: u16,
    uncovered: u64,
    digits: Digits,
) -> Planes
    requires masks { AreMasks sets.now first masks.now }
    requires inside { (x : ℕ) → has live.now x ≡ true → x < length sets.now.options }
    requires few { (i : ℕ) → i < 64 → first + i < sets.now.primary → named_of sets.now live.now (first + i) < limit_of digits }
    ensures uncovered { result.uncovered ≡ uncovered }
    ensures counted { (i : ℕ) → i < 64 → first + i < sets.now.primary → count_at result i
        ≡ named_of sets.now live.now (first + i) }
{
    let mut planes = Planes::full(uncovered);
    for place in 0..live.len() {
        take_word(masks, place, live[place], &mut planes, digits);
    }
    planes.complement()
}

/// Takes the options that are live before one more is chosen, and not then, from the counts of their items, which have
/// so many digits.
#[inline(always)]
fn take_gone(
    sets: &OptionSets,
    masks: &[u64],
    step: ChoiceStep,
    first: u16,
    planes: &mut Planes,
    digits: Digits,
)
    requires masks { AreMasks sets.now first masks.now }
    requires step { IsStep sets.now step }
    requires planes { ArePlanes sets.now step.chosen.now first planes.old }
    requires digits { (i : ℕ) → i < 64 → count_at planes.old i < limit_of digits }
    ensures uncovered { planes.new.uncovered ≡ planes.old.uncovered }
    ensures counted { (i : ℕ) → i < 64 → first + i < sets.now.primary → count_at planes.new i
        ≡ length (live_options sets.now (step.entry.chosen.now ++ step.entry.option ∷ []) (first + i)) }
{
    for place in 0..step.live.len() {
        let gone = step.before[place] & !step.live[place];
        take_word(masks, place, gone, planes, digits);
    }
}

/// Takes the options of a word from the counts of their items, none of which has fewer in so many of its lowest digits.
#[inline(always)]
fn take_word(masks: &[u64], place: usize, gone: u64, planes: &mut Planes, digits: Digits)
    requires inside { (k : ℕ) → k < 64 → bit_at gone k ≡ 1 → place * 64 + k < length masks.now }
    requires enough { (i : ℕ) → i < 64 → named_in masks.now place gone i ≤ part_at digits planes.old i }
    ensures uncovered { planes.new.uncovered ≡ planes.old.uncovered }
    ensures part { (i : ℕ) → i < 64 → part_at digits planes.new i + named_in masks.now place gone i
        ≡ part_at digits planes.old i }
    ensures counts { (i : ℕ) → i < 64 → count_at planes.new i + named_in masks.now place gone i
        ≡ count_at planes.old i }
{
    let mut left = gone;
    while left != 0 {
        let bit = left.trailing_zeros();
        planes.take(masks[place * 64 + bit as usize], digits);
        left &= left - 1;
    }
}

/// The uncovered item with the least count, and that count, which has so many digits.
#[inline(always)]
fn least_from(planes: &Planes, first: u16, digits: Digits) -> Option<(u32, u32)>
    requires { (i : ℕ) → i < 64 → bit_at planes.now.uncovered i ≡ 1
        → count_at planes.now i < limit_of digits }
    ensures { (problem : ProblemValue) (prefix : List ℕ) → ArePlanes problem prefix first planes.now
        → IsLeastOf problem prefix first result }
{
    match planes.least(digits) {
        Some((item, count)) => Some((first as u32 + item, count)),
        None => None,
    }
}

/// A key of the item that has the lesser count, in the lower half or the upper one: the item alone, since only the
/// branch item is asked for.
#[inline(always)]
pub fn least_item(low: Option<(u32, u32)>, high: Option<(u32, u32)>) -> u32
    ensures { (problem : ProblemValue) (prefix : List ℕ) → problem.primary ≤ 128
        → IsLeastOf problem prefix 0 low → IsLeastOf problem prefix 64 high
        → branch_item problem prefix ≡ item_of result }
{
    match (low, high) {
        // (of equal counts the lower half has the branch item: it is the first)
        (Some((item, count)), Some((other, less))) => { if less < count { other } else { item } }
        (Some((item, _)), None) => item,
        (None, Some((item, _))) => item,
        (None, None) => u32::MAX,
    }
}

/// The items of each option from a first one on, as bits of a word; the only error is out of memory.
fn masks_of(alloc: Global, sets: &OptionSets, first: u16) -> Result<Vec<u64>, AllocError>
    ensures { IfOk result (λ masks. AreMasks sets.now first masks.items) }
{
    let mut masks = Vec::with_capacity(alloc, sets.problem().options())?;
    for option in 0..sets.problem().options() as u16 {
        masks.push(mask_of(sets.primary_items(option), first))?;
    }
    Ok(masks)
}

/// Some items from a first one on as bits of a word.
fn mask_of(items: &[u16], first: u16) -> u64
    ensures { (i : ℕ) → i < 64 → (bit_at result i == 1) ≡ is_in items.now (first + i) }
{
    let mut mask = 0;
    for item in items {
        mask |= bit_of(*item, first);
    }
    mask
}

/// An item as a bit of a word, if it is one of the 64 from a first one on.
fn bit_of(item: u16, first: u16) -> u64
    ensures { (i : ℕ) → i < 64 → (bit_at result i == 1) ≡ (item == first + i) }
{
    if item < first || item - first > 63 {
        return 0;
    }
    1 << (item - first)
}
