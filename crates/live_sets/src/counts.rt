//! How many live options name each primary item, level by level.

ghost use Rattle.std.specs.Prelude.{◌≡◌, ◌+◌, ◌<◌, ◌≤◌, [], ◌∷◌, ◌++◌, length, IfOk, IsTrue};
ghost use Rattle.cover_problem.specs.Branching.{branch_item};
ghost use Rattle.choices.specs.Keys.{TellUncovered};
ghost use Rattle.live_sets.specs.Counting.{item_of, IsLive};
ghost use Rattle.live_sets.specs.Levels.{AreCounts};
ghost use Rattle.live_sets.specs.Planes.{ArePlaneCounts, IsSmall};
ghost use Rattle.live_sets.specs.ChoiceStep.{IsStep};

use crate::choice_step::ChoiceStep;
use crate::level::{count_first, count_level, keys_at, level_at};
use crate::plane_counts::{PlaneCounts, is_small, least_item};
use crate::uncovered::{write_plane, write_planes, write_unmarked};
use option_sets::OptionSets;
use std::alloc::{AllocError, Global};

/// How many live options name each primary item, level by level.
#[derive(Drop)]
pub enum Counts {
    /// As a key for each primary item.
    Keys(Vec<u32>),
    /// Digit by digit, for at most 64 items with few options each.
    Planes(PlaneCounts),
    /// So for at most 128 items, in two halves.
    Halves(PlaneCounts, PlaneCounts),
}

impl Counts {
    /// Room for all levels, and the counts of the empty prefix, whose live options are given, with the least key. The
    /// only error is out of memory.
    pub fn build(
        alloc: Global,
        sets: &OptionSets,
        live: &[u64],
    ) -> Result<(Counts, u32), AllocError>
        requires { IsLive sets.now [] live.now }
        ensures counts { IfOk result (λ built. AreCounts sets.now [] built.0) }
        ensures branch { IfOk result (λ built. branch_item sets.now [] ≡ item_of built.1) }
    {
        // (in planes an option is taken from the counts of 64 items at once, so they are used wherever the counts fit)
        if is_small(sets, live) {
            return Counts::build_planes(alloc, sets, live);
        }
        let primary = sets.problem().primary();
        let mut keys = vec![in alloc; 0u32; (primary + 1) * primary]?;
        let least = count_first(sets, live, &mut keys);
        Ok((Counts::Keys(keys), least))
    }

    /// The same for few items with few options each, digit by digit.
    fn build_planes(
        alloc: Global,
        sets: &OptionSets,
        live: &[u64],
    ) -> Result<(Counts, u32), AllocError>
        requires small { IsSmall sets.now }
        requires live { IsLive sets.now [] live.now }
        ensures counts { IfOk result (λ built. AreCounts sets.now [] built.0) }
        ensures branch { IfOk result (λ built. branch_item sets.now [] ≡ item_of built.1) }
    {
        let (low, least) = PlaneCounts::build(alloc, sets, live, 0)?;
        if sets.problem().primary() <= 64 {
            return Ok((Counts::Planes(low), least_item(least, None)));
        }
        let (high, other) = PlaneCounts::build(alloc, sets, live, 64)?;
        Ok((Counts::Halves(low, high), least_item(least, other)))
    }

    /// Makes the counts of a level from those of the level before it, where one more option was chosen; answers the
    /// least key.
    #[inline(always)]
    pub fn push(&mut self, sets: &OptionSets, step: ChoiceStep) -> u32
        requires counts { AreCounts sets.now step.chosen.now self.old }
        requires step { IsStep sets.now step }
        ensures counts { AreCounts sets.now (step.entry.chosen.now ++ step.entry.option ∷ []) self.new }
        ensures branch { branch_item sets.now (step.entry.chosen.now ++ step.entry.option ∷ [])
            ≡ item_of result }
    {
        match self {
            Counts::Keys(keys) => {
                count_level(sets, step.live, keys, step.chosen.len(), step.option)
            }
            Counts::Planes(planes) => least_item(planes.push(sets, step), None),
            Counts::Halves(low, high) => push_halves(low, high, sets, step),
        }
    }

    /// Writes which primary items are uncovered, if the words are as many as that takes. Answers whether it did.
    #[inline(always)]
    pub fn write_uncovered(&self, sets: &OptionSets, chosen: &[u16], words: &mut [u64]) -> bool
        requires counts { AreCounts sets.now chosen.now self.now }
        requires room { length chosen.now ≤ sets.now.primary }
        ensures { IsTrue result → TellUncovered sets.now chosen.now words.new }
    {
        let depth = chosen.len();
        match self {
            Counts::Keys(keys) => {
                write_unmarked(keys_at(keys, sets.problem().primary(), depth), words)
            }
            Counts::Planes(counts) => write_plane(&counts.planes[depth], words),
            Counts::Halves(low, high) => {
                write_planes(&low.planes[depth], &high.planes[depth], words)
            }
        }
    }
}

/// Makes the counts of both halves as `Counts::push` does; answers the branch item.
// (inlined, it would make the loop of each other search too large to be inlined)
#[inline(never)]
fn push_halves(
    low: &mut PlaneCounts,
    high: &mut PlaneCounts,
    sets: &OptionSets,
    step: ChoiceStep,
) -> u32
    requires items { sets.now.primary ≤ 128 }
    requires low { ArePlaneCounts sets.now step.chosen.now low.old }
    requires high { ArePlaneCounts sets.now step.chosen.now high.old }
    requires first { low.old.first ≡ 0 }
    requires second { high.old.first ≡ 64 }
    requires step { IsStep sets.now step }
    ensures first { low.new.first ≡ low.old.first }
    ensures second { high.new.first ≡ high.old.first }
    ensures low { ArePlaneCounts sets.now (step.entry.chosen.now ++ step.entry.option ∷ []) low.new }
    ensures high { ArePlaneCounts sets.now (step.entry.chosen.now ++ step.entry.option ∷ [])
        high.new }
    ensures branch { branch_item sets.now (step.entry.chosen.now ++ step.entry.option ∷ [])
        ≡ item_of result }
{
    let least = low.push(sets, step);
    let other = high.push(sets, step);
    least_item(least, other)
}
