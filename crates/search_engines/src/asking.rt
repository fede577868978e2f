//! The first cover by a search and, in turns with it, by a walk that asks a learner.

ghost use Rattle.std.specs.Prelude.{◌≡◌, [], true, IfOk, IfSome, MatchOption};
ghost use Rattle.cover_problem.specs.Search.{first};
ghost use Rattle.dlx_reader.specs.Writing.{IsWritable};
ghost use Rattle.search_engines.specs.Alone.{answer_by};
ghost use Rattle.used_items.specs.Covers.{HaveSameCovers};

use crate::deciding::RootWatch;
use crate::looking::{LATE, LookingWatch};
use crate::searching::search_uncounted;
use crate::walk_watch::{ForProblem, WalkWatch};
use brancher::{Tables, Watch};
use cover_problem::{Answer, Problem, in_order};
use decider::Untraced;
use learner::Settings;
use question_walk::{QuestionWalk, WalkEnd};
use std::alloc::{AllocError, Global};
use std::marker::Brand;
use std::time::Clock;
use used_items::{WithUsedItems, with_used_items_until};

/// How many bytes may be taken by what is learned: half of what a learner takes by default. Chosen, not measured.
const LEARNED: u64 = 1 << 28;

/// Returns the answer of a walk that has ended, with a cover's options in the order of the file. The only error is out
/// of memory.
fn answer_of_walk(
    alloc: Global,
    problem: &Problem,
    walk: &QuestionWalk<'_>,
) -> Result<Option<Answer>, AllocError>
    requires { walk.now.problem ≡ problem.now }
    ensures answer { IfOk result (λ found. IfSome found
        (λ answer. answer ≡ answer_by problem.now (first problem.now []))) }
    ensures order { IfOk result (λ found. IfSome found (IsWritable problem.now)) }
{
    match walk.end() {
        WalkEnd::Found => Ok(Some(Answer::Cover(in_order(alloc, problem, walk.chosen())?))),
        WalkEnd::NoCover => Ok(Some(Answer::NoCover)),
        WalkEnd::Stopped => Ok(None),
    }
}

/// Searches the problem that the type names, in turns with a walk, until one of them has the answer or the watch stops
/// both. The only error is out of memory.
fn search_in_turns<P: ForProblem, V: Watch, C: Clock>(
    clock: &C,
    alloc: Global,
    tables: &Tables<'_>,
    walk: QuestionWalk<'_>,
    watch: &mut V,
) -> Result<Option<Answer>, AllocError>
    requires tables { tables.now ≡ P.problem }
    requires walk { walk.problem ≡ P.problem }
    ensures answer { IfOk result (λ found. IfSome found
        (λ answer. answer ≡ answer_by tables.now (first tables.now []))) }
    ensures order { IfOk result (λ found. IfSome found (IsWritable tables.now)) }
{
    let mut turns: WalkWatch<'_, '_, P, V, C> = WalkWatch::new(clock, watch, walk);
    if let Some(answer) = search_uncounted(alloc, tables, &mut turns, &mut Untraced)? {
        return Ok(Some(answer));
    }
    answer_of_walk(alloc, tables.problem(), turns.walk())
}

/// A walk that asks about the problem with more items primary, or about the problem itself where there is none. The
/// only error is out of memory.
fn walk_over<'a>(
    alloc: Global,
    problem: &'a Problem,
    made: Option<&'a WithUsedItems>,
) -> Result<QuestionWalk<'a>, AllocError>
    requires { IfSome made (λ made. HaveSameCovers problem.now made.now.problem) }
    ensures { IfOk result (λ walk. walk.problem ≡ problem.now) }
{
    let settings = Settings {
        memory: LEARNED,
        ..Settings::new()
    };
    match made {
        Some(made) => QuestionWalk::asking(alloc, problem, &made.problem, settings),
        None => QuestionWalk::new(alloc, problem, settings),
    }
}

/// Searches the problem in turns with a walk, which asks about the problem with those items made primary that each
/// exact cover uses, if some are found. It returns nothing, too, where there is no memory for a walk.
fn search_and_ask<V: Watch, C: Clock>(
    clock: &C,
    alloc: Global,
    tables: &Tables<'_>,
    made: Option<&WithUsedItems>,
    watch: &mut V,
) -> Result<Option<Answer>, AllocError>
    requires { IfSome made (λ made. HaveSameCovers tables.now made.now.problem) }
    ensures answer { IfOk result (λ found. IfSome found
        (λ answer. answer ≡ answer_by tables.now (first tables.now []))) }
    ensures order { IfOk result (λ found. IfSome found (IsWritable tables.now)) }
{
    match walk_over(alloc, tables.problem(), made) {
        // (a type names the problem in the contract of the watch: here Brand gets the name of this one)
        Ok(walk) => search_in_turns::<Brand, V, C>(clock, alloc, tables, walk, watch),
        Err(AllocError) => Ok(None),
    }
}

/// The problem with those items made primary that each exact cover uses, if some are found before the watch ends that
/// and there is memory for it.
fn with_more_primary<V: Watch>(
    alloc: Global,
    problem: &Problem,
    watch: &mut V,
) -> Option<WithUsedItems>
    ensures { IfSome result (λ made. HaveSameCovers problem.now made.problem) }
{
    match with_used_items_until(alloc, problem, &mut RootWatch { watch }) {
        Ok(made) => made,
        Err(AllocError) => None,
    }
}

/// Does what `search_and_ask` does, but now and then both rest while a reason by multipliers is looked for. One that
/// is found ends them.
fn search_until_reason<V: Watch, C: Clock>(
    clock: &C,
    alloc: Global,
    tables: &Tables<'_>,
    made: Option<&WithUsedItems>,
    watch: &mut V,
) -> Result<Option<Answer>, AllocError>
    requires { IfSome made (λ made. HaveSameCovers tables.now made.now.problem) }
    ensures answer { IfOk result (λ found. IfSome found
        (λ answer. answer ≡ answer_by tables.now (first tables.now []))) }
    ensures order { IfOk result (λ found. IfSome found (IsWritable tables.now)) }
{
    let problem = tables.problem();
    let mut looking = LookingWatch::new(clock, alloc, problem, watch, LATE);
    if let Some(answer) = search_and_ask(clock, alloc, tables, made, &mut looking)? {
        return Ok(Some(answer));
    }
    Ok(looking.answer(problem))
}

/// Searches the problem, in turns with a walk that asks a learner, until it is decided or the watch stops both, and
/// returns the answer, or none where it was stopped. Now and then a reason is looked for. The only error is out of
/// memory.
pub(crate) fn search_at_length<V: Watch, C: Clock>(
    clock: &C,
    alloc: Global,
    tables: &Tables<'_>,
    watch: &mut V,
) -> Result<Option<Answer>, AllocError>
    ensures answer { IfOk result (λ found. MatchOption found (V.may_stop ≡ true)
        (λ answer. answer ≡ answer_by tables.now (first tables.now []))) }
    ensures order { IfOk result (λ found. IfSome found (IsWritable tables.now)) }
{
    let made = with_more_primary(alloc, tables.problem(), watch);
    if let Some(answer) = search_until_reason(clock, alloc, tables, made.as_ref(), watch)? {
        return Ok(Some(answer));
    }
    // (the watch stopped it, which it does again at its first look; or there was no memory for the walk)
    search_uncounted(alloc, tables, watch, &mut Untraced)
}
