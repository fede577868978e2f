//! The answer to a problem, whatever number of visits it takes: by a short search, by a reason that excludes covers, or
//! by a long search and a walk that asks a learner.
//!
//! A tenth of a second is searched first, then a reason is looked for, then the search begins again: so short searches
//! don't wait for a reason, which may take most of a second, and what the short search did is little beside what may
//! follow. In both searches a `LookingWatch` looks for a reason, too, for little time. If memory for the reason is
//! refused, the search goes on.

ghost use Rattle.std.specs.Prelude.{◌≡◌, [], true, false, None, IfOk, IfSome, MatchOption};
ghost use Rattle.cover_problem.specs.Search.{first};
ghost use Rattle.dlx_reader.specs.Writing.{IsWritable};
ghost use Rattle.search_engines.specs.Alone.{answer_by};

use crate::asking::search_at_length;
use crate::looking::{EARLY, LookingWatch};
use crate::searching::search_counting_first;
use crate::stopwatch::Stopwatch;
use brancher::{Tables, Watch};
use cover_problem::{Answer, Problem};
use cover_reasons::{ReasonWatch, find_short_reason_until, holds_of};
use std::alloc::{AllocError, Global};
use std::time::{Clock, Duration};
use used_items::is_excluded_by_used_items;

/// How many milliseconds a search lasts before a reason is looked for. Most searches are shorter, and to look may take
/// most of a second.
const SHORT: u64 = 100;

/// A watch that stops a search `SHORT` after it was made. Where the clock can't be read it stops it at its first look:
/// the search is then begun again under a watch that needs no clock.
#[derive(Drop)]
pub(crate) struct ShortWatch<'a, C: Clock> {
    pub(crate) clock: &'a C,
    pub(crate) stopwatch: Stopwatch,
}

impl<'a, C: Clock> Watch for ShortWatch<'a, C> {
    ghost use Rattle.std.specs.Prelude.{true};

    ghost may_stop = { true };

    fn look(&mut self, _chosen: &[u16], _left: u64) -> bool {
        match self.stopwatch.elapsed(self.clock) {
            Some(elapsed) => elapsed >= Duration::from_millis(SHORT),
            None => true,
        }
    }
}

/// The watch of a search, while a reason is looked for: no option is chosen, and no visit made.
#[derive(Drop)]
pub(crate) struct RootWatch<'a, V: Watch> {
    pub(crate) watch: &'a mut V,
}

impl<'a, V: Watch> ReasonWatch for RootWatch<'a, V> {
    fn look(&mut self) -> bool {
        self.watch.look(&[], u64::MAX)
    }
}

/// Returns whether a reason is found why there is no cover, but for one by multipliers, which takes longest, before the
/// watch ends that. Where memory runs out none is found, and that is no error: a search may need less.
pub fn is_excluded<V: Watch>(alloc: Global, problem: &Problem, watch: &mut V) -> bool
    ensures { result ≡ true → first problem.now [] ≡ None }
{
    let mut root = RootWatch { watch };
    match find_short_reason_until(alloc, problem, &mut root) {
        // (for its clause, that a search finds nothing then: the finder has tested the reason already)
        Ok(Some(reason)) => holds_of(problem, &reason),
        Ok(None) => is_excluded_by_use(alloc, problem, &mut root),
        Err(_) => false,
    }
}

/// Returns whether one is found once the items are primary that each cover uses.
fn is_excluded_by_use<W: ReasonWatch>(alloc: Global, problem: &Problem, watch: &mut W) -> bool
    ensures { result ≡ true → first problem.now [] ≡ None }
{
    match is_excluded_by_used_items(alloc, problem, watch) {
        Ok(is_excluded) => is_excluded,
        Err(_) => false,
    }
}

/// Searches the problem for `SHORT` at most, and looks for a reason meanwhile. Returns the answer, or none where
/// neither came to an end. The only error is out of memory.
fn search_briefly<C: Clock>(
    clock: &C,
    alloc: Global,
    tables: &Tables<'_>,
) -> Result<Option<Answer>, AllocError>
    ensures answer { IfOk result (λ found. IfSome found
        (λ answer. answer ≡ answer_by tables.now (first tables.now []))) }
    ensures order { IfOk result (λ found. IfSome found (IsWritable tables.now)) }
{
    let problem = tables.problem();
    let stopwatch = Stopwatch::new(clock);
    let mut short = ShortWatch { clock, stopwatch };
    let mut looking = LookingWatch::new(clock, alloc, problem, &mut short, EARLY);
    if let Some(answer) = search_counting_first(alloc, tables, &mut looking)? {
        return Ok(Some(answer));
    }
    Ok(looking.answer(problem))
}

/// Returns the answer of a problem: its first cover, with its options in the order of the file, or that there is none;
/// no answer where the watch stopped the search, or it and the search for a reason. A search that lasts longer than a
/// tenth of a second is begun again under the watch, if no reason is found that excludes a cover; from then on a walk
/// to the first cover that asks a learner has half of the time. The only error is out of memory.
pub fn answer_until<V: Watch, C: Clock>(
    clock: &C,
    alloc: Global,
    problem: &Problem,
    watch: &mut V,
) -> Result<Option<Answer>, AllocError>
    ensures answer { IfOk result (λ found. MatchOption found (V.may_stop ≡ true)
        (λ answer. answer ≡ answer_by problem.now (first problem.now []))) }
    ensures order { IfOk result (λ found. IfSome found (IsWritable problem.now)) }
{
    let tables = Tables::build(alloc, problem)?;
    if let Some(answer) = search_briefly(clock, alloc, &tables)? {
        return Ok(Some(answer));
    }
    if is_excluded(alloc, problem, watch) {
        return Ok(Some(Answer::NoCover));
    }
    // (from the start once more: what the short search did is a tenth of a second, little beside what may follow)
    search_at_length(clock, alloc, &tables, watch)
}
