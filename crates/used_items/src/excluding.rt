//! Reasons that hold once the items are primary that each exact cover uses.

ghost use Rattle.std.specs.Prelude.{◌≡◌, [], true, None, IfOk};
ghost use Rattle.cover_problem.specs.Search.{first};

use crate::laws::same_covers_have_the_same_none;
use crate::making::with_used_items_until;
use cover_problem::Problem;
use cover_reasons::{ReasonWatch, find_short_reason_until, holds_of};
use std::alloc::{AllocError, Global};

/// Whether a reason is found why the problem has no exact cover, before the watch ends that.
fn has_reason<W: ReasonWatch>(
    alloc: Global,
    problem: &Problem,
    watch: &mut W,
) -> Result<bool, AllocError>
    ensures { IfOk result (λ found. found ≡ true → first problem.now [] ≡ None) }
{
    match find_short_reason_until(alloc, problem, watch)? {
        // (for its clause, that a search finds nothing then: the finder has tested the reason already)
        Some(reason) => Ok(holds_of(problem, &reason)),
        None => Ok(false),
    }
}

/// Whether a reason is found why the problem with those items made primary that each exact cover uses has no exact
/// cover. Then a search of the problem itself finds none. Once the watch ends it none is found. The only error is out
/// of memory.
pub fn is_excluded_by_used_items<W: ReasonWatch>(
    alloc: Global,
    problem: &Problem,
    watch: &mut W,
) -> Result<bool, AllocError>
    ensures { IfOk result (λ found. found ≡ true → first problem.now [] ≡ None) }
{
    same_covers_have_the_same_none();
    if watch.look() {
        return Ok(false);
    }
    match with_used_items_until(alloc, problem, watch)? {
        Some(made) => has_reason(alloc, &made.problem, watch),
        None => Ok(false),
    }
}
