//! A problem with an item for each of some cliques.

ghost use Rattle.std.specs.Prelude.{◌≡◌, true, IfOk, IfSome};
ghost use Rattle.clash_cliques.specs.Cliques.{are_cliques, with_cliques, IsWithCliques};

use crate::adding::with_clique;
use crate::clique::Clique;
use crate::laws::cliques_keep_covers;
use crate::testing::is_clique;
use cover_problem::Problem;
use cover_reasons::{Endless, ReasonWatch};
use std::alloc::{AllocError, Global};

/// The problem with an item for each of the cliques, one after the other; nothing where one of them is none, or the
/// watch ends that. The only error is out of memory.
fn made_with<W: ReasonWatch>(
    alloc: Global,
    problem: &Problem,
    cliques: &[Clique],
    watch: &mut W,
) -> Result<Option<Problem>, AllocError>
    ensures { IfOk result (λ found. IfSome found (λ made.
        (are_cliques problem.now cliques.now ≡ true)
        × (made ≡ with_cliques problem.now cliques.now))) }
{
    let mut made = problem.copy()?;
    for clique in cliques {
        if watch.look() || !is_clique(&made, clique) {
            return Ok(None);
        }
        made = with_clique(alloc, &made, clique)?;
    }
    Ok(Some(made))
}

/// The problem with a further secondary item for each of the cliques, if they are such: it has the same exact covers.
/// The only error is out of memory. The program calls `with_cliques_until`.
pub fn with_cliques(
    alloc: Global,
    problem: &Problem,
    cliques: &[Clique],
) -> Result<Option<Problem>, AllocError>
    ensures { IfOk result (λ found.
        IfSome found (λ made. IsWithCliques problem.now cliques.now made)) }
{
    with_cliques_until(alloc, problem, cliques, &mut Endless)
}

/// The same, made until the watch ends that: then there is none.
pub(crate) fn with_cliques_until<W: ReasonWatch>(
    alloc: Global,
    problem: &Problem,
    cliques: &[Clique],
    watch: &mut W,
) -> Result<Option<Problem>, AllocError>
    ensures { IfOk result (λ found.
        IfSome found (λ made. IsWithCliques problem.now cliques.now made)) }
{
    cliques_keep_covers();
    problem.recall_rules();
    made_with(alloc, problem, cliques, watch)
}
