//! Why a problem has no exact cover: a reason of it as it stands, with those items primary that each exact cover uses,
//! or with items for cliques; or a reason for each option of an item, once that is chosen.
//!
//! They are looked for in this order, each only where those before it were not found: short reasons; reasons by used
//! items; too little room by cliques; multipliers of any size; cases. What is found sooner, and is shorter to add up,
//! comes first.

ghost use Rattle.std.specs.Prelude.{◌≡◌, [], ◌++◌, codes, IfOk, IfSome};
ghost use Rattle.cover_problem.specs.Prefix.{IsBarren};
ghost use Rattle.reason_engine.specs.Causes.{IsCause, cause_text};
ghost use Rattle.used_items.specs.Orders.{IsPromoted};

use crate::text::{cases_lines_of, clique_lines_of, lines_of, promoted_lines_of};
use case_reasons::{Cases, find_cases_until};
use clash_cliques::{RoomByCliques, find_room_by_cliques};
use cover_problem::Problem;
use cover_reasons::{Reason, ReasonWatch, find_fractional_reason_until, find_short_reason_until};
use std::alloc::{AllocError, Global};
use used_items::{WithUsedItems, with_used_items_until};

/// Why a problem has no exact cover.
#[derive(Drop)]
pub enum Cause {
    /// A reason of the problem as it stands.
    AsItStands(Reason),
    /// A reason of the problem with more items primary, and the room by which these are.
    ByUsedItems(WithUsedItems, Reason),
    /// Too little room of the problem with items for cliques of options that clash.
    ByCliques(RoomByCliques),
    /// A reason for each option of an item, once that is chosen.
    ByCases(Cases),
}

/// A cause by the problem that was made with more items primary, if a reason of that is found before the watch ends it.
/// The only error is out of memory. (The problem itself is there for the contract alone.)
fn cause_by_use<W: ReasonWatch>(
    alloc: Global,
    _problem: &Problem,
    made: WithUsedItems,
    watch: &mut W,
) -> Result<Option<Cause>, AllocError>
    requires { IsPromoted _problem.now made.room made.problem }
    ensures cause { IfOk result (λ found. IfSome found (IsCause _problem.now)) }
    ensures barren { IfOk result (λ found. IfSome found (λ cause. IsBarren _problem.now [])) }
{
    match find_short_reason_until(alloc, &made.problem, watch)? {
        Some(reason) => Ok(Some(Cause::ByUsedItems(made, reason))),
        None => Ok(None),
    }
}

/// The same where such items are found.
fn cause_by_used_items<W: ReasonWatch>(
    alloc: Global,
    problem: &Problem,
    watch: &mut W,
) -> Result<Option<Cause>, AllocError>
    ensures cause { IfOk result (λ found. IfSome found (IsCause problem.now)) }
    ensures barren { IfOk result (λ found. IfSome found (λ cause. IsBarren problem.now [])) }
{
    if watch.look() {
        return Ok(None);
    }
    match with_used_items_until(alloc, problem, watch)? {
        Some(made) => cause_by_use(alloc, problem, made, watch),
        None => Ok(None),
    }
}

/// Why the problem has no exact cover, as it stands, with those items primary that each exact cover uses, with items
/// for cliques of options that clash, or by cases, if that is found before the watch ends it. Where none is found there
/// may be a cover or none. The only error is out of memory.
pub fn find_cause_until<W: ReasonWatch>(
    alloc: Global,
    problem: &Problem,
    watch: &mut W,
) -> Result<Option<Cause>, AllocError>
    ensures cause { IfOk result (λ found. IfSome found (IsCause problem.now)) }
    ensures barren { IfOk result (λ found. IfSome found (λ cause. IsBarren problem.now [])) }
{
    if let Some(reason) = find_short_reason_until(alloc, problem, watch)? {
        return Ok(Some(Cause::AsItStands(reason)));
    }
    if let Some(cause) = cause_by_used_items(alloc, problem, watch)? {
        return Ok(Some(cause));
    }
    if let Some(by) = find_room_by_cliques(alloc, problem, watch)? {
        return Ok(Some(Cause::ByCliques(by)));
    }
    // (multipliers of any size: they are looked for once more for each of the cases)
    if let Some(reason) = find_fractional_reason_until(alloc, problem, watch)? {
        return Ok(Some(Cause::AsItStands(reason)));
    }
    match find_cases_until(alloc, problem, watch)? {
        Some(cases) => Ok(Some(Cause::ByCases(cases))),
        None => Ok(None),
    }
}

/// Returns the lines of a cause. The only error is out of memory.
pub fn cause_lines(alloc: Global, problem: &Problem, cause: &Cause) -> Result<Vec<u8>, AllocError>
    ensures { IfOk result (λ text. text.items ≡ cause_text problem.now cause.now) }
{
    match cause {
        Cause::AsItStands(reason) => lines_of(alloc, problem, reason),
        Cause::ByUsedItems(made, reason) => promoted_lines_of(alloc, problem, made, reason),
        Cause::ByCliques(by) => clique_lines_of(alloc, by),
        Cause::ByCases(cases) => cases_lines_of(alloc, problem, cases),
    }
}

/// Returns that there is no cover, and the lines of a cause. The only error is out of memory.
pub(crate) fn text_of(
    alloc: Global,
    problem: &Problem,
    cause: &Cause,
) -> Result<Vec<u8>, AllocError>
    ensures { IfOk result (λ text. text.items ≡ codes "none\n" ++ cause_text problem.now cause.now) }
{
    let lines = cause_lines(alloc, problem, cause)?;
    let mut text = Vec::from_slice(alloc, b"none\n")?;
    text.extend_from_slice(&lines)?;
    Ok(text)
}
