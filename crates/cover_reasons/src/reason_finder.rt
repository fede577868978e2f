//! The search for a reason of either kind.

ghost use Rattle.std.specs.Prelude.{◌≡◌, [], true, IfOk, IfSome};
ghost use Rattle.cover_problem.specs.Prefix.{IsBarren};
ghost use Rattle.cover_reasons.specs.Reasons.{holds_of};

use crate::fractional_finder::find_fractional_room_until;
use crate::laws::reasons_exclude_covers;
use crate::reason::Reason;
use crate::reason_watch::{Endless, ReasonWatch};
use crate::room_finder::find_room_until;
use crate::weights_finder::find_weights_until;
use cover_problem::Problem;
use std::alloc::{AllocError, Global};

/// The moduli that are tried, in this order: small primes, and powers of those that boards and tori need.
const MODULI: [u8; 8] = [2, 3, 4, 8, 9, 5, 7, 16];

/// A reason why the problem has no exact cover: too little room of one kind, or else weights modulo 2, 3, 4, 8, 9, 5, 7
/// or 16, or else too little room by any multipliers.
///
/// Where it finds none there may be a cover or none. It takes memory of the order of the items' square, and time of the
/// order of their cube, a second or three at most. The only error is out of memory. The program calls
/// `find_reason_until`.
pub fn find_reason(alloc: Global, problem: &Problem) -> Result<Option<Reason>, AllocError>
    ensures holds { IfOk result (λ found.
        IfSome found (λ reason. holds_of problem.now reason ≡ true)) }
    ensures barren { IfOk result (λ found. IfSome found (λ reason. IsBarren problem.now [])) }
{
    find_reason_until(alloc, problem, &mut Endless)
}

/// A reason as `find_reason` gives it, looked for until the watch ends that: then there is none.
pub fn find_reason_until<W: ReasonWatch>(
    alloc: Global,
    problem: &Problem,
    watch: &mut W,
) -> Result<Option<Reason>, AllocError>
    ensures holds { IfOk result (λ found.
        IfSome found (λ reason. holds_of problem.now reason ≡ true)) }
    ensures barren { IfOk result (λ found. IfSome found (λ reason. IsBarren problem.now [])) }
{
    match find_short_reason_until(alloc, problem, watch)? {
        Some(reason) => Ok(Some(reason)),
        None => find_fractional_reason_until(alloc, problem, watch),
    }
}

/// The same without the last kind, which takes longest.
pub fn find_short_reason_until<W: ReasonWatch>(
    alloc: Global,
    problem: &Problem,
    watch: &mut W,
) -> Result<Option<Reason>, AllocError>
    ensures holds { IfOk result (λ found.
        IfSome found (λ reason. holds_of problem.now reason ≡ true)) }
    ensures barren { IfOk result (λ found. IfSome found (λ reason. IsBarren problem.now [])) }
{
    // (a law, which does nothing: by its clauses a reason that holds leaves no cover)
    reasons_exclude_covers();
    problem.recall_rules();
    // (before weights: a reader understands what it says of his items sooner than sums modulo a number)
    if let Some(room) = find_room_until(alloc, problem, watch)? {
        return Ok(Some(Reason::TooLittleRoom(room)));
    }
    match find_weights_until(alloc, problem, &MODULI, watch)? {
        Some(weights) => Ok(Some(Reason::Weighed(weights))),
        None => Ok(None),
    }
}

/// The last kind alone, looked for until the watch ends that: too little room by any multipliers.
///
/// In a problem made from another one by making items primary that each cover uses it finds what it finds in that: the
/// room that shows that each cover uses them shows it of each solution of the linear relaxation, too.
pub fn find_fractional_reason_until<W: ReasonWatch>(
    alloc: Global,
    problem: &Problem,
    watch: &mut W,
) -> Result<Option<Reason>, AllocError>
    ensures holds { IfOk result (λ found.
        IfSome found (λ reason. holds_of problem.now reason ≡ true)) }
    ensures barren { IfOk result (λ found. IfSome found (λ reason. IsBarren problem.now [])) }
{
    reasons_exclude_covers();
    problem.recall_rules();
    match find_fractional_room_until(alloc, problem, watch)? {
        Some(room) => Ok(Some(Reason::TooLittleRoom(room))),
        None => Ok(None),
    }
}
