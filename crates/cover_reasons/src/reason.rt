//! Why a problem has no exact cover, as numbers that anybody can add up.

ghost use Rattle.std.specs.Prelude.{◌≡◌, ℕ, List, [], true, None};
ghost use Rattle.cover_problem.specs.Prefix.{IsBarren};
ghost use Rattle.cover_problem.specs.Search.{first};
ghost use Rattle.cover_reasons.specs.Reasons.{holds_of};

use crate::room::Room;
use crate::room_test::is_too_little;
use crate::weights::Weights;
use crate::weights_test::excludes;
use cover_problem::Problem;

/// A reason why a problem has no exact cover.
#[derive(Debug, Drop)]
pub enum Reason {
    /// Each option weighs 0 modulo a number, and all primary items together don't.
    Weighed(Weights),
    /// Primary items need more than there is room for.
    TooLittleRoom(Room),
}

/// Whether the reason holds of the problem. Where it does, no prefix has a cover, and a search finds none.
///
/// It takes no memory.
pub fn holds_of(problem: &Problem, reason: &Reason) -> bool
    ensures holds { result ≡ holds_of problem.now reason.now }
    ensures barren { result ≡ true → (prefix : List ℕ) → IsBarren problem.now prefix }
    ensures none { result ≡ true → first problem.now [] ≡ None }
{
    match reason {
        Reason::Weighed(weights) => excludes(problem, weights),
        Reason::TooLittleRoom(room) => is_too_little(problem, room),
    }
}
