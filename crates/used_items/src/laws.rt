//! What the definitions are for: each function is a law, and does nothing.

ghost use Rattle.std.specs.Prelude.{◌≡◌, ℕ, ◌≤◌, [], true, None};
ghost use Rattle.cover_problem.specs.Problem.{IsProblem, Problem as ProblemValue};
ghost use Rattle.cover_problem.specs.Search.{first};
ghost use Rattle.cover_reasons.specs.Room.{Room as RoomValue, amount_of};
ghost use Rattle.used_items.specs.Covers.{HaveSameCovers};
ghost use Rattle.used_items.specs.Enough.{is_just_enough, IsAlwaysUsed};
ghost use Rattle.used_items.specs.Orders.{Order as OrderValue, promotes, reordered};

use cover_problem::first_is_an_exact_cover;

/// Where room is just enough, each exact cover names each item that has room once.
pub fn items_with_just_enough_room_are_used()
    ensures { (problem : ProblemValue) (room : RoomValue) (item : ℕ) → IsProblem problem →
        is_just_enough problem room ≡ true → 1 ≤ amount_of room.rooms item →
        IsAlwaysUsed problem item }
{}

/// Where the items that come to the primary ones have room that is just enough, the problem in the new order keeps the
/// rules of problems, and has the same exact covers.
pub fn promotion_keeps_covers()
    ensures problem { (problem : ProblemValue) (room : RoomValue) (order : OrderValue) →
        IsProblem problem → promotes problem room order ≡ true →
        IsProblem (reordered problem order) }
    ensures covers { (problem : ProblemValue) (room : RoomValue) (order : OrderValue) →
        IsProblem problem → promotes problem room order ≡ true →
        HaveSameCovers problem (reordered problem order) }
{}

/// Of two problems with the same exact covers a search finds a cover of both, or of neither.
pub fn same_covers_have_the_same_none()
    ensures { (problem other : ProblemValue) → HaveSameCovers problem other →
        first other [] ≡ None → first problem [] ≡ None }
{
    first_is_an_exact_cover();
}
