//! What the definitions are for: each function is a law, and does nothing.

ghost use Rattle.std.specs.Prelude.{◌≡◌, ℕ, List, Bool, [], true, None};
ghost use Rattle.cover_problem.specs.ExactCover.{IsExactCover};
ghost use Rattle.cover_problem.specs.Prefix.{IsBarren};
ghost use Rattle.cover_problem.specs.Problem.{IsProblem, Problem as ProblemValue};
ghost use Rattle.cover_problem.specs.Search.{first};
ghost use Rattle.cover_reasons.specs.Reasons.{holds_of};
ghost use Rattle.cover_reasons.specs.declared.reason.Reason.{Reason as ReasonValue};
ghost use Rattle.cover_reasons.specs.Room.{Room as RoomValue, is_too_little};
ghost use Rattle.cover_reasons.specs.Weights.{Weights as WeightsValue, excludes};

use cover_problem::first_is_an_exact_cover;

/// Where weights exclude it, no set of options is an exact cover, no exact cover extends any prefix, and a search of
/// the whole problem finds none.
pub fn weights_exclude_covers()
    ensures cover { (problem : ProblemValue) (weights : WeightsValue) (chosen : ℕ → Bool) →
        IsProblem problem → excludes problem weights ≡ true →
        IsExactCover problem chosen → ⊥ }
    ensures barren { (problem : ProblemValue) (weights : WeightsValue) (prefix : List ℕ) →
        IsProblem problem → excludes problem weights ≡ true →
        IsBarren problem prefix }
    ensures first { (problem : ProblemValue) (weights : WeightsValue) →
        IsProblem problem → excludes problem weights ≡ true →
        first problem [] ≡ None }
{
    first_is_an_exact_cover();
}

/// Where there is too little room for it, no set of options is an exact cover, no exact cover extends any prefix, and a
/// search of the whole problem finds none.
pub fn lack_of_room_excludes_covers()
    ensures cover { (problem : ProblemValue) (room : RoomValue) (chosen : ℕ → Bool) →
        IsProblem problem → is_too_little problem room ≡ true →
        IsExactCover problem chosen → ⊥ }
    ensures barren { (problem : ProblemValue) (room : RoomValue) (prefix : List ℕ) →
        IsProblem problem → is_too_little problem room ≡ true →
        IsBarren problem prefix }
    ensures first { (problem : ProblemValue) (room : RoomValue) →
        IsProblem problem → is_too_little problem room ≡ true →
        first problem [] ≡ None }
{
    first_is_an_exact_cover();
}

/// Where a reason of either kind holds of a problem, no set of options is an exact cover, no exact cover extends any
/// prefix, and a search of the whole problem finds none.
pub fn reasons_exclude_covers()
    ensures cover { (problem : ProblemValue) (reason : ReasonValue) (chosen : ℕ → Bool) →
        IsProblem problem → holds_of problem reason ≡ true →
        IsExactCover problem chosen → ⊥ }
    ensures barren { (problem : ProblemValue) (reason : ReasonValue) (prefix : List ℕ) →
        IsProblem problem → holds_of problem reason ≡ true →
        IsBarren problem prefix }
    ensures first { (problem : ProblemValue) (reason : ReasonValue) →
        IsProblem problem → holds_of problem reason ≡ true →
        first problem [] ≡ None }
{
    first_is_an_exact_cover();
}
