//! What the definitions are for: each function is a law, and does nothing.

ghost use Rattle.std.specs.Prelude.{◌≡◌, ℕ, ◌<◌, [], Bool, length, true, None};
ghost use Rattle.cover_problem.specs.ExactCover.{IsExactCover};
ghost use Rattle.cover_problem.specs.Prefix.{IsBarren};
ghost use Rattle.cover_problem.specs.Problem.{IsProblem, Problem as ProblemValue};
ghost use Rattle.cover_problem.specs.Search.{first};
ghost use Rattle.case_reasons.specs.Cases.{AreCases, after_choice, has_room_after};
ghost use Rattle.case_reasons.specs.declared.case.Cases.{Cases as CasesValue};

use cover_problem::first_is_an_exact_cover;
use cover_reasons::reasons_exclude_covers;

/// The problem once an option is chosen keeps the rules of problems, if it has room for the copies, and each exact
/// cover that has the option is one of it.
pub fn a_choice_keeps_its_covers()
    ensures problem { (problem : ProblemValue) (option : ℕ) → IsProblem problem →
        option < length problem.options → has_room_after problem option ≡ true →
        IsProblem (after_choice problem option) }
    ensures covers { (problem : ProblemValue) (option : ℕ) (chosen : ℕ → Bool) →
        IsProblem problem → IsExactCover problem chosen → chosen option ≡ true →
        IsExactCover (after_choice problem option) chosen }
{}

/// Where each option of an item has a case, no set of options is an exact cover, and a search finds none.
pub fn cases_exclude_covers()
    ensures cover { (problem : ProblemValue) (cases : CasesValue) → IsProblem problem →
        AreCases problem cases → IsBarren problem [] }
    ensures first { (problem : ProblemValue) (cases : CasesValue) → IsProblem problem →
        AreCases problem cases → first problem [] ≡ None }
{
    first_is_an_exact_cover();
    reasons_exclude_covers();
}
