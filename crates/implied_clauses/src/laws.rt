//! What the definitions are for: each function is a law, and does nothing.

ghost use Rattle.std.specs.Prelude.{◌≡◌, ℕ, ◌<◌, List, [], ◌∷◌, map, Bool, true, Option, None};
ghost use Rattle.cover_problem.specs.ExactCover.{IsExactCover};
ghost use Rattle.cover_problem.specs.Prefix.{IsBarren, clash};
ghost use Rattle.cover_problem.specs.Problem.{Problem as ProblemValue};
ghost use Rattle.cover_problem.specs.Search.{first};
ghost use Rattle.implied_clauses.specs.Clauses.{AreImplied, IsImplied, item_clause, item_clauses};
ghost use Rattle.implied_clauses.specs.Following.{follows};
ghost use Rattle.implied_clauses.specs.declared.literal.Hint.{Hint as HintValue};
ghost use Rattle.implied_clauses.specs.declared.literal.Literal.{Literal as LiteralValue};
ghost use Rattle.implied_clauses.specs.declared.literal.Literal.TheVariants.{Left};

use cover_problem::{covers_have_no_clash, first_is_an_exact_cover};

/// The clause of a primary item is implied, and so are those of all.
pub fn one_option_of_each_item_is_chosen()
    ensures each { (problem : ProblemValue) (item : ℕ) → item < problem.primary →
        IsImplied problem (item_clause problem item) }
    ensures all { (problem : ProblemValue) → AreImplied problem (item_clauses problem) }
{}

/// Of two different options that clash it is implied that not both are chosen.
pub fn clashing_options_are_not_both_chosen()
    ensures { (problem : ProblemValue) (o p : ℕ) → (o ≡ p → ⊥) → clash problem o p ≡ true →
        IsImplied problem (Left o ∷ Left p ∷ []) }
{
    covers_have_no_clash();
}

/// What follows from implied clauses along any hints is implied.
pub fn clauses_that_follow_are_implied()
    ensures { (problem : ProblemValue) (list : List (Option (List LiteralValue)))
        (clause : List LiteralValue) (hints : List HintValue) → AreImplied problem list →
        follows problem list clause hints ≡ true → IsImplied problem clause }
{
    clashing_options_are_not_both_chosen();
}

/// A prefix is barren exactly if it is implied that one of its options is left.
pub fn barren_prefixes_are_implied_clauses()
    ensures implied { (problem : ProblemValue) (prefix : List ℕ) → IsBarren problem prefix →
        IsImplied problem (map (λ option. Left option) prefix) }
    ensures barren { (problem : ProblemValue) (prefix : List ℕ) →
        IsImplied problem (map (λ option. Left option) prefix) → IsBarren problem prefix }
{}

/// Where the empty clause is implied, no set of options is an exact cover, no exact cover extends any prefix, and a
/// search of the whole problem finds none.
pub fn refuted_problems_have_no_cover()
    ensures cover { (problem : ProblemValue) (chosen : ℕ → Bool) → IsImplied problem [] →
        IsExactCover problem chosen → ⊥ }
    ensures barren { (problem : ProblemValue) (prefix : List ℕ) → IsImplied problem [] →
        IsBarren problem prefix }
    ensures first { (problem : ProblemValue) → IsImplied problem [] → first problem [] ≡ None }
{
    first_is_an_exact_cover();
}
