//! What the first cover of a prefix has to do with those of its children: each function is a law, and does nothing.

ghost use Rattle.std.specs.Prelude.{◌≡◌, ℕ, List, ◌∷◌, ◌++◌, true, None, Some};
ghost use Rattle.cover_problem.specs.Branching.{branch_item, children};
ghost use Rattle.cover_problem.specs.Prefix.{IsCoverOver, is_prefix};
ghost use Rattle.cover_problem.specs.Problem.{Problem as ProblemValue};
ghost use Rattle.cover_problem.specs.Search.{first};
ghost use Rattle.question_walk.specs.Walks.{AreBarren};

/// Where no exact cover extends an earlier child of a prefix, and one extends this child, the first cover of the prefix
/// is that of the child.
pub fn first_cover_of_a_child()
    ensures { (problem : ProblemValue) (prefix child cover : List ℕ) (earlier later : List (List ℕ)) →
        is_prefix problem prefix ≡ true → children problem prefix ≡ earlier ++ child ∷ later →
        AreBarren problem earlier → IsCoverOver problem child cover →
        first problem prefix ≡ first problem child }
{}

/// Where no exact cover extends any child of a prefix that isn't complete, the prefix has no first cover.
pub fn no_cover_of_a_child()
    ensures { (problem : ProblemValue) (prefix : List ℕ) (item : ℕ) → is_prefix problem prefix ≡ true →
        branch_item problem prefix ≡ Some item → AreBarren problem (children problem prefix) →
        first problem prefix ≡ None }
{}
