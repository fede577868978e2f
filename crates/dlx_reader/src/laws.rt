//! Laws of the definitions: functions that do nothing, each with the law as its clause.

ghost use Rattle.std.specs.Prelude.{◌≡◌, ℕ, List, None};
ghost use Rattle.cover_problem.specs.Problem.{Problem};
ghost use Rattle.dlx_reader.specs.Faults.{first_fault};
ghost use Rattle.dlx_reader.specs.ProblemOf.{IsProblemOf};

/// A text has at most one problem, with one number of ignored options. It has a problem exactly where it has no first
/// fault.
pub fn one_problem_or_first_fault()
    ensures one { (text : List ℕ) (p q : Problem) (n m : ℕ) → IsProblemOf text p n →
        IsProblemOf text q m → (p ≡ q) × (n ≡ m) }
    ensures no_fault { (text : List ℕ) (problem : Problem) (ignored : ℕ) →
        IsProblemOf text problem ignored → first_fault text ≡ None }
    ensures some { (text : List ℕ) → first_fault text ≡ None → (problem : Problem)
        × ((ignored : ℕ) × IsProblemOf text problem ignored) }
{}
