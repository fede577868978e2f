//! What a certificate shows: each function is a law, and does nothing.

ghost use Rattle.std.specs.Prelude.{◌≡◌, ℕ, ◌<◌, Bool, length, true};
ghost use Rattle.cover_problem.specs.ExactCover.{IsExactCover};
ghost use Rattle.cover_problem.specs.Problem.{IsProblem, Problem as ProblemValue};
ghost use Rattle.cover_certificates.specs.Refutations.{Refutes};
ghost use Rattle.cover_certificates.specs.Stuck.{AreStuck};

/// Items that are refuted can't be covered.
pub fn refutations_are_sound()
    ensures { (problem : ProblemValue) (items live : ℕ → Bool) →
        IsProblem problem → Refutes problem items live → AreStuck problem items live }
{}

/// Where primary items can't be covered though each option is live, no set of options is an exact cover.
pub fn stuck_items_exclude_covers()
    ensures { (problem : ProblemValue) (items live : ℕ → Bool) (chosen : ℕ → Bool) →
        ((item : ℕ) → items item ≡ true → item < problem.primary) →
        ((option : ℕ) → option < length problem.options → live option ≡ true) →
        AreStuck problem items live → IsExactCover problem chosen → ⊥ }
{}
