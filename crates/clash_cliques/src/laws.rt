//! What the definitions are for: each function is a law, and does nothing.

ghost use Rattle.std.specs.Prelude.{◌≡◌, ℕ, List, true};
ghost use Rattle.cover_problem.specs.Problem.{IsProblem, Problem as ProblemValue};
ghost use Rattle.clash_cliques.specs.Cliques.{clash_by_twos, is_clique, are_cliques, with_clique, with_cliques, IsChosenOnce};
ghost use Rattle.clash_cliques.specs.declared.clique.Clique.{Clique as CliqueValue};
ghost use Rattle.used_items.specs.Covers.{HaveSameCovers};

/// Every exact cover has at most one of some options of which each two clash.
pub fn a_clique_is_chosen_once()
    ensures { (problem : ProblemValue) (options : List ℕ) →
        clash_by_twos problem options ≡ true → IsChosenOnce problem options }
{}

/// The problem with a further secondary item for a clique keeps the rules of problems, and has the same exact covers.
pub fn one_clique_keeps_covers()
    ensures problem { (problem : ProblemValue) (clique : CliqueValue) → IsProblem problem →
        is_clique problem clique ≡ true → IsProblem (with_clique problem clique) }
    ensures covers { (problem : ProblemValue) (clique : CliqueValue) → IsProblem problem →
        is_clique problem clique ≡ true → HaveSameCovers problem (with_clique problem clique) }
{}

/// The same of the items of several cliques.
pub fn cliques_keep_covers()
    ensures problem { (problem : ProblemValue) (cliques : List CliqueValue) → IsProblem problem →
        are_cliques problem cliques ≡ true → IsProblem (with_cliques problem cliques) }
    ensures covers { (problem : ProblemValue) (cliques : List CliqueValue) → IsProblem problem →
        are_cliques problem cliques ≡ true → HaveSameCovers problem (with_cliques problem cliques) }
{}
