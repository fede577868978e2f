//! What holds of the definitions: each function is a law, and does nothing.

ghost use Rattle.std.specs.Prelude.{◌≡◌, ℕ, List, map};
ghost use Rattle.choices.specs.Choices.{first_primary};
ghost use Rattle.cover_problem.specs.Problem.{Problem as ProblemValue};
ghost use Rattle.dancing_links.specs.declared.link.Link.{Link as LinkValue};
ghost use Rattle.dancing_links.specs.Choices.{IsLinks};
ghost use Rattle.dancing_links.specs.Columns.{Columns, column_of};

/// Links of one problem in which the same options are chosen in the same order, each by the same item, are equal in
/// every link: so undoing a choice restores every link.
pub fn links_by_choices()
    ensures { (problem : ProblemValue) (columns others : Columns) (chosen entries nodes : List ℕ)
        (links more : List LinkValue) (keys tallies : List ℕ) (room space : ℕ) →
        IsLinks problem columns chosen entries links keys room →
        IsLinks problem others chosen nodes more tallies space →
        map (column_of columns) entries ≡ map (column_of others) nodes → links ≡ more }
{}

/// Links of one problem in which the same options are chosen in the same order, each by its first primary item, are
/// equal in every link. All choices of links on which only `build`, `choose` and `undo` were called are such.
pub fn links_by_options()
    ensures { (problem : ProblemValue) (columns others : Columns) (chosen entries nodes : List ℕ)
        (links more : List LinkValue) (keys tallies : List ℕ) (room space : ℕ) →
        IsLinks problem columns chosen entries links keys room →
        IsLinks problem others chosen nodes more tallies space →
        map (column_of columns) entries ≡ map (first_primary problem) chosen →
        map (column_of others) nodes ≡ map (first_primary problem) chosen → links ≡ more }
{
    links_by_choices();
}
