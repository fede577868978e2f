//! What callers of a cell rely on, besides the contracts of its calls.

ghost use Rattle.std.specs.Prelude.{◌≡◌, ℕ, ◌≤◌, IfSome};
ghost use Rattle.node_core.specs.Formed.{MayBegin};
ghost use Rattle.node_core.specs.NodeStep.{NodeStep};
ghost use Rattle.node_core.specs.Requests.{registry};
ghost use Rattle.node_core.specs.SiteView.{View, opening_view};
ghost use Rattle.root_registry.specs.Published.{published_by};
ghost use Rattle.root_registry.specs.RegistryStep.{RegistryStep};
ghost use Rattle.run_book.specs.Answers.{book_answer};
ghost use Rattle.run_book.specs.Books.{Book as BookValue, EndsIn, IsBook};
ghost use Rattle.run_book.specs.Runs.{CountsRight};
ghost use Rattle.run_book.specs.Sites.{opening_of, MayBeginIn, RunName, StepsAt};
ghost use Rattle.spawn_frame.specs.declared.site.Site.{Site};
ghost use Rattle.steal_return.specs.Ledger.{opening_ledger, root_ledger};

/// Each step of a node's core is one of every site but the registry, and each of the registry's core one of the
/// registry.
pub fn cores_step_as_their_sites()
    ensures nodes { (node : ℕ) → 1 ≤ node → StepsAt node NodeStep }
    ensures registry { (node : ℕ) → node ≡ 0 → StepsAt node RegistryStep }
{}

/// The answer of the registry's book is what its last view publishes: the book's first Accept told the root's result.
pub fn a_book_tells_what_is_published()
    ensures { (run : RunName) (book : BookValue) (limit : ℕ) (last : View) → book.site.node ≡ 0 →
        EndsIn run book limit last → book_answer run.problem book.entries
        ≡ published_by run.problem last }
{}

/// The answer of the registry's book counts right: the registry has counted each cover before it entered.
pub fn what_is_published_counts_right()
    ensures { (run : RunName) (book : BookValue) → book.site.node ≡ 0 → IsBook run book →
        IfSome (book_answer run.problem book.entries) (CountsRight run.problem) }
{}

/// A node of 1 or more begins in a run as a node begins, and the registry as the registry does.
pub fn sites_begin()
    ensures node { (run : RunName) (site : Site) (limit : ℕ) → MayBegin site run.nodes limit →
        MayBeginIn run site limit × (opening_of run site limit
        ≡ opening_view (opening_ledger site run.nodes limit)) }
    ensures registry { (run : RunName) (limit : ℕ) →
        MayBeginIn run registry limit × (opening_of run registry limit
        ≡ opening_view (root_ledger run.nodes)) }
{}
