//! What holds of every merge of the books of a run: the function is a law, and does nothing.

ghost use Rattle.std.specs.Prelude.{◌≡◌, true, List};
ghost use Rattle.std.specs.List.{AllByRecursion};
ghost use Rattle.audit.specs.Checked.{AreSafe};
ghost use Rattle.run_book.specs.Books.{are_distinct, Book as BookValue, IsBook};
ghost use Rattle.run_book.specs.Merges.{IsMerge, SiteEntry};
ghost use Rattle.run_book.specs.Sites.{RunName};

use cover_world::{safe_over_every_run, steps_keep_the_site};
use run_book::a_book_tells_what_is_published;

/// A merge of all books of a run, no two of one site, is a run of the world: restarts are put in before the first entry
/// of a later incarnation, and nodes without a book idle. So each cut of it is safe; what the registry's book answers
/// is what that run publishes, and it is right.
pub fn merged_books_are_a_run()
    ensures { (run : RunName) (books : List BookValue) (merged : List SiteEntry) →
        AllByRecursion (IsBook run) books → are_distinct books ≡ true → IsMerge books merged →
        AreSafe run books }
{
    safe_over_every_run();
    steps_keep_the_site();
    a_book_tells_what_is_published();
}
