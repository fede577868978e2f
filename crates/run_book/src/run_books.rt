//! What the books of a run tell together.

ghost use Rattle.std.specs.Prelude.{◌≡◌, option_map, IfOk, IfSome};
ghost use Rattle.run_book.specs.Runs.{registry_book, CountsRight, IsPublished};

use crate::book::Book;
use crate::names::Run;
use cover_problem::{Answer, Problem};
use std::alloc::{AllocError, Global};

/// The registry's book, where it is among these: the first of them, if there are several.
pub fn registry_book<J: Run>(books: &[Book<J>]) -> Option<&Book<J>>
    ensures book { option_map (λ book. book.now) result ≡ registry_book books.now }
    ensures registry { IfSome result (λ book. book.now.site.node ≡ 0) }
{
    for book in books {
        if book.site().node == 0 {
            return Some(book);
        }
    }
    None
}

/// What the registry published, as its book among these says it; nothing where its book is not among them. A cover is
/// exact, and in the order of the file. The only error is out of memory.
pub fn published<J: Run>(
    alloc: Global,
    problem: &Problem,
    books: &[Book<J>],
) -> Result<Option<Answer>, AllocError>
    requires { problem.now ≡ J.run.problem }
    ensures published { IfOk result (λ answer. IsPublished J.run answer (registry_book books.now)) }
    ensures counts_right { IfOk result (λ answer. IfSome answer (CountsRight J.run.problem)) }
{
    match registry_book(books) {
        Some(book) => book.answer(alloc, problem),
        None => Ok(None),
    }
}
