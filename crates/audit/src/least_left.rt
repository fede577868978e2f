//! Which book is left when a merge can't go on.

ghost use Rattle.std.specs.Prelude.{◌≡◌, ◌+◌, ◌<◌, length, IfNone, IfSome};
ghost use Rattle.audit.specs.Audits.{site_before};
ghost use Rattle.audit.specs.Cursors.{AreUsedUp, IsLeastBelow, LeastLeft};

use crate::missing::is_before;
use run_book::{Book, Run};

/// The book of least site that has an entry left.
pub fn least_left<J: Run>(books: &[Book<J>], cursors: &[usize]) -> Option<usize>
    requires { length cursors.now ≡ length books.now }
    ensures some { IfSome result (λ k. (k < length books.now) × LeastLeft books.now cursors.now k) }
    ensures none { IfNone result (AreUsedUp books.now cursors.now) }
{
    let mut least = None;
    for k in 0..books.len() {
        least = least_with(books, cursors, k, least);
    }
    least
}

/// The same of one book more.
fn least_with<J: Run>(
    books: &[Book<J>],
    cursors: &[usize],
    k: usize,
    least: Option<usize>,
) -> Option<usize>
    requires each { length cursors.now ≡ length books.now }
    requires within { k < length books.now }
    requires least { IsLeastBelow books.now cursors.now k least }
    ensures { IsLeastBelow books.now cursors.now (k + 1) result }
{
    let book = &books[k];
    if cursors[k] >= book.entries().len() {
        return least;
    }
    match least {
        None => Some(k),
        Some(other) => {
            if precedes(book, &books[other]) {
                Some(k)
            } else {
                Some(other)
            }
        }
    }
}

/// Whether the book's site is less than the other's.
fn precedes<J: Run>(book: &Book<J>, other: &Book<J>) -> bool
    ensures { result ≡ site_before book.now.site other.now.site }
{
    is_before(book.site(), other.site())
}
