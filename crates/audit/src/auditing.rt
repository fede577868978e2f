//! Were the books of all sites one run? A run of a distributed system is a partial order (Lamport's "happened before"):
//! each site's entries in their order, each delivery after an equal packet was put out, each incarnation after the
//! earlier ones. The audit looks for a total order that agrees with it.
//!
//! It runs no core. That each book is a sequence of legal steps is known from its type, and the law
//! `merged_books_are_a_run` makes of any merge a run of the world, which is safe. Index and path save time and are
//! believed in nothing: each entry is tested before it is taken.

ghost use Rattle.std.specs.Prelude.{◌≡◌, true, IfErr, OnOk};
ghost use Rattle.audit.specs.Audits.{AllHaveBooks, IsCause};
ghost use Rattle.run_book.specs.Books.{are_distinct};
ghost use Rattle.audit.specs.Checked.{AreSafe};

use crate::laws::merged_books_are_a_run;
use crate::least_left::least_left;
use crate::merge::merge;
use crate::missing::{are_of_run, missing_book};
use crate::packet_index::PacketIndex;
use crate::waiting_path::WaitingPath;
use run_book::{Book, Run};
use spawn_frame::Site;
use std::alloc::Global;

/// The books are one run of the world.
#[derive(Clone, Copy, Debug, PartialEq, Eq)]
pub struct Clean;

/// Why the books were not found to be one run of the world.
#[derive(Clone, Copy, Debug, PartialEq, Eq)]
pub enum Unclean {
    /// The registry or the sender of a delivered packet has no book. This is the least such site.
    MissingBook(Site),
    /// No book's next entry can be merged. This is the least site that waits on a packet, and the place of the entry
    /// that waits.
    NeverSent(Site, usize),
    /// Memory ran out. No site lacks a book.
    Memory,
}

/// Merges the books of one run, no two of one site, as far as possible: an entry that delivers a packet waits until an
/// equal packet was put out, and a later incarnation of a node waits until the books of its earlier ones are used up.
///
/// `Clean`: a merge of all books is a run of the world, with restarts put in. So each cut of it is safe, and the
/// registry's book answers what that run publishes, which is right. Otherwise the cause, the first that applies in the
/// order of `Unclean`.
pub fn audit<J: Run>(alloc: Global, books: &[Book<J>]) -> Result<Clean, Unclean>
    requires { are_distinct books.now ≡ true }
    ensures clean { OnOk result (AreSafe J.run books.now) }
    ensures complete { OnOk result (AllHaveBooks books.now) }
    ensures cause { IfErr result (λ cause. IsCause books.now cause) }
{
    // (a law, empty at run time: any merge of all books is a run, so all that is left is to find one)
    merged_books_are_a_run();
    are_of_run(books);
    // (first, as the other causes promise that no site lacks a book)
    if let Some(site) = missing_book(books) {
        return Err(Unclean::MissingBook(site));
    }
    let Ok(mut cursors) = vec![in alloc; 0usize; books.len()] else {
        return Err(Unclean::Memory);
    };
    // (index and path save time alone: what they say is tested before an entry is taken)
    let Ok(index) = PacketIndex::new(alloc, books) else {
        return Err(Unclean::Memory);
    };
    let Ok(mut path) = WaitingPath::new(alloc, books.len()) else {
        return Err(Unclean::Memory);
    };
    merge(books, &mut cursors, &index, &mut path);
    match least_left(books, &cursors) {
        Some(k) => Err(Unclean::NeverSent(books[k].site(), cursors[k])),
        None => Ok(Clean),
    }
}
