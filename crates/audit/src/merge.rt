//! A merge of beginnings of books, kept as one cursor for each book: how many of its entries are merged.
//!
//! Any book whose next entry may come takes it, without going back: what one book takes never keeps another from taking
//! its entry, so the order of the books doesn't matter, and where nothing can be taken any more no other merge would
//! have come further. (Packets only ever become more, as in Lamport's "happened before".)

ghost use Rattle.std.specs.Prelude.{◌≡◌, ◌+◌, ◌<◌, length, replicate, IfNone, IfSome};
ghost use Rattle.audit.specs.Cursors.{AreOfMerge, HaveBegun, IsStuck, Takes};

use crate::packet_index::{PacketIndex, Spot};
use crate::taking::{Evidence, entry_at, first_to_take, holds_up, takes};
use crate::waiting_path::{AwaitedBook, WaitingPath};
use node_core::Event;
use run_book::{Book, Run};
use spawn_frame::Site;

/// Merges the books as far as they go.
pub fn merge<J: Run>(
    books: &[Book<J>],
    cursors: &mut Vec<usize>,
    index: &PacketIndex,
    path: &mut WaitingPath,
)
    requires { cursors.old.items ≡ replicate (length books.now) 0 }
    ensures each { length cursors.new.items ≡ length books.now }
    ensures merge { AreOfMerge books.now cursors.new.items }
    ensures stuck { IsStuck books.now cursors.new.items }
{
    while let Some(k) = next(books, cursors, index, path) {
        // (for what its type says: the cursor stays below it)
        let _many = count(&books[k]);
        cursors[k] += 1;
    }
}

/// How many entries the book has.
fn count<J: Run>(book: &Book<J>) -> usize
    ensures { result ≡ length book.now.entries }
{
    book.entries().len()
}

/// A book whose next entry may be taken, where there is one: the last one of the path, or one for which that waits;
/// else the first that the index shows, with which the path restarts; else the first that all books show.
fn next<J: Run>(
    books: &[Book<J>],
    cursors: &[usize],
    index: &PacketIndex,
    path: &mut WaitingPath,
) -> Option<usize>
    requires each { length cursors.now ≡ length books.now }
    requires begun { HaveBegun books.now cursors.now }
    ensures some { IfSome result (λ k. (k < length books.now) × Takes books.now cursors.now k) }
    ensures none { IfNone result (IsStuck books.now cursors.now) }
{
    // (as many steps as the path has room for: on a longer one nobody could go on)
    for _ in 0..books.len() {
        let Some(k) = path.last(cursors) else {
            break;
        };
        // (never so, but no contract of the path says it)
        if k >= books.len() {
            break;
        }
        if takes(books, cursors, k, Evidence::Index(index)) {
            return Some(k);
        }
        path.wait_for(awaited(books, cursors, k, index));
    }
    if let Some(k) = first_to_take(books, cursors, Evidence::Index(index)) {
        path.restart(k);
        return Some(k);
    }
    // (an equal digest may hide a packet from the index, so a no of the index ends no merge)
    first_to_take(books, cursors, Evidence::AllBooks)
}

/// The book for which this one waits, and up to which of its entries: the one that puts out its next packet, as the
/// index says, else the book of an earlier incarnation of its node.
fn awaited<J: Run>(
    books: &[Book<J>],
    cursors: &[usize],
    k: usize,
    index: &PacketIndex,
) -> Option<AwaitedBook>
    requires each { length cursors.now ≡ length books.now }
    requires within { k < length books.now }
{
    match spot_at(&books[k], cursors[k], index) {
        Some(spot) if spot.is_ahead(cursors) => Some(spot.awaited_book()),
        // (no packet that the index knows holds the book up, so an earlier incarnation of its node may)
        _ => earlier_incarnation(books, cursors, books[k].site()),
    }
}

/// Where the packet that the book's next entry delivers is put out, as the index says.
fn spot_at<J: Run>(book: &Book<J>, cursor: usize, index: &PacketIndex) -> Option<Spot> {
    match entry_at(book, cursor)?.event() {
        Event::Deliver(packet) => index.spot_of(packet),
        _ => None,
    }
}

/// The first book of an earlier incarnation of the site's node that has an entry left, and its end.
fn earlier_incarnation<J: Run>(
    books: &[Book<J>],
    cursors: &[usize],
    site: Site,
) -> Option<AwaitedBook>
    requires { length cursors.now ≡ length books.now }
{
    for k in 0..books.len() {
        if holds_up(&books[k], cursors[k], site) {
            return Some(AwaitedBook {
                number: k,
                until: books[k].entries().len(),
            });
        }
    }
    None
}
