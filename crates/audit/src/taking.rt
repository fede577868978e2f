//! Which book's next entry may be taken.

ghost use Rattle.std.specs.Prelude.{◌≡◌, ◌<◌, length, option_map, slice_get, true, Decides, IfNone, IfSome};
ghost use Rattle.audit.specs.Cursors.{HaveBegun, HoldsUp, IsNext, IsSent, IsStuck, IsTurn, Takes};

use crate::packet_index::{PacketIndex, is_put_out_at};
use crate::put_out::was_put_out;
use node_core::Event;
use run_book::{Book, Entry, Run};
use spawn_frame::Site;

/// What is asked whether a packet was put out. Of either, a yes is right.
#[derive(Clone, Copy)]
pub enum Evidence<'a> {
    /// The spot that the index gives. Its no may be wrong: another packet with the same digest may stand there.
    Index(&'a PacketIndex),
    /// Every entry before a cursor: its no is right as well, but takes long.
    AllBooks,
}

/// The first book whose next entry may be taken, as the evidence shows.
pub fn first_to_take<J: Run>(
    books: &[Book<J>],
    cursors: &[usize],
    evidence: Evidence<'_>,
) -> Option<usize>
    requires each { length cursors.now ≡ length books.now }
    requires begun { HaveBegun books.now cursors.now }
    ensures some { IfSome result (λ k. (k < length books.now) × Takes books.now cursors.now k) }
    ensures none { evidence.entry ≡ Evidence.AllBooks →
        IfNone result (IsStuck books.now cursors.now) }
{
    for k in 0..books.len() {
        if takes(books, cursors, k, evidence) {
            return Some(k);
        }
    }
    None
}

/// Whether the book's next entry may be taken, as the evidence shows.
pub fn takes<J: Run>(books: &[Book<J>], cursors: &[usize], k: usize, evidence: Evidence<'_>) -> bool
    requires each { length cursors.now ≡ length books.now }
    requires within { k < length books.now }
    requires begun { HaveBegun books.now cursors.now }
    ensures sound { result ≡ true → Takes books.now cursors.now k }
    ensures complete { evidence.entry ≡ Evidence.AllBooks →
        Takes books.now cursors.now k → result ≡ true }
{
    let book = &books[k];
    match entry_at(book, cursors[k]) {
        Some(entry) => follows(books, cursors, book, cursors[k], entry, evidence),
        None => false,
    }
}

/// The book's entry at this place.
pub fn entry_at<J: Run>(book: &Book<J>, place: usize) -> Option<&Entry>
    ensures { option_map (λ entry. entry.now) result ≡ slice_get book.now.entries place }
{
    book.entries().get(place)
}

/// Whether an entry of the book may be the next one of the merge, as the evidence shows.
fn follows<J: Run>(
    books: &[Book<J>],
    cursors: &[usize],
    book: &Book<J>,
    cursor: usize,
    entry: &Entry,
    evidence: Evidence<'_>,
) -> bool
    requires each { length cursors.now ≡ length books.now }
    requires begun { 0 < cursor → IsTurn books.now cursors.now book.now.site }
    ensures sound { result ≡ true → IsNext books.now cursors.now book.now.site entry.now.event }
    ensures complete { evidence.entry ≡ Evidence.AllBooks →
        IsNext books.now cursors.now book.now.site entry.now.event → result ≡ true }
{
    may_go_on(books, cursors, book, cursor) && is_sent(books, cursors, entry.event(), evidence)
}

/// Whether it delivers no packet, or one that was put out, as the evidence shows.
fn is_sent<J: Run>(
    books: &[Book<J>],
    cursors: &[usize],
    event: &Event,
    evidence: Evidence<'_>,
) -> bool
    requires { length cursors.now ≡ length books.now }
    ensures sound { result ≡ true → IsSent books.now cursors.now event.now }
    ensures complete { evidence.entry ≡ Evidence.AllBooks →
        IsSent books.now cursors.now event.now → result ≡ true }
{
    let Event::Deliver(packet) = event else {
        return true;
    };
    match evidence {
        Evidence::Index(index) => is_put_out_at(books, cursors, packet, index.spot_of(packet)),
        Evidence::AllBooks => was_put_out(books, cursors, packet),
    }
}

/// Whether no book of an earlier incarnation of the book's node has an entry left: so it is where the book has begun.
fn may_go_on<J: Run>(books: &[Book<J>], cursors: &[usize], book: &Book<J>, cursor: usize) -> bool
    requires each { length cursors.now ≡ length books.now }
    requires begun { 0 < cursor → IsTurn books.now cursors.now book.now.site }
    ensures { Decides result (IsTurn books.now cursors.now book.now.site) }
{
    cursor > 0 || is_turn(books, cursors, book.site())
}

/// Whether no book of an earlier incarnation of the site's node has an entry left.
fn is_turn<J: Run>(books: &[Book<J>], cursors: &[usize], site: Site) -> bool
    requires { length cursors.now ≡ length books.now }
    ensures { Decides result (IsTurn books.now cursors.now site) }
{
    for k in 0..books.len() {
        if holds_up(&books[k], cursors[k], site) {
            return false;
        }
    }
    true
}

/// Whether the book is of an earlier incarnation of the site's node, and has an entry left.
pub fn holds_up<J: Run>(book: &Book<J>, cursor: usize, site: Site) -> bool
    ensures { Decides result (HoldsUp site book.now cursor) }
{
    book.site().node == site.node
        && book.site().incarnation < site.incarnation
        && cursor < book.entries().len()
}
