//! A hash index from packets to where they were first put out. Without it each delivery would be looked for in all
//! books.
//!
//! The digest is rustc's FxHash with another factor: rotate, exclusive or, multiply, here by 2^64 over the golden ratio
//! (Fibonacci hashing, TAOCP 6.4). It leaves out prefixes and results, since names and attempts differ already. Equal
//! digests cost time alone: the packet itself is compared at the spot, and `AllBooks` looks everywhere in the end.

ghost use Rattle.std.specs.Prelude.{◌≡◌, true};
ghost use Rattle.audit.specs.Cursors.{PutOut};

use crate::waiting_path::AwaitedBook;
use packet_wire::{Body, Packet};
use run_book::{Book, Entry, Run};
use spawn_frame::{Cause, Sibling, Site};
use std::alloc::{AllocError, Global};
use std::collections::HashMap;

/// Where a packet is put out: by which book, by which of its entries, and as which of its packets. One that has no room
/// here is not found.
#[derive(Clone, Copy, Debug)]
pub struct Spot {
    book: u32,
    place: u32,
    among: u32,
}

impl Spot {
    /// The spot, if it has room here.
    fn new(book: usize, place: usize, among: usize) -> Option<Spot> {
        Some(Spot {
            book: u32::try_from(book).ok()?,
            place: u32::try_from(place).ok()?,
            among: u32::try_from(among).ok()?,
        })
    }

    /// Whether the cursor of its book has not passed it.
    pub fn is_ahead(&self, cursors: &[usize]) -> bool {
        match cursors.get(self.book as usize) {
            Some(cursor) => *cursor <= self.place as usize,
            None => false,
        }
    }

    /// Its book, up to and with its entry.
    pub fn awaited_book(&self) -> AwaitedBook {
        AwaitedBook {
            number: self.book as usize,
            until: self.place as usize + 1,
        }
    }
}

/// Where packets are first put out, by a digest of each. No contract speaks of what it holds: each spot is compared
/// with the packet before anything rests on it.
#[derive(Drop)]
pub struct PacketIndex {
    spots: HashMap<u64, Spot>,
}

impl PacketIndex {
    /// The index of all packets that the books put out. It fails only if memory runs out.
    pub fn new<J: Run>(alloc: Global, books: &[Book<J>]) -> Result<PacketIndex, AllocError> {
        let mut index = PacketIndex {
            spots: HashMap::new(alloc),
        };
        for book in 0..books.len() {
            index.enter(book, books[book].entries())?;
        }
        Ok(index)
    }

    /// Enters the packets of a book, each where it is not there yet.
    fn enter(&mut self, book: usize, entries: &[Entry]) -> Result<(), AllocError> {
        for place in 0..entries.len() {
            self.enter_packets(book, place, entries[place].packets())?;
        }
        Ok(())
    }

    /// Enters the packets of an entry.
    fn enter_packets(
        &mut self,
        book: usize,
        place: usize,
        packets: &[Packet],
    ) -> Result<(), AllocError> {
        for among in 0..packets.len() {
            if let Some(spot) = Spot::new(book, place, among) {
                // (the first spot stays: a delivery may follow as soon as an equal packet was put out once)
                self.spots.entry(digest(&packets[among]))?.or_insert(spot);
            }
        }
        Ok(())
    }

    /// Where the packet is put out first, unless another packet with its digest comes before it.
    pub fn spot_of(&self, packet: &Packet) -> Option<Spot> {
        self.spots.get(&digest(packet)).copied()
    }
}

/// Whether the packet is put out at this spot, before the cursor of its book.
pub fn is_put_out_at<J: Run>(
    books: &[Book<J>],
    cursors: &[usize],
    packet: &Packet,
    spot: Option<Spot>,
) -> bool
    ensures { result ≡ true → PutOut books.now cursors.now packet.now }
{
    match spot {
        Some(Spot { book, place, among }) => is_among(
            books,
            cursors,
            book as usize,
            place as usize,
            among as usize,
            packet,
        ),
        None => false,
    }
}

/// Whether the packet is that one of the entry's packets, and the entry is before its book's cursor.
fn is_among<J: Run>(
    books: &[Book<J>],
    cursors: &[usize],
    book: usize,
    place: usize,
    among: usize,
    packet: &Packet,
) -> bool
    ensures { result ≡ true → PutOut books.now cursors.now packet.now }
{
    // (a spot has no contract, so its numbers are tested before they are used)
    if book >= books.len() || book >= cursors.len() || place >= cursors[book] {
        return false;
    }
    let entries = books[book].entries();
    if place >= entries.len() {
        return false;
    }
    let packets = entries[place].packets();
    among < packets.len() && packets[among].is_same(packet)
}

/// A number that is mostly another for another packet of a run.
fn digest(packet: &Packet) -> u64 {
    // (prefixes and results are left out: sites, serial and attempt differ already from child to child)
    let sites = with_site(with_site(0, packet.from), packet.to);
    match &packet.body {
        Body::Hello => with_word(sites, 1),
        Body::Members(incarnations) => with_all(with_word(sites, 2), incarnations.as_slice()),
        Body::Steal => with_word(sites, 3),
        Body::Give {
            serial,
            attempt,
            ..
        } => with_child(with_word(sites, 4), *serial, *attempt),
        Body::GiveMany { siblings, .. } => with_siblings(with_word(sites, 11), siblings.as_slice()),
        Body::NoWork => with_word(sites, 5),
        Body::Return {
            serial,
            attempt,
            ..
        } => with_child(with_word(sites, 6), *serial, *attempt),
        Body::Accept {
            serial,
            attempt,
            ..
        } => with_child(with_word(sites, 7), *serial, *attempt),
        Body::Refuse {
            serial,
            attempt,
            cause,
        } => with_cause(with_child(with_word(sites, 8), *serial, *attempt), *cause),
        Body::Abort { serial, attempt } => with_child(with_word(sites, 9), *serial, *attempt),
        Body::Over => with_word(sites, 10),
    }
}

fn with_site(sum: u64, site: Site) -> u64 {
    with_word(
        with_word(sum, u64::from(site.node)),
        u64::from(site.incarnation),
    )
}

fn with_child(sum: u64, serial: u32, attempt: u32) -> u64 {
    with_word(with_word(sum, u64::from(serial)), u64::from(attempt))
}

fn with_siblings(sum: u64, siblings: &[Sibling]) -> u64 {
    let mut all = sum;
    for sibling in siblings {
        all = with_child(all, sibling.serial, sibling.attempt);
    }
    all
}

fn with_cause(sum: u64, cause: Cause) -> u64 {
    match cause {
        Cause::Aborted => with_word(sum, 1),
        Cause::Superseded => with_word(sum, 2),
        Cause::Unknown => with_word(sum, 3),
    }
}

fn with_all(sum: u64, words: &[u32]) -> u64 {
    let mut all = sum;
    for word in words {
        all = with_word(all, u64::from(*word));
    }
    all
}

/// The sum with one word more.
fn with_word(sum: u64, word: u64) -> u64 {
    // (an odd factor, 2^64 by the golden ratio, spreads numbers that are close; a digest loses nothing by what wraps)
    (sum.rotate_left(5) ^ word).wrapping_mul(0x9E37_79B9_7F4A_7C15)
}
