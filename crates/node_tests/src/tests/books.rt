//! The books of a run: one of thousands of entries, that a follower hears of each entry, and that a run ends once they
//! are too large.
//!
//! Of the bugs of `udp_node` that are kept outside the gate, `a_book_has_room_for_thousands` finds
//! `a_book_of_2000_entries`, `the_registrys_book_has_room_for_thousands` finds `the_registrys_book_of_2000_entries`,
//! and `a_follower_hears_of_each_entry` finds `nobody_hears_of_the_registry`, and `large_books_end_a_run` finds
//! `bytes_are_never_counted`, `the_books_are_never_full`, `each_entry_has_one_byte` and `the_wrong_limit_is_named`.

use super::crowded::crowded_registry;
use super::ends::wires;
use super::lone::{HERE, REGISTRY};
use super::runs::{COVERED, Came, Row, Told, run, run_whole};
use super::timings::SOON;
use packet_wire::{Body, Packet, is_well_formed, write_packet};
use std::alloc::Global;
use std::sync::atomic::{AtomicU64, AtomicUsize, Ordering};
use std::test::Fail;
use udp_node::{EndCause, Follower, Gate, Open, Plan};

/// The pairs of nine items, those with the first item twice: no five pairs cover nine items. A search visits 1,265
/// prefixes.
static PAIRS: Row = (
    "a b c d e f g h i\n\
    a b\na c\na d\na e\na f\na g\na h\na i\na b\na c\na d\na e\na f\na g\na h\na i\n\
    b c\nb d\nb e\nb f\nb g\nb h\nb i\nc d\nc e\nc f\nc g\nc h\nc i\nd e\nd f\nd g\nd h\nd i\n\
    e f\ne g\ne h\ne i\nf g\nf h\nf i\ng h\ng i\nh i\n",
    None,
);

/// One node with one worker, whose searches make one visit each.
const PLAN: Plan = Plan {
    workers: 1,
    nodes: 1,
    fuel: 1,
    seed: 1,
    turns: 1_000_000,
    timing: SOON,
    entries: 1_000_000,
    book_bytes: 1_000_000_000,
    restarts: 0,
    limit: None,
};

#[test]
fn a_book_has_room_for_thousands(rt: HostRuntime) -> Result<(), Fail> {
    let links = wires(rt.alloc(), PLAN.nodes)?;
    let came = run(&rt, rt.alloc(), &PAIRS, PLAN, links, &Open);
    let (told, books) = (Told::Right, 2);
    assert_eq!(rt; came, Some(Came { told, books }));
    Ok(())
}

/// The packet by which node 1 asks the registry for work; none where memory runs out.
fn steal(alloc: Global) -> Option<Vec<u8>> {
    let packet = Packet {
        from: HERE,
        to: REGISTRY,
        body: Body::Steal,
    };
    if !is_well_formed(&packet) {
        return None;
    }
    let mut bytes = Vec::new(alloc);
    write_packet(alloc, &packet, &mut bytes).ok()?;
    Some(bytes)
}

/// A node asks 2,500 times, before it does anything else.
#[test]
fn the_registrys_book_has_room_for_thousands(rt: HostRuntime) -> Result<(), Fail> {
    let alloc = rt.alloc();
    let Some(steal) = steal(alloc) else {
        return Err(Fail::new("memory ran out"));
    };
    let links = crowded_registry(alloc, PLAN.nodes, steal, 2_500)?;
    let came = run(&rt, alloc, &COVERED, PLAN, links, &Open);
    let (told, books) = (Told::Right, 2);
    assert_eq!(rt; came, Some(Came { told, books }));
    Ok(())
}

/// Lets all pass, and counts the entries of which it hears.
#[derive(Drop)]
struct EntryCount {
    entries: AtomicUsize,
}

impl Gate for EntryCount {}

impl Follower for EntryCount {
    fn recorded(&self, _entries: u64, _most: u64) {
        self.entries.fetch_add(1, Ordering::SeqCst);
    }
}

#[test]
fn a_follower_hears_of_each_entry(rt: HostRuntime) -> Result<(), Fail> {
    let counted = EntryCount {
        entries: AtomicUsize::new(0),
    };
    let links = wires(rt.alloc(), PLAN.nodes)?;
    let Some(ran) = run_whole(&rt, rt.alloc(), &COVERED, PLAN, links, &counted) else {
        return Err(Fail::new("memory ran out"));
    };
    // (with the registry's own)
    assert_eq!(rt; ran.came.books, 2);
    assert_eq!(rt; counted.entries.load(Ordering::SeqCst), ran.entries);
    Ok(())
}

/// Lets all pass, and keeps how large the books have grown.
#[derive(Drop)]
struct Growth {
    bytes: AtomicU64,
}

impl Gate for Growth {}

impl Follower for Growth {
    fn grown(&self, bytes: u64, _most: u64) {
        self.bytes.fetch_max(bytes, Ordering::SeqCst);
    }
}

/// How many bytes the books of a run may take that would need more than five times as many.
const FEW_BYTES: u64 = 50_000;

/// What an entry of such a run takes at most.
const LONGEST_ENTRY: u64 = 2_000;

/// Each of three threads may make an entry more, since it asks before. All sites have their books.
#[test]
fn large_books_end_a_run(rt: HostRuntime) -> Result<(), Fail> {
    let growth = Growth {
        bytes: AtomicU64::new(0),
    };
    let plan = Plan {
        book_bytes: FEW_BYTES,
        ..PLAN
    };
    let links = wires(rt.alloc(), plan.nodes)?;
    let Some(ran) = run_whole(&rt, rt.alloc(), &PAIRS, plan, links, &growth) else {
        return Err(Fail::new("memory ran out"));
    };
    let (told, books) = (Told::Nothing, 2);
    assert_eq!(rt; ran.came, Came { told, books });
    assert!(rt;
        ran.sites
            .iter()
            .any(|site| site.cause == EndCause::BooksFull)
    );
    let bytes = growth.bytes.load(Ordering::SeqCst);
    assert!(rt;
        FEW_BYTES <= bytes && bytes < FEW_BYTES + 3 * LONGEST_ENTRY,
        "{bytes} bytes in {} entries",
        ran.entries
    );
    Ok(())
}

/// A run counts less than a book of its kind may take, and more than its lists of entries.
#[test]
fn a_run_counts_its_books(rt: HostRuntime) -> Result<(), Fail> {
    let growth = Growth {
        bytes: AtomicU64::new(0),
    };
    let links = wires(rt.alloc(), PLAN.nodes)?;
    let Some(ran) = run_whole(&rt, rt.alloc(), &PAIRS, PLAN, links, &growth) else {
        return Err(Fail::new("memory ran out"));
    };
    let (told, books) = (Told::Right, 2);
    assert_eq!(rt; ran.came, Came { told, books });
    let (bytes, entries) = (growth.bytes.load(Ordering::SeqCst), ran.entries as u64);
    assert!(rt; 5 * FEW_BYTES < bytes, "{bytes} bytes in {entries} entries");
    assert!(rt;
        bytes / LONGEST_ENTRY < entries && entries < bytes / 8,
        "{bytes} bytes in {entries} entries"
    );
    Ok(())
}
