//! Copies are equal to what was copied, and to nothing else of these tests.

use brancher::{Finding, Searcher};
use cover_problem::Numbers;
use dlx_reader::read_problem;
use node_core::{Event, Reply};
use packet_wire::{Body, Incarnations, Packet};
use spawn_frame::{Job, Site, Unit};
use std::alloc::Global;
use std::fmt::Debug;
use std::process::Abort;

/// Seven items and six options, of which 3, 4 and 0 are the one exact cover.
const LETTERS: &str = "a b c d e f g\nc e\na d g\nb c f\na d f\nb g\nd e g\n";

const JOB: Job = Job {
    unit: Unit::Own(3),
    attempt: 2,
};

/// A copy of the first value is equal to it, and not to the second.
fn tells_apart<R: Abort, T: Clone + Debug + Drop + PartialEq>(rt: &R, value: &T, other: &T) {
    let copy = value.clone().expect(rt, "memory");
    assert!(rt; copy == *value, "{copy:?} {value:?}");
    assert!(rt; copy != *other, "{copy:?} {other:?}");
}

/// An incarnation of a node.
fn site(node: u8, incarnation: u32) -> Site {
    Site { node, incarnation }
}

/// The finding of the empty prefix with so much fuel.
fn found<R: Abort>(rt: &R, alloc: Global, fuel: u64) -> Finding {
    let read = read_problem(alloc, LETTERS.as_bytes()).expect(rt, "a problem");
    let mut searcher = Searcher::new(alloc, &read.problem).expect(rt, "memory");
    searcher
        .find(Vec::new(alloc), fuel.max(1))
        .expect(rt, "memory")
}

/// The packet by which the registry sends a node the incarnations that it knows.
fn members<R: Abort>(rt: &R, alloc: Global, node: u8) -> Packet {
    let known = Incarnations::from_vec(vec![in alloc; 1, 256].expect(rt, "memory"));
    Packet {
        from: site(0, 1),
        to: site(node, 1),
        body: Body::Members(known),
    }
}

/// Copies of the arrivals of such packets.
fn deliveries<R: Abort>(rt: &R, alloc: Global) {
    let one = Event::Deliver(members(rt, alloc, 1));
    tells_apart(rt, &one, &Event::Deliver(members(rt, alloc, 2)));
}

/// Copies of the posts of searches with other fuels.
fn posts<R: Abort>(rt: &R, alloc: Global) {
    let whole = Event::Post(JOB, found(rt, alloc, 9));
    tells_apart(rt, &whole, &Event::Post(JOB, found(rt, alloc, 5)));
}

#[test]
fn events(rt: HostRuntime) {
    let alloc = rt.alloc();
    tells_apart(&rt, &Event::Again, &Event::Greet);
    deliveries(&rt, alloc);
    posts(&rt, alloc);
    assert!(rt; found(&rt, alloc, 9).cover() == [3, 4, 0].as_slice());
}

/// What is taken up with this prefix.
fn taken<R: Abort>(rt: &R, alloc: Global, prefix: &[u16]) -> Reply {
    let prefix = Vec::from_slice(alloc, prefix).expect(rt, "memory");
    Reply::Taken(JOB, Numbers::from_vec(prefix))
}

#[test]
fn replies(rt: HostRuntime) {
    let alloc = rt.alloc();
    tells_apart(&rt, &taken(&rt, alloc, &[5, 4]), &taken(&rt, alloc, &[5]));
}
