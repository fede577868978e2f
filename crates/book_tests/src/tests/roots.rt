//! A cell of the registry, and the answer in its book.

ghost use Rattle.std.specs.Prelude.{◌≡◌};
ghost use Rattle.run_book.specs.Sites.{opening_of, IsRun, MayBeginIn};

use super::cells::book_of;
use cover_problem::{Answer, Numbers, Problem};
use dlx_reader::read_problem;
use node_core::{Core, Event};
use packet_wire::{Body, Packet, is_well_formed};
use root_registry::Registry;
use run_book::{
    Book, CellName, CellParts, Receipt, Run, Seat, SiteCell, cores_step_as_their_sites,
    distinct_sites,
};
use spawn_frame::{ChildResult, Site};
use std::alloc::{AllocError, Global};
use std::marker::Brand;
use std::slice;
use std::sync::Wait;
use std::test::*;

/// Seven items and six options, with one cover: options 3, 4 and 0.
const LETTERS: &str = "a b c d e f g\nc e\na d g\nb c f\na d f\nb g\nd e g\n";

/// The registry, and a node.
const REGISTRY: Site = Site {
    node: 0,
    incarnation: 1,
};

const NODE: Site = Site {
    node: 1,
    incarnation: 1,
};

/// Delivers what the node says.
fn hears<J: Run, C: Core + Drop, N: CellName, R: Wait>(
    rt: &R,
    cell: &SiteCell<J, C, N>,
    seat: Seat<N>,
    receipts: &mut Vec<Receipt<N>>,
    body: Body,
) -> Option<Seat<N>> {
    let packet = Packet {
        from: NODE,
        to: REGISTRY,
        body,
    };
    if !is_well_formed(&packet) {
        return None;
    }
    receipts.reserve(1).ok()?;
    let (seat, receipt) = cell.act(rt, seat, Event::Deliver(packet)).ok()?;
    receipts.push_reserved(receipt);
    Some(seat)
}

/// The cover as the node found it, and as the registry publishes it.
fn cover(alloc: Global, options: &[u16]) -> Result<Numbers, AllocError> {
    Ok(Numbers::from_vec(Vec::from_slice(alloc, options)?))
}

/// What the node says once it has found the cover.
fn found(alloc: Global) -> Option<Body> {
    Some(Body::Return {
        serial: 0,
        attempt: 1,
        result: ChildResult::Cover(cover(alloc, &[3, 4, 0]).ok()?),
    })
}

/// The node asks for work, and then has found the cover.
fn hears_all<J: Run, C: Core + Drop, N: CellName, R: Wait>(
    rt: &R,
    alloc: Global,
    cell: &SiteCell<J, C, N>,
    receipts: &mut Vec<Receipt<N>>,
) -> Option<Seat<N>> {
    let seat = hears(rt, cell, cell.seat(rt).ok()?, receipts, Body::Steal)?;
    hears(rt, cell, seat, receipts, found(alloc)?)
}

/// Whether the answer in the registry's book is the cover.
fn tells<J: Run>(alloc: Global, book: &Book<J>, problem: &Problem) -> Option<bool>
    requires registry { book.now.site.node ≡ 0 }
    requires problem { problem.now ≡ J.run.problem }
{
    let published = Answer::Cover(cover(alloc, &[0, 3, 4]).ok()?);
    let answer = book.answer(alloc, problem).ok()?;
    Some(distinct_sites(slice::from_ref(book)) && answer == Some(published))
}

/// Plays a search of one node at a cell of the registry; whether the answer in its book is the cover.
fn play<J: Run, N: CellName, R: Wait>(
    rt: &R,
    alloc: Global,
    cell_parts: CellParts,
    core: Registry,
    problem: &Problem,
) -> Option<bool>
    requires here { cell_parts ≡ record { table = N.table; name = N.name } }
    requires parts { N.parts ≡ 18446744073709551615 }
    requires run { IsRun J.run }
    requires begins { MayBeginIn J.run N.site N.limit }
    requires registry { N.site.node ≡ 0 }
    requires core { core ≡ record { problem = J.run.problem; view = opening_of J.run N.site N.limit } }
    requires problem { problem.now ≡ J.run.problem }
{
    cores_step_as_their_sites();
    let cell: SiteCell<J, Registry, N> = SiteCell::new(cell_parts, core, 2);
    let mut receipts = Vec::new(alloc);
    let seat = hears_all(rt, alloc, &cell, &mut receipts)?;
    let book = book_of(alloc, cell, seat, receipts)?;
    tells(alloc, &book, problem)
}

/// Plays it at a cell of the registry in a run of this problem.
fn play_in<R: Wait>(rt: &R, alloc: Global, problem: &Problem) -> Result<Option<bool>, Fail> {
    problem.recall_rules();
    let cell_parts = CellParts::new(alloc)?;
    let core = Registry::start(alloc, problem, 1)?;
    let right = play::<Brand, Brand, _>(rt, alloc, cell_parts, core, problem);
    Ok(right)
}

#[test]
fn book_of_the_registry(rt: HostRuntime) -> Result<(), Fail> {
    let read = read_problem(rt.alloc(), LETTERS.as_bytes())?;
    let right = play_in(&rt, rt.alloc(), &read.problem)?;
    assert_eq!(rt; right, Some(true));
    Ok(())
}
