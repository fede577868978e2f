//! Books of runs, and what an audit finds, also where memory is refused. These tests refuse none themselves: it has to
//! be refused from outside, for which `trials/refuse_growth.c` is meant.

ghost use Rattle.std.specs.Prelude.{◌≡◌, ◌≤◌, true};
ghost use Rattle.run_book.specs.Books.{are_distinct};
ghost use Rattle.run_book.specs.Sites.{opening_of, IsRun, MayBeginIn};

use audit::{Clean, Unclean, audit};
use cover_problem::{Numbers, Problem};
use dlx_reader::read_problem;
use growth_marks::{begin, end};
use node_core::{Core, Event, NodeCore};
use packet_wire::{Body, Packet, is_well_formed};
use root_registry::Registry;
use run_book::{
    Book, CellName, CellParts, Receipt, Run, Seat, SiteCell, cores_step_as_their_sites,
    distinct_sites, sites_begin,
};
use spawn_frame::Site;
use std::alloc::Global;
use std::marker::Brand;
use std::process::Abort;
use std::sync::Wait;
use std::test::*;

/// One item, and no option.
const ITEM: &str = "a\n";

/// How many nodes each run has.
const NODES: u8 = 2;

/// The registry.
const REGISTRY: Site = Site {
    node: 0,
    incarnation: 1,
};

/// What happens at a site.
#[derive(Clone, Copy)]
enum Act {
    /// A node greets.
    Greet,
    /// A node asks the registry for work.
    Ask,
    /// The registry hears a Hello of node 1 in this incarnation.
    Hello(u32),
    /// The registry hears a Steal of node 1 in this incarnation.
    Steal(u32),
    /// Node 1 in its first incarnation is given the root by the registry.
    Give,
    /// Node 1 in its first incarnation hears from the registry that there is no work, which the registry never says.
    NoWork,
}

/// A run: what happens at the sites that have a book, the incarnations of node 1 in their order, and what an audit
/// finds.
struct Row {
    root: Option<&'static [Act]>,
    incarnations: &'static [(u32, &'static [Act])],
    found: Result<Clean, Unclean>,
}

/// Node 1 in its first incarnation, and in its second.
const FIRST: Site = Site {
    node: 1,
    incarnation: 1,
};

const SECOND: Site = Site {
    node: 1,
    incarnation: 2,
};

static ROWS: [Row; 13] = [
    // a Hello that was put out, one that was altered, and one whose sender has no book
    Row {
        root: Some(&[Act::Hello(1)]),
        incarnations: &[(1, &[Act::Greet])],
        found: Ok(Clean),
    },
    Row {
        root: Some(&[Act::Steal(1)]),
        incarnations: &[(1, &[Act::Greet])],
        found: Err(Unclean::NeverSent(REGISTRY, 0)),
    },
    Row {
        root: Some(&[Act::Hello(1)]),
        incarnations: &[],
        found: Err(Unclean::MissingBook(FIRST)),
    },
    // two incarnations of a node
    Row {
        root: Some(&[Act::Hello(2), Act::Hello(1)]),
        incarnations: &[(1, &[Act::Greet]), (2, &[Act::Greet])],
        found: Ok(Clean),
    },
    Row {
        root: Some(&[Act::Hello(2), Act::Hello(1)]),
        incarnations: &[(2, &[Act::Greet])],
        found: Err(Unclean::MissingBook(FIRST)),
    },
    Row {
        root: Some(&[]),
        incarnations: &[(2, &[Act::Greet])],
        found: Ok(Clean),
    },
    // no book, and two that lack one
    Row {
        root: None,
        incarnations: &[],
        found: Err(Unclean::MissingBook(REGISTRY)),
    },
    Row {
        root: Some(&[Act::Hello(3), Act::Hello(2)]),
        incarnations: &[(1, &[Act::Greet])],
        found: Err(Unclean::MissingBook(SECOND)),
    },
    // a packet that is delivered twice
    Row {
        root: Some(&[Act::Hello(1), Act::Hello(1)]),
        incarnations: &[(1, &[Act::Greet])],
        found: Ok(Clean),
    },
    // two sites that wait for each other in turn, and the same without the packet that is answered
    Row {
        root: Some(&[Act::Hello(1), Act::Steal(1)]),
        incarnations: &[(1, &[Act::Greet, Act::Ask, Act::Give])],
        found: Ok(Clean),
    },
    Row {
        root: Some(&[Act::Hello(1), Act::Steal(1)]),
        incarnations: &[(1, &[Act::Greet, Act::Give])],
        found: Err(Unclean::NeverSent(REGISTRY, 1)),
    },
    // a later incarnation behind an earlier one that waits, and a lesser site that waits on the later one
    Row {
        root: Some(&[Act::Hello(1)]),
        incarnations: &[(1, &[Act::Greet, Act::NoWork]), (2, &[Act::Greet])],
        found: Err(Unclean::NeverSent(FIRST, 1)),
    },
    Row {
        root: Some(&[Act::Hello(2)]),
        incarnations: &[(1, &[Act::Greet, Act::NoWork]), (2, &[Act::Greet])],
        found: Err(Unclean::NeverSent(REGISTRY, 0)),
    },
];

/// Node 1 in this incarnation.
fn node(incarnation: u32) -> Site
    ensures node { result.node ≡ 1 }
    ensures incarnation { result.incarnation ≡ incarnation }
{
    Site {
        node: 1,
        incarnation,
    }
}

/// The packet is delivered at the cell.
fn hears<J: Run, C: Core + Drop, N: CellName, R: Wait>(
    rt: &R,
    cell: &SiteCell<J, C, N>,
    seat: Seat<N>,
    packet: Packet,
) -> Option<(Seat<N>, Receipt<N>)> {
    if !is_well_formed(&packet) {
        return None;
    }
    cell.act(rt, seat, Event::Deliver(packet)).ok()
}

/// The packet by which the registry gives node 1 the root.
fn root(alloc: Global) -> Body {
    Body::Give {
        serial: 0,
        attempt: 1,
        prefix: Numbers::from_vec(Vec::new(alloc)),
    }
}

/// The act is done at the cell.
fn does<J: Run, C: Core + Drop, N: CellName, R: Wait>(
    rt: &R,
    alloc: Global,
    cell: &SiteCell<J, C, N>,
    seat: Seat<N>,
    act: Act,
) -> Option<(Seat<N>, Receipt<N>)> {
    let (from, to, body) = match act {
        Act::Greet => return cell.act(rt, seat, Event::Greet).ok(),
        Act::Ask => return cell.act(rt, seat, Event::Ask(0)).ok(),
        Act::Hello(incarnation) => (node(incarnation), REGISTRY, Body::Hello),
        Act::Steal(incarnation) => (node(incarnation), REGISTRY, Body::Steal),
        Act::Give => (REGISTRY, node(1), root(alloc)),
        Act::NoWork => (REGISTRY, node(1), Body::NoWork),
    };
    hears(rt, cell, seat, Packet { from, to, body })
}

/// The book of a cell at which all this is done.
fn book_of<J: Run, C: Core + Drop, N: CellName, R: Wait>(
    rt: &R,
    alloc: Global,
    cell: SiteCell<J, C, N>,
    acts: &[Act],
) -> Option<Book<J>> {
    let mut seat = cell.seat(rt).ok()?;
    let mut receipts = Vec::new(alloc);
    for act in acts {
        receipts.reserve(1).ok()?;
        let (kept, receipt) = does(rt, alloc, &cell, seat, *act)?;
        seat = kept;
        receipts.push_reserved(receipt);
    }
    let mut seats = Vec::new(alloc);
    seats.push(seat).ok()?;
    cell.close(seats, receipts).ok()
}

/// The registry's book.
fn root_book<J: Run, N: CellName, R: Wait>(
    rt: &R,
    alloc: Global,
    cell_parts: CellParts,
    core: Registry,
    acts: &[Act],
) -> Option<Book<J>>
    requires here { cell_parts ≡ record { table = N.table; name = N.name } }
    requires parts { N.parts ≡ 18446744073709551615 }
    requires run { IsRun J.run }
    requires begins { MayBeginIn J.run N.site N.limit }
    requires registry { N.site.node ≡ 0 }
    requires core { core ≡ record { problem = J.run.problem; view = opening_of J.run N.site N.limit } }
{
    cores_step_as_their_sites();
    let cell: SiteCell<J, Registry, N> = SiteCell::new(cell_parts, core, 10);
    book_of(rt, alloc, cell, acts)
}

/// A node's book.
fn node_book<J: Run, N: CellName, R: Wait>(
    rt: &R,
    alloc: Global,
    cell_parts: CellParts,
    core: NodeCore,
    acts: &[Act],
) -> Option<Book<J>>
    requires here { cell_parts ≡ record { table = N.table; name = N.name } }
    requires parts { N.parts ≡ 18446744073709551615 }
    requires run { IsRun J.run }
    requires begins { MayBeginIn J.run N.site N.limit }
    requires node { 1 ≤ N.site.node }
    requires core { core ≡ record { problem = J.run.problem; view = opening_of J.run N.site N.limit } }
{
    cores_step_as_their_sites();
    let cell: SiteCell<J, NodeCore, N> = SiteCell::new(cell_parts, core, 10);
    book_of(rt, alloc, cell, acts)
}

/// The registry begins, and all this is done there.
fn registry<J: Run, R: Wait>(
    rt: &R,
    alloc: Global,
    problem: &Problem,
    acts: &[Act],
) -> Option<Book<J>>
    requires problem { problem.now ≡ J.run.problem }
    requires nodes { J.run.nodes ≡ 2 }
{
    sites_begin();
    problem.recall_rules();
    let cell_parts = CellParts::new(alloc).ok()?;
    let core = Registry::start(alloc, problem, NODES).ok()?;
    root_book::<J, Brand, R>(rt, alloc, cell_parts, core, acts)
}

/// Node 1 starts with this incarnation, and all this is done there.
fn node_in<J: Run, R: Wait>(
    rt: &R,
    alloc: Global,
    problem: &Problem,
    incarnation: u32,
    acts: &[Act],
) -> Option<Book<J>>
    requires problem { problem.now ≡ J.run.problem }
    requires nodes { J.run.nodes ≡ 2 }
{
    if incarnation == 0 {
        return None;
    }
    sites_begin();
    problem.recall_rules();
    let cell_parts = CellParts::new(alloc).ok()?;
    let core = NodeCore::start(alloc, problem, node(incarnation), NODES, 1000).ok()?;
    node_book::<J, Brand, R>(rt, alloc, cell_parts, core, acts)
}

/// The number of an audit.
const AUDIT: usize = 80;

/// What an audit between marks finds, and where memory was refused, what another one finds.
fn audited<J: Run, R: Abort>(rt: &R, alloc: Global, books: &[Book<J>]) -> Result<Clean, Unclean>
    requires { are_distinct books.now ≡ true }
{
    begin(alloc, AUDIT).expect(rt, "memory");
    let found = audit(alloc, books);
    let refused = found == Err(Unclean::Memory);
    end(alloc, refused).expect(rt, "memory");
    if refused { audit(alloc, books) } else { found }
}

/// What an audit of the row's books finds.
fn finds<J: Run, R: Abort + Wait>(
    rt: &R,
    alloc: Global,
    problem: &Problem,
    row: &Row,
) -> Option<Result<Clean, Unclean>>
    requires problem { problem.now ≡ J.run.problem }
    requires nodes { J.run.nodes ≡ 2 }
{
    let mut books: Vec<Book<J>> = Vec::new(alloc);
    if let Some(acts) = row.root {
        books.push(registry(rt, alloc, problem, acts)?).ok()?;
    }
    for (incarnation, acts) in row.incarnations {
        books
            .push(node_in(rt, alloc, problem, *incarnation, acts)?)
            .ok()?;
    }
    if !distinct_sites(&books) {
        return None;
    }
    Some(audited(rt, alloc, &books))
}

#[test]
fn refused_memory_in_an_audit(rt: HostRuntime) -> Result<(), Fail> {
    let alloc = rt.alloc();
    let read = read_problem(alloc, ITEM.as_bytes())?;
    for row in &ROWS {
        assert_eq!(rt;
            finds::<Brand, _>(&rt, alloc, &read.problem, row),
            Some(row.found)
        );
    }
    Ok(())
}
