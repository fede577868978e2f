//! A cell at which memory is refused: seat and event come back, nothing is entered, and the event then comes to what
//! the row says.
//!
//! No memory is refused here: `trials/try_memory.py` does it from outside, and sees by marks where an event begins and
//! ends.

ghost use Rattle.std.specs.Prelude.{◌≡◌, ◌≤◌, IfSome};
ghost use Rattle.node_core.specs.Results.{IsRight};
ghost use Rattle.node_core.specs.Refusal.{IsFit};
ghost use Rattle.run_book.specs.Sites.{opening_of, IsRun, MayBeginIn};

use super::cells::book_of;
use brancher::{Finding, Searcher};
use cover_problem::{Numbers, Problem, is_prefix};
use dlx_reader::read_problem;
use growth_marks::{begin, end};
use node_core::{ActFault, Core, Event, NodeCore, Reply};
use packet_wire::{Body, Packet, is_well_formed};
use run_book::{
    BookFault, CellName, CellParts, Receipt, Run, Seat, SiteCell, cores_step_as_their_sites,
};
use spawn_frame::{ChildName, Job, Site, Unit};
use std::alloc::Global;
use std::marker::{Brand, PhantomData};
use std::process::Abort;
use std::sync::Wait;
use std::test::*;

/// Seven items and six options.
const LETTERS: &str = "a b c d e f g\nc e\na d g\nb c f\na d f\nb g\nd e g\n";

/// The number of an event.
const ACT: usize = 108;

/// The registry, the node whose cell it is, and another one.
const REGISTRY: Site = Site {
    node: 0,
    incarnation: 1,
};

const HERE: Site = Site {
    node: 1,
    incarnation: 1,
};

const OTHER: Site = Site {
    node: 2,
    incarnation: 1,
};

/// What happens at the node.
#[derive(Clone, Copy)]
enum Act {
    Greet,
    Ask,
    Take,
    Again,
    /// It is given the root.
    Give,
    /// Another node asks for work.
    Steal,
    /// The root is searched with one visit, which is too little.
    PostRoot,
    /// The root's second child is searched, and has a cover.
    PostChild,
    /// The root's first child is redone.
    Redo,
    /// The root's frame is finished.
    Finish,
    /// The search is over.
    Over,
}

/// What is done, how long the prefix is that is taken up, none where nothing is, and how many packets are put out.
type Row = (Act, Option<usize>, usize);

static ROWS: [Row; 16] = [
    (Act::Greet, None, 1),
    (Act::Ask, None, 1),
    (Act::Give, None, 0),
    (Act::Take, Some(0), 0),
    (Act::Steal, None, 1),
    (Act::Again, None, 0),
    (Act::PostRoot, None, 0),
    // (of two children one is given away, redone, and aborted with the frame)
    (Act::Steal, None, 1),
    (Act::Redo, None, 0),
    (Act::Take, Some(1), 0),
    (Act::PostChild, None, 0),
    (Act::Finish, None, 1),
    (Act::Again, None, 1),
    (Act::Give, None, 0),
    (Act::Greet, None, 1),
    (Act::Over, None, 0),
];

/// The packet that arrives.
fn packet_of(alloc: Global, act: Act) -> Packet {
    let (from, body) = match act {
        Act::Steal => (OTHER, Body::Steal),
        Act::Over => (REGISTRY, Body::Over),
        _ => (
            REGISTRY,
            Body::Give {
                serial: 0,
                attempt: 1,
                prefix: Numbers::from_vec(Vec::new(alloc)),
            },
        ),
    };
    Packet {
        from,
        to: HERE,
        body,
    }
}

/// The root as the node's guest.
const ROOT: Unit = Unit::Guest(
    ChildName {
        site: REGISTRY,
        serial: 0,
    },
    1,
);

/// What searches for the posts.
#[derive(Drop)]
struct Finder<'a, J: Run> {
    searcher: Searcher<'a>,
    run: PhantomData<J>,
    ghost same: { searcher.problem ≡ J.run.problem },
}

impl<J: Run> Finder<'_, J> {
    /// What a search of these options with so much fuel comes to; none if memory runs out.
    fn found(&mut self, alloc: Global, options: &[u16], fuel: u64) -> Option<Finding>
        requires { 1 ≤ fuel }
        ensures { IfSome result (λ finding. IsRight J.run.problem finding) }
    {
        let mut prefix = Vec::new(alloc);
        prefix.extend_from_slice(options).ok()?;
        if !is_prefix(self.searcher.problem(), &prefix) {
            return None;
        }
        self.searcher.find(prefix, fuel).ok()
    }

    /// The event that posts the search of a unit, so found.
    fn post(&mut self, alloc: Global, act: Act) -> Option<Event>
        ensures { IfSome result (λ event. IsFit J.run.problem event) }
    {
        let (unit, finding) = match act {
            Act::PostRoot => (ROOT, self.found(alloc, &[], 1)?),
            _ => (Unit::Own(1), self.found(alloc, &[3], 100)?),
        };
        Some(Event::Post(Job { unit, attempt: 1 }, finding))
    }
}

/// What happens between marks. Where memory is refused, seat and event come back, and the event happens then.
fn happens<J: Run, C: Core + Drop, N: CellName, R: Abort + Wait>(
    rt: &R,
    alloc: Global,
    cell: &SiteCell<J, C, N>,
    seat: Seat<N>,
    event: Event,
) -> Option<(Seat<N>, Receipt<N>)>
    requires { IsFit J.run.problem event }
{
    begin(alloc, ACT).expect(rt, "memory");
    let done = cell.act(rt, seat, event);
    end(alloc, done.is_err()).expect(rt, "memory");
    match done {
        Ok(done) => Some(done),
        Err((seat, event, BookFault::Memory | BookFault::Core(ActFault::Memory))) => {
            cell.act(rt, seat, event).ok()
        }
        Err(_) => None,
    }
}

/// The same of what the row does.
fn does<J: Run, C: Core + Drop, N: CellName, R: Abort + Wait>(
    rt: &R,
    alloc: Global,
    cell: &SiteCell<J, C, N>,
    seat: Seat<N>,
    act: Act,
    finder: &mut Finder<'_, J>,
) -> Option<(Seat<N>, Receipt<N>)> {
    match act {
        Act::Greet => happens(rt, alloc, cell, seat, Event::Greet),
        Act::Ask => happens(rt, alloc, cell, seat, Event::Ask(0)),
        Act::Take => happens(rt, alloc, cell, seat, Event::Take),
        Act::Again => happens(rt, alloc, cell, seat, Event::Again),
        Act::Redo => happens(rt, alloc, cell, seat, Event::Redo(0)),
        Act::Finish => happens(rt, alloc, cell, seat, Event::Finish(ROOT)),
        Act::PostRoot | Act::PostChild => {
            let event = finder.post(alloc, act)?;
            happens(rt, alloc, cell, seat, event)
        }
        Act::Give | Act::Steal | Act::Over => {
            let packet = packet_of(alloc, act);
            assert!(rt; is_well_formed(&packet));
            happens(rt, alloc, cell, seat, Event::Deliver(packet))
        }
    }
}

/// Whether the receipt is of this place in the book, and has what the row says.
fn is_told<N: CellName>(receipt: &Receipt<N>, place: u64, (_, taken, packets): &Row) -> bool {
    let told = match &receipt.reply {
        Reply::Taken(_, prefix) => Some(prefix.as_slice().len()),
        _ => None,
    };
    receipt.place == place && told == *taken && receipt.packets.len() == *packets
}

/// Plays the rows with a seat at the cell; the seat, and whether all is as they say.
fn play_rows<J: Run, C: Core + Drop, N: CellName, R: Abort + Wait>(
    rt: &R,
    alloc: Global,
    cell: &SiteCell<J, C, N>,
    receipts: &mut Vec<Receipt<N>>,
    finder: &mut Finder<'_, J>,
) -> Option<(Seat<N>, bool)> {
    let mut seat = cell.seat(rt).ok()?;
    let mut right = true;
    for row in &ROWS {
        receipts.reserve(1).ok()?;
        let (kept, receipt) = does(rt, alloc, cell, seat, row.0, finder)?;
        seat = kept;
        right = right && is_told(&receipt, receipts.len() as u64, row);
        receipts.push_reserved(receipt);
    }
    Some((seat, right))
}

/// Plays the rows at the node's cell; whether all is as they say, and its book then has so many entries.
fn play<J: Run, N: CellName, R: Abort + Wait>(
    rt: &R,
    alloc: Global,
    cell_parts: CellParts,
    core: NodeCore,
    problem: &Problem,
) -> Option<bool>
    requires problem { problem.now ≡ J.run.problem }
    requires here { cell_parts ≡ record { table = N.table; name = N.name } }
    requires parts { N.parts ≡ 18446744073709551615 }
    requires run { IsRun J.run }
    requires begins { MayBeginIn J.run N.site N.limit }
    requires node { 1 ≤ N.site.node }
    requires core { core ≡ record { problem = J.run.problem; view = opening_of J.run N.site N.limit } }
{
    cores_step_as_their_sites();
    let cell: SiteCell<J, NodeCore, N> = SiteCell::new(cell_parts, core, 100);
    let mut finder = Finder {
        searcher: Searcher::new(alloc, problem).ok()?,
        run: PhantomData,
    };
    let mut receipts = Vec::new(alloc);
    let (seat, right) = play_rows(rt, alloc, &cell, &mut receipts, &mut finder)?;
    let book = book_of(alloc, cell, seat, receipts)?;
    Some(right && book.entries().len() == ROWS.len())
}

/// Plays the rows at a cell of the node in a run of this problem.
fn play_in<R: Abort + Wait>(
    rt: &R,
    alloc: Global,
    problem: &Problem,
) -> Result<Option<bool>, Fail> {
    problem.recall_rules();
    let cell_parts = CellParts::new(alloc)?;
    let core = NodeCore::start(alloc, problem, HERE, 2, 1000)?;
    let right = play::<Brand, Brand, _>(rt, alloc, cell_parts, core, problem);
    Ok(right)
}

#[test]
fn refused_memory_at_a_cell(rt: HostRuntime) -> Result<(), Fail> {
    let read = read_problem(rt.alloc(), LETTERS.as_bytes())?;
    let right = play_in(&rt, rt.alloc(), &read.problem)?;
    assert_eq!(rt; right, Some(true));
    Ok(())
}
