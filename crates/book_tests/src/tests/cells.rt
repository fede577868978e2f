//! Cells of a node, from their opening to their book.
//!
//! Of the bugs of `run_book` that are kept outside the gate, `seat_places_rise` finds `shared_entries_count_whole`.

ghost use Rattle.std.specs.Prelude.{◌≡◌, ◌≤◌, IfSome};
ghost use Rattle.node_core.specs.Refusal.{IsFit};
ghost use Rattle.run_book.specs.Sites.{opening_of, IsRun, MayBeginIn};

use cover_problem::Problem;
use dlx_reader::read_problem;
use node_core::{ActFault, Core, Event, NodeCore, Reply};
use packet_wire::Body;
use run_book::{
    Book, BookFault, CellName, CellParts, Entry, Missing, Receipt, ReceiptToken, Run, Seat,
    SiteCell, Step, cores_step_as_their_sites,
};
use spawn_frame::Site;
use std::alloc::{AllocError, Global};
use std::marker::Brand;
use std::sync::Wait;
use std::test::*;
use std::thread;
use std::thread::Threads;

/// Seven items and six options.
const LETTERS: &str = "a b c d e f g\nc e\na d g\nb c f\na d f\nb g\nd e g\n";

/// The node whose cells these are.
const HERE: Site = Site {
    node: 1,
    incarnation: 1,
};

/// What is done at a cell.
#[derive(Clone, Copy)]
enum Script {
    /// One seat: events that are refused, and two Greets; the cell closes once nothing is missing.
    Two,
    /// One seat, and a Greet more than fits.
    Full,
    /// One seat, and a Greet: the token of its receipt closes the cell.
    ReceiptToken,
    /// So many seats, each on a thread of its own, with 100 Greets each.
    Threads(u8),
}

/// A seat that has greeted, with its receipts.
#[derive(Drop)]
struct Greeted<N: CellName> {
    seat: Seat<N>,
    receipts: Vec<Receipt<N>>,
    rising: bool,
}

/// Greets so often: each place is above the one before.
fn greets<J: Run, C: Core + Drop, N: CellName, R: Wait>(
    rt: &R,
    alloc: Global,
    cell: &SiteCell<J, C, N>,
    seat: Seat<N>,
    times: u32,
) -> Option<Greeted<N>> {
    let mut seat = seat;
    let mut receipts: Vec<Receipt<N>> = Vec::new(alloc);
    let mut rising = true;
    for _ in 0..times {
        receipts.reserve(1).ok()?;
        let (kept, receipt) = cell.act(rt, seat, Event::Greet).ok()?;
        seat = kept;
        rising = rising
            && receipts
                .last()
                .is_none_or(|last| last.place < receipt.place);
        receipts.push_reserved(receipt);
    }
    Some(Greeted {
        seat,
        receipts,
        rising,
    })
}

/// Whether it is a Greet with its one Hello.
fn is_greet(step: &Step) -> bool {
    let [packet] = step.packets() else {
        return false;
    };
    *step.event() == Event::Greet
        && *step.reply() == Reply::Moved
        && packet.from == HERE
        && packet.to.node == 0
        && packet.body == Body::Hello
}

/// The seat, where the core refuses the event with this fault, and an event like it comes back.
fn is_refused<J: Run, C: Core + Drop, N: CellName, R: Wait>(
    rt: &R,
    cell: &SiteCell<J, C, N>,
    seat: Seat<N>,
    event: Event,
    like: &Event,
    fault: ActFault,
) -> Option<Seat<N>>
    requires { IsFit J.run.problem event }
{
    let (seat, back, told) = cell.act(rt, seat, event).err()?;
    (back == *like && told == BookFault::Core(fault)).then_some(seat)
}

/// The seat, where the core refuses to redo what was never out, and to ask the own node.
fn refusals<J: Run, C: Core + Drop, N: CellName, R: Wait>(
    rt: &R,
    cell: &SiteCell<J, C, N>,
    seat: Seat<N>,
) -> Option<Seat<N>> {
    let redo = Event::Redo(0);
    let seat = is_refused(rt, cell, seat, Event::Redo(0), &redo, ActFault::NotOut)?;
    let ask = Event::Ask(HERE.node);
    is_refused(
        rt,
        cell,
        seat,
        Event::Ask(HERE.node),
        &ask,
        ActFault::OtherSite,
    )
}

/// The book of a cell at which one seat has worked, with all its receipts.
pub fn book_of<J: Run, C: Core + Drop, N: CellName>(
    alloc: Global,
    cell: SiteCell<J, C, N>,
    seat: Seat<N>,
    receipts: Vec<Receipt<N>>,
) -> Option<Book<J>>
    ensures { IfSome result (λ book. book.site ≡ N.site) }
{
    let mut seats = Vec::new(alloc);
    seats.push(seat).ok()?;
    cell.close(seats, receipts).ok()
}

/// The cell and the receipts, where it doesn't close without its seat.
fn unclosed<J: Run, C: Core + Drop, N: CellName>(
    alloc: Global,
    cell: SiteCell<J, C, N>,
    receipts: Vec<Receipt<N>>,
) -> Option<(SiteCell<J, C, N>, Vec<Receipt<N>>)> {
    let open = cell.close(Vec::new(alloc), receipts).err()?;
    if open.cause == Missing::SeatsMissing(1) {
        Some((open.cell, open.receipts))
    } else {
        None
    }
}

/// The book, where the cell doesn't close without this receipt, and then does with it.
fn closed_at_last<J: Run, C: Core + Drop, N: CellName>(
    cell: SiteCell<J, C, N>,
    seats: Vec<Seat<N>>,
    receipts: Vec<Receipt<N>>,
    later: Receipt<N>,
) -> Option<Book<J>> {
    let mut open = cell.close(seats, receipts).err()?;
    if open.cause != Missing::ReceiptsMissing {
        return None;
    }
    open.receipts.push(later).ok()?;
    open.cell.close(open.seats, open.receipts).ok()
}

/// The book of a cell that closes once nothing is missing: first the seat and a receipt are, then the receipt.
fn late_book<J: Run, C: Core + Drop, N: CellName>(
    alloc: Global,
    cell: SiteCell<J, C, N>,
    seat: Seat<N>,
    receipts: Vec<Receipt<N>>,
    later: Receipt<N>,
) -> Option<Book<J>> {
    let (cell, receipts) = unclosed(alloc, cell, receipts)?;
    let mut seats = Vec::new(alloc);
    seats.push(seat).ok()?;
    closed_at_last(cell, seats, receipts, later)
}

/// A seat that has greeted twice, after events that are refused.
fn greeted_twice<J: Run, C: Core + Drop, N: CellName, R: Wait>(
    rt: &R,
    alloc: Global,
    cell: &SiteCell<J, C, N>,
) -> Option<Greeted<N>> {
    let seat = refusals(rt, cell, cell.seat(rt).ok()?)?;
    greets(rt, alloc, cell, seat, 2)
}

/// Whether these are the receipts of the book's first two entries.
fn are_first_two<N: CellName>(receipts: &[Receipt<N>]) -> bool {
    match receipts {
        [first, second] => first.place == 0 && second.place == 1,
        _ => false,
    }
}

/// Whether the second entry takes less than the first: it shares the step.
fn are_shared<N: CellName>(receipts: &[Receipt<N>]) -> bool {
    match receipts {
        [first, second] => 0 < second.bytes && second.bytes < first.bytes,
        _ => false,
    }
}

/// Whether these are two Greets of the node.
fn are_greets(entries: &[Entry]) -> bool {
    match entries {
        [one, other] => is_greet(one.step()) && is_greet(other.step()),
        _ => false,
    }
}

/// The script of two Greets.
fn two<J: Run, C: Core + Drop, N: CellName, R: Wait>(
    rt: &R,
    alloc: Global,
    cell: SiteCell<J, C, N>,
) -> Option<bool> {
    let Greeted {
        seat,
        mut receipts,
        rising,
    } = greeted_twice(rt, alloc, &cell)?;
    let are_first = are_first_two(&receipts) && are_shared(&receipts);
    let later = receipts.pop()?;
    let book = late_book(alloc, cell, seat, receipts, later)?;
    Some(rising && are_first && book.site() == HERE && are_greets(book.entries()))
}

/// The seat, where a Greet comes back since the book is full with one entry.
fn refused_greet<J: Run, C: Core + Drop, N: CellName, R: Wait>(
    rt: &R,
    cell: &SiteCell<J, C, N>,
    seat: Seat<N>,
) -> Option<Seat<N>> {
    let (seat, event, fault) = cell.act(rt, seat, Event::Greet).err()?;
    (event == Event::Greet && fault == BookFault::BookFull(1)).then_some(seat)
}

/// The script of a Greet too many.
fn full<J: Run, C: Core + Drop, N: CellName, R: Wait>(
    rt: &R,
    alloc: Global,
    cell: SiteCell<J, C, N>,
) -> Option<bool> {
    let Greeted {
        seat,
        receipts,
        rising: _,
    } = greets(rt, alloc, &cell, cell.seat(rt).ok()?, 1)?;
    let seat = refused_greet(rt, &cell, seat)?;
    let book = book_of(alloc, cell, seat, receipts)?;
    Some(book.entries().len() == 1)
}

/// The book of a cell at which one seat has acted once, by the token of its receipt.
fn settled<J: Run, C: Core + Drop, N: CellName>(
    alloc: Global,
    cell: SiteCell<J, C, N>,
    seat: Seat<N>,
    receipt_token: ReceiptToken<N>,
) -> Option<Book<J>> {
    let mut seats = Vec::new(alloc);
    seats.push(seat).ok()?;
    let mut tokens = Vec::new(alloc);
    tokens.push(receipt_token).ok()?;
    cell.settle(seats, tokens).ok()
}

/// Whether the one entry is a Greet of the node.
fn is_one_greet(entries: &[Entry]) -> bool {
    match entries {
        [kept] => is_greet(kept.step()),
        _ => false,
    }
}

/// The script of a Greet of which the token is kept.
fn receipt_token<J: Run, C: Core + Drop, N: CellName, R: Wait>(
    rt: &R,
    alloc: Global,
    cell: SiteCell<J, C, N>,
) -> Option<bool> {
    let (seat, receipt) = cell.act(rt, cell.seat(rt).ok()?, Event::Greet).ok()?;
    let (receipt_token, step) = receipt.into_parts();
    let book = settled(alloc, cell, seat, receipt_token)?;
    Some(is_one_greet(book.entries()) && is_greet(&step) && step.into_reply() == Reply::Moved)
}

/// So many seats of a cell.
fn seats_of<J: Run, C: Core + Drop, N: CellName, R: Wait>(
    rt: &R,
    alloc: Global,
    cell: &SiteCell<J, C, N>,
    count: u8,
) -> Option<Vec<Seat<N>>> {
    let mut seats = Vec::new(alloc);
    for _ in 0..count {
        seats.push(cell.seat(rt).ok()?).ok()?;
    }
    Some(seats)
}

/// Appends a seat that has greeted and its receipts; whether they rise.
fn collect<N: CellName>(
    greeted: Greeted<N>,
    seats: &mut Vec<Seat<N>>,
    receipts: &mut Vec<Receipt<N>>,
) -> Option<bool> {
    let Greeted {
        seat,
        receipts: mut some,
        rising,
    } = greeted;
    seats.push(seat).ok()?;
    receipts.append(&mut some).ok()?;
    Some(rising)
}

/// The same of all; none where one is missing.
fn collect_all<N: CellName>(
    all: Vec<Option<Greeted<N>>>,
    seats: &mut Vec<Seat<N>>,
    receipts: &mut Vec<Receipt<N>>,
) -> Option<bool> {
    let mut rising = true;
    for greeted in all {
        rising = collect(greeted?, seats, receipts)? && rising;
    }
    Some(rising)
}

/// The script of threads that greet at once.
fn threads<
    J: Run + Send + Sync,
    C: Core + Drop + Send,
    N: CellName + Send + Sync,
    R: Threads + Wait + Sync,
>(rt: &R, alloc: Global, cell: SiteCell<J, C, N>, count: u8) -> Option<bool> {
    let fresh = seats_of(rt, alloc, &cell, count)?;
    let all = thread::map_vec(rt, fresh, &|seat| greets(rt, alloc, &cell, seat, 100)).ok()?;
    let mut seats = Vec::new(alloc);
    let mut receipts = Vec::new(alloc);
    let rising = collect_all(all, &mut seats, &mut receipts)?;
    let book = cell.close(seats, receipts).ok()?;
    Some(rising && book.entries().len() == usize::from(count) * 100)
}

/// Plays a script at a cell of the node for so many entries; whether all is as it says.
fn play<J: Run + Send + Sync, N: CellName + Send + Sync, R: Threads + Wait + Sync>(
    rt: &R,
    alloc: Global,
    cell_parts: CellParts,
    core: NodeCore,
    limit: u64,
    script: Script,
) -> Option<bool>
    requires here { cell_parts ≡ record { table = N.table; name = N.name } }
    requires parts { N.parts ≡ 18446744073709551615 }
    requires run { IsRun J.run }
    requires begins { MayBeginIn J.run N.site N.limit }
    requires node { 1 ≤ N.site.node }
    requires core { core ≡ record { problem = J.run.problem; view = opening_of J.run N.site N.limit } }
{
    cores_step_as_their_sites();
    let cell: SiteCell<J, NodeCore, N> = SiteCell::new(cell_parts, core, limit);
    match script {
        Script::Two => two(rt, alloc, cell),
        Script::Full => full(rt, alloc, cell),
        Script::ReceiptToken => receipt_token(rt, alloc, cell),
        Script::Threads(count) => threads(rt, alloc, cell, count),
    }
}

/// Each script, with the number of entries that its cell takes.
static SCRIPTS: [(Script, u64); 5] = [
    (Script::Two, 3),
    (Script::Full, 1),
    (Script::ReceiptToken, 1),
    (Script::Threads(2), 200),
    (Script::Threads(8), 1000),
];

/// Plays a script at a cell of the node in a run of this problem.
fn play_in<R: Threads + Wait + Sync>(
    rt: &R,
    alloc: Global,
    problem: &Problem,
    script: Script,
    limit: u64,
) -> Result<Option<bool>, Fail> {
    problem.recall_rules();
    let cell_parts = CellParts::new(alloc)?;
    let core = NodeCore::start(alloc, problem, HERE, 1, 1000)?;
    let right = play::<Brand, Brand, _>(rt, alloc, cell_parts, core, limit, script);
    Ok(right)
}

#[test]
fn seat_places_rise(rt: HostRuntime) -> Result<(), Fail> {
    let read = read_problem(rt.alloc(), LETTERS.as_bytes())?;
    for (script, limit) in &SCRIPTS {
        let right = play_in(&rt, rt.alloc(), &read.problem, *script, *limit)?;
        assert_eq!(rt; right, Some(true));
    }
    Ok(())
}
