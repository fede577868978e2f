//! A monitor: a site's core and its book behind one mutex, so that each event is one step and one entry, in one order
//! for all threads.
//!
//! Little is done under the lock. The event's copies and the room for its answer are made before (`Prepared`), packets
//! become bytes after it, and what never changes is beside it. Who wants to act needs a seat of this cell, and gets a
//! receipt for each entry; the book comes out again only for all of them (`close`, `settle`). So no thread can act in
//! secret, and no entry can be lost.
//!
//! The proof knows of a value under a lock only what its type says. Hence the type parameters: `N` names the cell, `J`
//! the run.

ghost use Rattle.std.specs.Prelude.{◌≡◌, ℕ, ◌+◌, length, sum, vec_len, IfErr, IfOk, IfSome, OnErr, OnOk};
ghost use Rattle.node_core.specs.Refusal.{IsFit};
ghost use Rattle.run_book.specs.Closing.{IsMissing};
ghost use Rattle.run_book.specs.RecordedCores.{fault_told, IsLawful, Refuses};
ghost use Rattle.run_book.specs.Places.{AllStand, AreBelow, places};
ghost use Rattle.run_book.specs.Sites.{opening_of, IsRun, MayBeginIn, StepsAt};

use crate::book::Book;
use crate::cell_parts::CellParts;
use crate::fault::{BookFault, Missing};
use crate::names::{CellName, Run};
use crate::prepared::Prepared;
use crate::recorded_core;
use crate::recorded_core::RecordedCore;
use crate::register::{Receipt, ReceiptToken};
use crate::seats::Seat;
use node_core::{Core, Event};
use spawn_frame::Site;
use std::alloc::{AllocError, Global};
use std::sync::{Mutex, Wait};

/// The core of a site with its history, under one lock.
///
/// Whenever the lock is free, what it holds is a book of the site, with the core in the view to which the book leads.
/// `J` names the run, `N` this cell.
#[derive(Drop)]
pub struct SiteCell<J: Run, C: Core + Drop, N: CellName> {
    site: Site,
    alloc: Global,
    lock: Mutex<RecordedCore<J, C, N>>,
    ghost here: { site ≡ N.site },
}

/// All that was handed in to `close`, and what is missing.
#[derive(Drop)]
pub struct Unclosed<J: Run, C: Core + Drop, N: CellName> {
    /// The cell.
    pub cell: SiteCell<J, C, N>,
    /// The seats.
    pub seats: Vec<Seat<N>>,
    /// The receipts.
    pub receipts: Vec<Receipt<N>>,
    /// What is missing.
    pub cause: Missing,
}

impl<J: Run, C: Core + Drop, N: CellName> SiteCell<J, C, N> {
    /// The cell of a core that begins, for so many entries at most. The types have the names of its parts, of the
    /// core's run and of its site.
    pub fn new(cell_parts: CellParts, core: C, limit: u64) -> SiteCell<J, C, N>
        requires here { cell_parts ≡ record { table = N.table; name = N.name } }
        requires parts { N.parts ≡ 18446744073709551615 }
        requires run { IsRun J.run }
        requires begins { MayBeginIn J.run N.site N.limit }
        requires steps { StepsAt N.site.node C.step }
        requires problem { C.problem core ≡ J.run.problem }
        requires view { C.view core ≡ opening_of J.run N.site N.limit }
    {
        SiteCell {
            // (neither ever changes, so both are beside the lock, and nobody waits to read them)
            site: core.site(),
            alloc: core.allocator(),
            lock: Mutex::new(RecordedCore::new(cell_parts, core, limit)),
        }
    }

    /// The site. It stands beside the lock.
    pub fn site(&self) -> Site
        ensures { result ≡ N.site }
    {
        self.site
    }

    /// A seat, which counts nothing yet. The only error is that 18,446,744,073,709,551,615 were given out.
    pub fn seat<R: Wait>(&self, rt: &R) -> Result<Seat<N>, AllocError>
        ensures { IfOk result (λ seat. seat ≡ 0) }
    {
        self.lock.lock(rt).seat().ok_or(AllocError)
    }

    /// Hands an event to the core. It is entered with what the core did, and the receipt says the same.
    ///
    /// `BookFull` comes exactly where the book has as many entries as it may have. The core may refuse the event, at
    /// the view to which the book leads then: among its entries are those that the seat counts. It then enters nothing.
    /// Where memory ran out nothing has happened. With each fault the event comes back.
    pub fn act_at<R: Wait>(
        &self,
        rt: &R,
        seat: &mut Seat<N>,
        event: Event,
    ) -> Result<Receipt<N>, (Event, BookFault)>
        requires fit { IsFit J.run.problem event }
        ensures event { IfOk result (λ receipt. receipt.entry.event ≡ event) }
        ensures lawful { IfOk result (λ receipt. IsLawful J.run.problem receipt.entry) }
        ensures seat { OnOk result (seat.new ≡ seat.old + 1) }
        ensures unchanged { OnErr result (seat.new ≡ seat.old) }
        ensures back { IfErr result (λ back. back.0 ≡ event) }
        ensures refusal { IfErr result (λ back. IfSome (fault_told back.1)
            (Refuses J.run N.site N.limit C.refusal seat.old event)) }
    {
        // (copies are made before the lock is taken: no other thread waits for them)
        match Prepared::new(self.alloc, event) {
            Ok(prepared) => self.lock.lock(rt).act(seat, prepared),
            Err(event) => {
                // (only the book knows whether it is full, which is the fault even where memory ran out)
                let fault = self.lock.lock(rt).fault();
                Err((event, fault))
            }
        }
    }

    /// Hands an event to the core, as `act_at` does; the seat comes back in any case.
    ///
    /// Who uses a cell as a library hands the seat over, so that nobody uses it twice at once. The threads of `solve`
    /// keep theirs, and call `act_at`.
    pub fn act<R: Wait>(
        &self,
        rt: &R,
        mut seat: Seat<N>,
        event: Event,
    ) -> Result<(Seat<N>, Receipt<N>), (Seat<N>, Event, BookFault)>
        requires fit { IsFit J.run.problem event }
        ensures event { IfOk result (λ done. done.1.entry.event ≡ event) }
        ensures lawful { IfOk result (λ done. IsLawful J.run.problem done.1.entry) }
        ensures seat { IfOk result (λ done. done.0 ≡ seat + 1) }
        ensures back { IfErr result (λ back. (back.0 ≡ seat) × (back.1 ≡ event)) }
        ensures refusal { IfErr result (λ back. IfSome (fault_told back.2)
            (Refuses J.run N.site N.limit C.refusal seat event)) }
    {
        match self.act_at(rt, &mut seat, event) {
            Ok(receipt) => Ok((seat, receipt)),
            Err((event, fault)) => Err((seat, event, fault)),
        }
    }

    /// The book, once all seats and receipts are back: each receipt stands in it at its place, and no entry is without
    /// one.
    ///
    /// Seats are counted before receipts. What is handed in comes back where something is missing. It takes no memory.
    ///
    /// This is for who keeps receipts as a whole. The threads of `solve` keep their tokens alone, and a run calls
    /// `settle`.
    pub fn close(
        self,
        seats: Vec<Seat<N>>,
        receipts: Vec<Receipt<N>>,
    ) -> Result<Book<J>, Unclosed<J, C, N>>
        ensures site { IfOk result (λ book. book.site ≡ N.site) }
        ensures stand { IfOk result (λ book. AllStand book.entries receipts.items) }
        ensures each { IfOk result (λ book.
            AreBelow (length book.entries) (places receipts.items)) }
        ensures counted { IfOk result (λ book. sum seats.items ≡ length book.entries) }
        ensures cause { IfErr result (λ back.
            (given : ℕ) × IsMissing back.cause seats.items (vec_len receipts) given) }
        ensures back { IfErr result (λ back.
            (back.seats.items ≡ seats.items) × (back.receipts.items ≡ receipts.items)) }
    {
        let SiteCell { site, alloc, lock } = self;
        match lock.into_inner().close(site, seats, receipts) {
            Ok(book) => Ok(book),
            Err(unclosed) => {
                let recorded_core::Unclosed {
                    recorded_core,
                    seats,
                    receipts,
                    cause,
                } = unclosed;
                Err(Unclosed {
                    cell: SiteCell {
                        site,
                        alloc,
                        lock: Mutex::new(recorded_core),
                    },
                    seats,
                    receipts,
                    cause,
                })
            }
        }
    }

    /// The book, once all seats are back, and the tokens of all receipts, as `close` gives it. Where something is
    /// missing, what is handed in is let go.
    pub fn settle(
        self,
        seats: Vec<Seat<N>>,
        tokens: Vec<ReceiptToken<N>>,
    ) -> Result<Book<J>, Missing>
        ensures site { IfOk result (λ book. book.site ≡ N.site) }
        ensures stand { IfOk result (λ book. AllStand book.entries tokens.items) }
        ensures each { IfOk result (λ book. AreBelow (length book.entries) (places tokens.items)) }
        ensures counted { IfOk result (λ book. sum seats.items ≡ length book.entries) }
        ensures cause { IfErr result (λ cause.
            (given : ℕ) × IsMissing cause seats.items (vec_len tokens) given) }
    {
        let SiteCell {
            site,
            alloc: _,
            lock,
        } = self;
        lock.into_inner().settle(site, seats, tokens)
    }
}
