//! The receipts of a thread for the events that it brought to its site's core.
//!
//! A cell counts the seats that it gave and the events of each, and closes only with all seats and as many receipts: so
//! no event is missing in the books of a run that has ended.

ghost use Rattle.std.specs.Prelude.{◌≡◌, ◌+◌, vec_len, IfErr, IfOk};
ghost use Rattle.node_core.specs.Refusal.{IsFit};
ghost use Rattle.run_book.specs.RecordedCores.{IsLawful};

use node_core::{Core, Event};
use run_book::{BookFault, CellName, ReceiptToken, Run, Seat, SiteCell, Step};
use std::alloc::{AllocError, Global};
use std::sync::Wait;

/// A thread's seat at a cell, with the tokens of the receipts that it got there: as many as the seat counts.
#[derive(Drop)]
pub struct SeatReceipts<N: CellName> {
    seat: Seat<N>,
    tokens: Vec<ReceiptToken<N>>,
    /// How many entries the cell's book had after its last event.
    entries: u64,
    /// How many bytes its last entry takes.
    last_bytes: u64,
    ghost counted: { seat ≡ vec_len tokens },
}

/// Why an event was not entered.
#[derive(Clone, Copy, Debug, PartialEq, Eq)]
pub enum Refused {
    /// There is no memory for one receipt more.
    NoRoom,
    /// The books of the run are as large as they may be.
    BooksFull,
    /// The cell has refused it.
    Cell(BookFault),
}

impl<N: CellName> SeatReceipts<N> {
    /// A new seat at the cell, without receipts. The only error is that no seats are left.
    pub fn new<J: Run, C: Core + Drop, R: Wait>(
        rt: &R,
        alloc: Global,
        cell: &SiteCell<J, C, N>,
    ) -> Result<SeatReceipts<N>, AllocError> {
        let seat = cell.seat(rt)?;
        Ok(SeatReceipts {
            seat,
            tokens: Vec::new(alloc),
            entries: 0,
            last_bytes: 0,
        })
    }

    /// Hands an event to the cell, and returns what was entered. Room for the token is reserved before, so that no
    /// receipt is lost.
    ///
    /// # Errors
    ///
    /// An event that is refused comes back with the reason.
    pub fn act<J: Run, C: Core + Drop, R: Wait>(
        &mut self,
        rt: &R,
        cell: &SiteCell<J, C, N>,
        event: Event,
    ) -> Result<Step, (Event, Refused)>
        requires { IsFit J.run.problem event }
        ensures entry { IfOk result (λ entry. entry.event ≡ event) }
        ensures lawful { IfOk result (λ entry. IsLawful J.run.problem entry) }
        ensures back { IfErr result (λ back. back.0 ≡ event) }
    {
        if self.tokens.reserve(1).is_err() {
            return Err((event, Refused::NoRoom));
        }
        match cell.act_at(rt, &mut self.seat, event) {
            Ok(receipt) => {
                // (the receipt knows its place, so nobody takes the lock to ask how long the book is)
                self.entries = receipt.place.saturating_add(1);
                self.last_bytes = receipt.bytes;
                let (receipt_token, step) = receipt.into_parts();
                self.tokens.push_reserved(receipt_token);
                Ok(step)
            }
            Err((event, fault)) => Err((event, Refused::Cell(fault))),
        }
    }

    /// How many entries the cell's book had after the last event of this seat.
    pub fn entries(&self) -> u64 {
        self.entries
    }

    /// How many bytes the last entry of this seat takes in the cell's book.
    pub fn last_bytes(&self) -> u64 {
        self.last_bytes
    }

    /// How many receipts it has.
    pub fn count(&self) -> usize
        ensures { result ≡ self.now.seat }
    {
        self.tokens.len()
    }

    /// Its seat, and the tokens of its receipts.
    pub fn into_parts(self) -> (Seat<N>, Vec<ReceiptToken<N>>)
        ensures seat { result.0 ≡ self.seat }
        ensures tokens { result.0 ≡ vec_len result.1 }
    {
        let SeatReceipts { seat, tokens, .. } = self;
        (seat, tokens)
    }
}
