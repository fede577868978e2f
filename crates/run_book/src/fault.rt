//! What becomes of these: a full book ends its thread, with that as the cause. Where memory ran out the thread waits a
//! little and tries again.

use node_core::ActFault;

/// Why an event was not entered.
#[derive(Clone, Copy, Debug, PartialEq, Eq)]
pub enum BookFault {
    /// The book has as many entries as it may have: so many.
    BookFull(u64),
    /// The core refused the event.
    Core(ActFault),
    /// Memory ran out.
    Memory,
}

/// Why a cell didn't close.
#[derive(Clone, Copy, Debug, PartialEq, Eq)]
pub enum Missing {
    /// Fewer seats were handed in than were given out: so many were.
    SeatsMissing(u64),
    /// Fewer receipts were handed in than the seats count.
    ReceiptsMissing,
}
