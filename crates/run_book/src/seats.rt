//! Capabilities: a thread may act at a cell only with a seat, and each seat counts what it did. A ledger of `std` gives
//! out shares of a whole of 2^64 - 1, one for each seat. The cell closes when all shares are back together, so no
//! thread can still hold one.

ghost use Rattle.std.specs.Prelude.{◌≡◌, ◌+◌, ◌<◌, ◌≤◌, None, IfSome, sum, vec_len};

use crate::names::CellName;
use std::marker::Model;
use std::sync::ledger::{Blank, Book, Share};

/// A right to act at one cell, which counts its receipts. Contracts see it as their number.
#[derive(Drop)]
pub struct Seat<N: CellName> {
    share: Share<N>,
    count: u64,
}

impl<N: CellName> Model for Seat<N> {
    ghost use Rattle.std.specs.Prelude.{◌≡◌, ℕ};

    ghost Value = { ℕ };

    ghost view = { λ s. s.count };

    ghost invariant = { λ s. (s.share.parts ≡ 1) × (s.share.amount ≡ s.count) };
}

impl<N: CellName> Seat<N> {
    /// How many receipts it has.
    pub fn count(&self) -> u64
        ensures { result ≡ self.now }
    {
        self.count
    }
}

/// The seats that were given out, and how many receipts they have together.
#[derive(Drop)]
pub struct Seats<N: CellName> {
    book: Book<N>,
    rest: Share<N>,
    given: u64,
}

impl<N: CellName> Model for Seats<N> {
    ghost use Rattle.std.specs.Prelude.{◌≡◌, ◌+◌};
    ghost use Rattle.run_book.specs.Seats.{Seats as SeatsValue};

    ghost Value = { SeatsValue };

    ghost view = { λ s. record { given = s.given; total = s.book.total } };

    ghost invariant = { λ s. (N.parts ≡ 18446744073709551615) × (s.rest.parts + s.given
        ≡ 18446744073709551615) × (s.rest.amount ≡ 0) };
}

impl<N: CellName> Seats<N> {
    /// No seats yet.
    pub fn new(blank: Blank) -> Seats<N>
        requires name { blank.name ≡ N.name }
        requires parts { blank.parts ≡ N.parts }
        requires many { N.parts ≡ 18446744073709551615 }
        ensures { result ≡ record { given = 0; total = 0 } }
    {
        let (book, rest) = blank.open::<N>();
        Seats {
            book,
            rest,
            given: 0,
        }
    }

    /// How many seats were given out.
    pub fn given(&self) -> u64
        ensures { result ≡ self.now.given }
    {
        self.given
    }

    /// A seat that counts nothing yet; none once 18,446,744,073,709,551,615 were given out.
    pub fn seat(&mut self) -> Option<Seat<N>>
        ensures fresh { IfSome result (λ seat. seat ≡ 0) }
        ensures given { IfSome result (λ seat. self.new.given ≡ self.old.given + 1) }
        ensures none { result ≡ None → self.new ≡ self.old }
        ensures total { self.new.total ≡ self.old.total }
    {
        if self.given == u64::MAX {
            return None;
        }
        let share = self.rest.split_off(1, 0);
        self.given += 1;
        Some(Seat { share, count: 0 })
    }

    /// Does nothing. Its contract says that no seat counts more receipts than all seats together.
    pub fn bound(&mut self, seat: &mut Seat<N>)
        ensures bound { seat.old ≤ self.old.total }
        ensures seat { seat.new ≡ seat.old }
        ensures all { self.new ≡ self.old }
    {
        self.book.audit(&mut seat.share);
    }

    /// The seat counts one receipt more.
    pub fn count(&mut self, seat: &mut Seat<N>)
        requires room { self.old.total < 18446744073709551615 }
        ensures seat { seat.new ≡ seat.old + 1 }
        ensures total { self.new.total ≡ self.old.total + 1 }
        ensures given { self.new.given ≡ self.old.given }
    {
        // (for what it says: that no share counts more than all together)
        self.book.audit(&mut seat.share);
        self.book.add(&mut seat.share, 1);
        seat.count += 1;
    }

    /// All seats are back: they count all receipts.
    pub fn close(self, seats: Vec<Seat<N>>)
        requires { self.given ≤ vec_len seats }
        ensures { sum seats.items ≡ self.total }
    {
        let Seats {
            mut book,
            rest,
            given: _,
        } = self;
        let mut all = merged(rest, seats);
        // (a share of all parts has all that was ever counted: this is where the ledger says so)
        book.audit(&mut all);
    }
}

/// The shares of the seats, put to the rest.
fn merged<N: CellName>(mut rest: Share<N>, seats: Vec<Seat<N>>) -> Share<N>
    requires { rest.parts ≤ N.parts }
    ensures parts { result.parts ≡ rest.parts + vec_len seats }
    ensures bound { result.parts ≤ N.parts }
    ensures amount { result.amount ≡ rest.amount + sum seats.items }
{
    for seat in seats {
        let Seat { share, count: _ } = seat;
        rest.merge(share);
    }
    rest
}
