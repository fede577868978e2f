//! The rule that ties receipts to a log. Its queue carries what holders know, and never has an item. No value of these
//! types is made.

use crossbeam_queue::protocol::{Join, Lesson, Protocol, Split};
use crossbeam_queue::{Pass, RuledArrayQueue};
use std::marker::{Brand, Model, PhantomData};

/// What a holder knows.
pub struct Knows {
    marker: PhantomData<()>,
}

impl Model for Knows {
    ghost use Rattle.run_book.specs.Tickets.{Knows as KnowsValue};
    ghost use Rattle.run_book.specs.Tickets.Knows.{Nothing};

    ghost Value = { KnowsValue };

    ghost view = { λ _. Nothing };
}

/// One keeper knows the log, and each receipt has a place in it.
pub struct Tickets;

impl Protocol<u8, Knows> for Tickets {
    ghost use Rattle.run_book.specs.Tickets.{keeper_of_none, AreTickets};

    ghost holds = { AreTickets };

    ghost first = { keeper_of_none };
}

/// Names the entry that is entered. Each call picks it.
pub trait Entered {
    ghost use Rattle.run_book.specs.Entries.{Entry};

    ghost entry: { Entry };
}

impl Entered for Brand {
    ghost use Rattle.run_book.specs.Tickets.{no_entry};

    ghost entry = { no_entry };
}

/// The keeper enters an entry, and the new holder has its receipt.
pub struct Enter<E>(PhantomData<E>);

impl<E: Entered> Split<Knows> for Enter<E> {
    ghost use Rattle.run_book.specs.Tickets.{entered, receipt_of};

    ghost left = { λ known. entered known E.entry };

    ghost right = { λ known. receipt_of known E.entry };
}

/// The keeper takes a receipt back.
pub struct TakeBack;

impl Join<Knows> for TakeBack {
    ghost use Rattle.run_book.specs.Tickets.{with_back, spent};

    ghost both = { with_back };

    ghost spent = { spent };
}

/// The keeper looks whether the receipts that are back have different places.
pub struct Looks;

impl Lesson<u8, Knows> for Looks {
    ghost use Rattle.run_book.specs.Tickets.{KeepsApart};

    ghost fact = { KeepsApart };
}

/// What carries the holders.
pub type Carrier = RuledArrayQueue<u8, Knows, Tickets>;

/// A holder.
pub type Token = Pass<u8, Knows>;
