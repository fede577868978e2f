//! The rule of an outbox's queue. No value of these types is made.

use crate::parcel::Parcel;
use crossbeam_queue::protocol::{Lesson, Outcome, Protocol};
use std::marker::{Model, PhantomData};

/// What a pass knows.
pub struct Known {
    marker: PhantomData<()>,
}

impl Model for Known {
    ghost use Rattle.run_book.specs.Outbox.{Known as KnownValue, newcomer};

    ghost Value = { KnownValue };

    ghost view = { λ _. newcomer };
}

/// Parcels leave in the order in which they came.
pub struct InOrder;

impl Protocol<Parcel, Known> for InOrder {
    ghost use Rattle.run_book.specs.Outbox.{newcomer, IsInOrder};

    ghost holds = { IsInOrder };

    ghost first = { newcomer };
}

/// A parcel is put at the back, or the queue is full.
pub struct Puts;

impl Outcome<Parcel, Known> for Puts {
    ghost use Rattle.run_book.specs.Outbox.{HasSeenPut};

    ghost then = { HasSeenPut };
}

impl Lesson<Parcel, Known> for Puts {
    ghost use Rattle.run_book.specs.Outbox.{Finds};

    ghost fact = { Finds };
}

/// The drain takes the parcel at the front, or the queue is empty.
pub struct Takes;

impl Outcome<Parcel, Known> for Takes {
    ghost use Rattle.run_book.specs.Outbox.{HasSeenTaken};

    ghost then = { HasSeenTaken };
}

impl Lesson<Parcel, Known> for Takes {
    ghost use Rattle.run_book.specs.Outbox.{FindsAsDrain};

    ghost fact = { FindsAsDrain };
}
