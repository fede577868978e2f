//! One line of a book is a shared pointer to a step, so equal steps can be stored once (`Repeated`; hash consing
//! without the hash). Then a line takes eight bytes.

ghost use Rattle.std.specs.Prelude.{◌≡◌, IfOk, IsTrue};
ghost use Rattle.std.specs.Arc.{arc_value};

use crate::step::Step;
use node_core::{Event, Reply};
use packet_wire::Packet;
use std::alloc::{AllocError, Global};
use std::marker::Model;
use std::sync::Arc;

/// An entry of a book: a step of its site. Equal entries may share their step, which doesn't change any more.
#[derive(Debug, Drop)]
pub struct Entry {
    step: Arc<Step, Global>,
}

impl Model for Entry {
    ghost use Rattle.run_book.specs.Entries.{Entry as EntryValue};

    ghost Value = { EntryValue };

    ghost view = { λ e. e.step.value };
}

impl Entry {
    /// The entry of a step.
    pub(crate) fn new(step: Arc<Step, Global>) -> Entry
        ensures { result ≡ arc_value step }
    {
        Entry { step }
    }

    /// The step.
    pub fn step(&self) -> &Step
        ensures { result.now ≡ self.now }
    {
        &self.step
    }

    /// The event.
    pub fn event(&self) -> &Event
        ensures { result.now ≡ self.now.event }
    {
        self.step().event()
    }

    /// What it came to.
    pub fn reply(&self) -> &Reply
        ensures { result.now ≡ self.now.reply }
    {
        self.step().reply()
    }

    /// The packets that were put out, in their order.
    pub fn packets(&self) -> &[Packet]
        ensures { result.now ≡ self.now.packets }
    {
        self.step().packets()
    }

    /// An entry that shares the step. The only error is that too many do.
    pub(crate) fn twin(&self) -> Result<Entry, AllocError>
        ensures { IfOk result (λ twin. twin ≡ self.now) }
    {
        let step = Arc::try_clone(&self.step)?;
        Ok(Entry { step })
    }
}
