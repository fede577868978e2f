//! A ledger that has many units, and its calls over and over.

use crate::cores::cycle::NODE;
use crate::cores::fault::BenchFault;
use cover_problem::Numbers;
use spawn_frame::{ChildName, ChildResult, Gift, Heard, Job, MOST_SIBLINGS, Out, Site, Unit};
use std::alloc::{AllocError, Global};
use steal_return::{Given, Ledger};

/// The node that gives children to this one, and takes children of it.
const OTHER: Site = Site {
    node: 2,
    incarnation: 1,
};

/// How many children a ledger may name.
const NAMES_LIMIT: u32 = 4_000_000;

/// How often a call is timed, where it is not timed for all units.
pub const CALLS: u32 = 20;

/// How many children the other node gets in so many gives.
pub const REDONE: u32 = CALLS * MOST_SIBLINGS as u32;

/// How many children a frame has that is finished or aborted.
const FRAME: usize = 10;

/// A call of a ledger.
#[derive(Clone, Copy)]
pub enum Call {
    /// A unit is taken up, and ends with nothing found.
    EndNext,
    /// A unit is taken up.
    Take,
    /// A unit that was taken up ends with nothing found.
    SetResult,
    /// Children are given away, as many at once as may be.
    Give,
    /// A child that is out becomes ready again.
    Redo,
    /// A unit that was taken up is split.
    Spawn,
    /// A frame of which a child has a cover is finished: the other children are aborted.
    Finish,
    /// A guest that is split is refused: its children are aborted.
    ReceiveRefuse,
    /// Members come that tell nothing new.
    LearnMembers,
    /// The other node gives a child.
    ReceiveGive,
    /// The other node accepts that a child of its is empty.
    ReceiveAccept,
}

/// A ledger, and the jobs that were taken up of it.
#[derive(Drop)]
pub struct ManyUnits {
    ledger: Ledger,
    jobs: Vec<Job>,
    options: Vec<u16>,
    outs: Vec<Out>,
    alloc: Global,
}

impl ManyUnits {
    /// A ledger of a node that begins.
    pub fn new(alloc: Global) -> Result<ManyUnits, AllocError> {
        Ok(ManyUnits {
            ledger: Ledger::start(alloc, NODE, 2, NAMES_LIMIT)?,
            jobs: Vec::new(alloc),
            options: vec![in alloc; 0u16; FRAME]?,
            outs: Vec::new(alloc),
            alloc,
        })
    }

    /// The ledger of a node with one guest, which is split into so many children.
    pub fn of_children(alloc: Global, children: u32) -> Result<ManyUnits, BenchFault> {
        let mut units = ManyUnits::new(alloc)?;
        units.split_first(children)?;
        Ok(units)
    }

    /// The other node gives a child, which is split into so many children.
    fn split_first(&mut self, children: u32) -> Result<(), BenchFault> {
        self.receive_give(0)?;
        self.take()?;
        let options = vec![in self.alloc; 0u16; children as usize]?;
        let job = self.job()?;
        split(&mut self.ledger, job.unit, &options)
    }

    /// Makes ready what this call asks for, where no call before it does.
    pub fn prepare(&mut self, call: Call) -> Result<(), BenchFault> {
        match call {
            Call::Spawn => self.take_each(CALLS),
            Call::Finish => self.cover_next(),
            Call::ReceiveRefuse => self.split_guests(),
            _ => Ok(()),
        }
    }

    /// Calls this so often.
    pub fn call(&mut self, call: Call, calls: u32) -> Result<(), BenchFault> {
        match call {
            Call::Take => self.take_each(calls),
            Call::Spawn => self.split_jobs(),
            _ => self.call_each(call, calls),
        }
    }

    /// Calls this so often, each time for the next serial number or job.
    fn call_each(&mut self, call: Call, calls: u32) -> Result<(), BenchFault> {
        for serial in 0..calls {
            self.call_one(call, serial)?;
        }
        Ok(())
    }

    /// Calls this once, for this serial number or the job that was taken up last.
    fn call_one(&mut self, call: Call, serial: u32) -> Result<(), BenchFault> {
        match call {
            Call::EndNext => self.end_next(ChildResult::Empty),
            Call::SetResult => self.end_job(),
            Call::Give => self.give(),
            Call::Redo => self.redo(serial),
            Call::Finish => self.finish(),
            Call::ReceiveRefuse => self.receive_refuse(serial),
            Call::LearnMembers => self.learn_members(),
            Call::ReceiveGive => self.receive_give(serial),
            Call::ReceiveAccept => Ok(self.receive_accept(serial)),
            Call::Take | Call::Spawn => Ok(()),
        }
    }

    /// Takes up so many units.
    fn take_each(&mut self, count: u32) -> Result<(), BenchFault> {
        for _ in 0..count {
            self.take()?;
        }
        Ok(())
    }

    /// Takes up a unit.
    fn take(&mut self) -> Result<(), BenchFault> {
        let Some(job) = self.ledger.take() else {
            return Err(BenchFault::Unexpected);
        };
        self.jobs.push(job)?;
        Ok(())
    }

    /// The job that was taken up last.
    fn job(&mut self) -> Result<Job, BenchFault> {
        match self.jobs.pop() {
            Some(job) => Ok(job),
            None => Err(BenchFault::Unexpected),
        }
    }

    /// Takes up a unit, and ends it.
    fn end_next(&mut self, child_result: ChildResult) -> Result<(), BenchFault> {
        let Some(job) = self.ledger.take() else {
            return Err(BenchFault::Unexpected);
        };
        end(&mut self.ledger, job.unit, child_result)
    }

    /// Ends the job that was taken up last with nothing found.
    fn end_job(&mut self) -> Result<(), BenchFault> {
        let job = self.job()?;
        end(&mut self.ledger, job.unit, ChildResult::Empty)
    }

    /// The other node asks for work and gets some.
    fn give(&mut self) -> Result<(), BenchFault> {
        match self.ledger.give(OTHER)? {
            Some(_) => Ok(()),
            None => Err(BenchFault::Unexpected),
        }
    }

    /// Makes a child that is out ready again.
    fn redo(&mut self, serial: u32) -> Result<(), BenchFault> {
        match self.ledger.redo(serial) {
            Ok(()) => Ok(()),
            Err(_) => Err(BenchFault::Unexpected),
        }
    }

    /// Splits all jobs, which stay.
    fn split_jobs(&mut self) -> Result<(), BenchFault> {
        for job in &self.jobs {
            split(&mut self.ledger, job.unit, &self.options)?;
        }
        Ok(())
    }

    /// The unit that is taken up next, a child of the frame that was made last, has a cover.
    fn cover_next(&mut self) -> Result<(), BenchFault> {
        let cover = ChildResult::Cover(Numbers::from_vec(Vec::new(self.alloc)));
        self.end_next(cover)
    }

    /// Finishes the frame that was made last.
    fn finish(&mut self) -> Result<(), BenchFault> {
        let job = self.job()?;
        finish(&mut self.ledger, job.unit, &mut self.outs)
    }

    /// The other node gives children that are split here, as many as are refused later.
    fn split_guests(&mut self) -> Result<(), BenchFault> {
        for serial in FIRST_REFUSED..FIRST_REFUSED + CALLS {
            self.receive_give(serial)?;
            split_guest(&mut self.ledger, serial, &self.options)?;
        }
        Ok(())
    }

    /// The other node refuses a child that it gave.
    fn receive_refuse(&mut self, place: u32) -> Result<(), BenchFault> {
        let serial = place.saturating_add(FIRST_REFUSED);
        self.ledger
            .receive_refuse(OTHER, serial, 1, &mut self.outs)?;
        Ok(())
    }

    /// Members come that tell nothing new.
    fn learn_members(&mut self) -> Result<(), BenchFault> {
        match self.ledger.learn_members(&[1, 1], &mut self.outs) {
            Ok(_) => Ok(()),
            Err(_) => Err(BenchFault::Memory),
        }
    }

    /// The other node gives a child by itself.
    fn receive_give(&mut self, serial: u32) -> Result<(), BenchFault> {
        let gift = Gift {
            serial,
            attempt: 1,
            prefix: Numbers::from_vec(Vec::new(self.alloc)),
        };
        self.ledger.receive_give(OTHER, Given::One(gift))?;
        Ok(())
    }

    /// The other node accepts that this child of its is empty.
    fn receive_accept(&mut self, serial: u32) {
        self.ledger
            .receive_accept(OTHER, serial, 1, ChildResult::Empty);
    }
}

/// The serial number of the first guest that is refused: the one before it is the frame of all children.
const FIRST_REFUSED: u32 = 1;

/// Gives a unit its result, if it may have one.
fn end(ledger: &mut Ledger, unit: Unit, child_result: ChildResult) -> Result<(), BenchFault> {
    let table = ledger.table();
    if !table.status(unit).is_some_and(|status| status.may_end()) {
        return Err(BenchFault::Unexpected);
    }
    ledger.set_result(unit, child_result);
    Ok(())
}

/// Splits a unit that is here.
fn split(ledger: &mut Ledger, unit: Unit, options: &[u16]) -> Result<(), BenchFault> {
    let table = ledger.table();
    if !table.status(unit).is_some_and(|status| status.is_here()) {
        return Err(BenchFault::Unexpected);
    }
    if options.is_empty() {
        return Err(BenchFault::Unexpected);
    }
    match ledger.spawn(unit, options) {
        Ok(_) => Ok(()),
        Err(_) => Err(BenchFault::Memory),
    }
}

/// Takes up a ready child of the other node, and splits it.
fn split_guest(ledger: &mut Ledger, serial: u32, options: &[u16]) -> Result<(), BenchFault> {
    let name = ChildName {
        site: OTHER,
        serial,
    };
    let unit = Unit::Guest(name, 1);
    let table = ledger.table();
    if !table.status(unit).is_some_and(|status| status.is_ready()) {
        return Err(BenchFault::Unexpected);
    }
    ledger.take_up(unit);
    split(ledger, unit, options)
}

/// Finishes a frame that is settled.
fn finish(ledger: &mut Ledger, unit: Unit, outs: &mut Vec<Out>) -> Result<(), BenchFault> {
    let table = ledger.table();
    if !table.status(unit).is_some_and(|status| status.is_split()) {
        return Err(BenchFault::Unexpected);
    }
    if table.heard(unit) == Heard::Open {
        return Err(BenchFault::Unexpected);
    }
    ledger.finish(unit, outs)?;
    Ok(())
}
