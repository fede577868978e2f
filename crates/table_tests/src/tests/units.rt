//! Names, results and statuses of units, for the tests of tables, aborts and ledgers.

ghost use Rattle.std.specs.Prelude.{◌≡◌};
ghost use Rattle.spawn_frame.specs.Aborts.{is_open};
ghost use Rattle.spawn_frame.specs.Picks.{is_finished, is_ready, is_split};
ghost use Rattle.spawn_frame.specs.Tables.{has_status, is_here, may_end};
ghost use Rattle.spawn_frame.specs.Units.{unit_of};

use cover_problem::Numbers;
use spawn_frame::{ChildName, ChildResult, Site, Status, Table, Unit};
use std::alloc::{AllocError, Global};
use std::process::Abort;

/// The site whose tables these are.
pub const HERE: Site = Site {
    node: 1,
    incarnation: 1,
};

/// Another site.
pub const THIEF: Site = Site {
    node: 2,
    incarnation: 1,
};

/// The registry's site.
pub const REGISTRY: Site = Site {
    node: 0,
    incarnation: 1,
};

/// The root's name.
pub const ROOT: ChildName = ChildName {
    site: REGISTRY,
    serial: 0,
};

/// A cover of one option, or Empty.
pub type Came = Option<u16>;

/// The result.
pub fn result_of<R: Abort>(rt: &R, alloc: Global, option: Came) -> ChildResult {
    match option {
        Some(option) => cover(alloc, option).expect(rt, "memory"),
        None => ChildResult::Empty,
    }
}

/// A list of these options.
pub fn list<R: Abort>(rt: &R, alloc: Global, options: &[u16]) -> Numbers {
    Numbers::from_vec(Vec::from_slice(alloc, options).expect(rt, "memory"))
}

/// Whether it is this result.
pub fn is_result(child_result: &ChildResult, came: Came) -> bool {
    match (child_result, came) {
        (ChildResult::Empty, None) => true,
        (ChildResult::Cover(options), Some(option)) => options.as_slice() == [option].as_slice(),
        _ => false,
    }
}

/// An incarnation of a node.
pub fn site(node: u8, incarnation: u32) -> Site {
    Site { node, incarnation }
}

/// A cover of one option.
pub fn cover(alloc: Global, option: u16) -> Result<ChildResult, AllocError> {
    let options = vec![in alloc; option]?;
    Ok(ChildResult::Cover(Numbers::from_vec(options)))
}

/// Whether a unit has come to this.
pub fn has_come(table: &Table, unit: Unit, came: Came) -> bool {
    match table.status(unit) {
        Some(Status::Done(result) | Status::Finished(result) | Status::Settled(result)) => {
            is_result(result, came)
        }
        _ => false,
    }
}

/// A letter for each status.
pub fn letter(status: &Status) -> char {
    match status {
        Status::Ready => 'R',
        Status::Here => 'H',
        Status::Split => 'S',
        Status::Out(_) => 'O',
        Status::Done(_) => 'D',
        Status::Aborted => 'A',
        Status::Finished(_) => 'F',
        Status::Settled(_) => 'T',
        Status::Dropped => 'X',
    }
}

/// Whether a unit waits for a worker.
pub fn is_ready(table: &Table, unit: Unit) -> bool
    ensures { result ≡ has_status is_ready (unit_of table.now unit) }
{
    match table.status(unit) {
        Some(status) => status.is_ready(),
        None => false,
    }
}

/// Whether a worker of this site has a unit.
pub fn is_here(table: &Table, unit: Unit) -> bool
    ensures { result ≡ has_status is_here (unit_of table.now unit) }
{
    match table.status(unit) {
        Some(status) => status.is_here(),
        None => false,
    }
}

/// Whether a unit is a frame.
pub fn is_split(table: &Table, unit: Unit) -> bool
    ensures { result ≡ has_status is_split (unit_of table.now unit) }
{
    match table.status(unit) {
        Some(status) => status.is_split(),
        None => false,
    }
}

/// Whether a unit is not finished for good.
pub fn is_open(table: &Table, unit: Unit) -> bool
    ensures { result ≡ has_status is_open (unit_of table.now unit) }
{
    match table.status(unit) {
        Some(status) => status.is_open(),
        None => false,
    }
}

/// Whether a guest has a result that its owner hasn't judged.
pub fn is_finished(table: &Table, unit: Unit) -> bool
    ensures { result ≡ has_status is_finished (unit_of table.now unit) }
{
    match table.status(unit) {
        Some(status) => status.is_finished(),
        None => false,
    }
}

/// Whether a unit's result may come: it is here, a frame, or out.
pub fn may_end(table: &Table, unit: Unit) -> bool
    ensures { result ≡ has_status may_end (unit_of table.now unit) }
{
    match table.status(unit) {
        Some(status) => status.may_end(),
        None => false,
    }
}
