//! Which own children are below some units.

ghost use Rattle.std.specs.Prelude.{◌≡◌, ◌+◌, ◌<◌, ◌≤◌, ◌++◌, [], length, slice_get, true, vec_capacity, vec_len, Bool, IfOk, OnOk};
ghost use Rattle.std.specs.Option.{option_to_list};
ghost use Rattle.spawn_frame.specs.Aborts.{AbortsBelow, is_open, reached};
ghost use Rattle.spawn_frame.specs.Tables.{has_status};
ghost use Rattle.spawn_frame.specs.Units.{table_own, change_at};
ghost use Rattle.spawn_frame.specs.declared.unit.Unit.{Unit as WorkUnit};
ghost use Rattle.abort_tree.specs.Below.{abort_if, aborted, is_among, out_of, outs_from, Adds, Completes, IsListed, MarksBelow};

use spawn_frame::{Out, Status, Table, Unit};
use std::alloc::{AllocError, Global};
use std::marker::Model;

// (found apart from the abort: so a caller takes all memory first, and aborts below several guests with one list)
/// The own children of a table that are below some units, by serial. It speaks of parents alone, so it holds also after
/// statuses and attempts have changed.
#[derive(Drop)]
pub struct Descendants {
    /// How many own children there were.
    issued: u32,
    /// The serials of those that are below, ascending.
    serials: Vec<u32>,
}

impl Model for Descendants {
    ghost use Rattle.std.specs.Prelude.{Bool, List};
    ghost use Rattle.abort_tree.specs.Below.{marks_of, AreSerials};

    ghost Value = { List Bool };

    ghost view = { λ r. marks_of r.issued r.serials.items };

    ghost invariant = { λ r. AreSerials r.issued r.serials.items };
}

impl Descendants {
    /// Finds what is below the units: their children, and what is below these. The only error is out of memory.
    ///
    /// It costs a look for each unit and for each own child below them, and a sort of their serials, however many
    /// others there are. What is below two of the units is looked at twice.
    pub fn below(alloc: Global, table: &Table, units: &[Unit]) -> Result<Descendants, AllocError>
        ensures { IfOk result (MarksBelow (is_among units.now) table.now.own) }
    {
        let mut serials = children_of(alloc, table, units)?;
        push_below(table, &mut serials)?;
        // (Abort packets go out by serial; what is below two of the units was found twice)
        serials.sort_unstable();
        serials.dedup();
        Ok(Descendants {
            // (only the view reads it: it says how many marks there are)
            issued: table.issued(),
            serials,
        })
    }

    /// How many thieves the abort of them will have to tell: as many are out now. It costs a pass through those below.
    pub fn outs(&self, table: &Table) -> usize
        requires { length self.now ≡ length table.now.own }
        ensures { result ≡ length (outs_from 0 self.now table.now.own) }
    {
        let mut count = 0;
        for serial in &self.serials {
            count += outs_at(table, *serial);
        }
        count
    }

    /// Aborts each of them that is open, and appends those that were out, by serial. The list is asked to have room. It
    /// takes no memory, and costs a pass through those below, and for each abort what the table's `abort` does.
    pub fn abort(&self, table: &mut Table, list: &mut Vec<Out>)
        requires marks { length self.now ≡ length table.old.own }
        requires room { vec_len list.old + length
            (outs_from 0 self.now table.old.own) ≤ vec_capacity list.old }
        ensures table { table.new ≡ table_own table.old (aborted self.now table.old.own) }
        ensures below { (top : WorkUnit → Bool) → MarksBelow top table.old.own self.now →
            AbortsBelow top table.old.own table.new.own }
        ensures list { list.new.items ≡ list.old.items ++ reached 0 table.old.own table.new.own }
    {
        for serial in &self.serials {
            abort_at(table, *serial, list);
        }
    }
}

/// The serials of the children of these units, those of each unit in turn.
fn children_of(alloc: Global, table: &Table, units: &[Unit]) -> Result<Vec<u32>, AllocError>
    ensures { IfOk result (λ serials.
        Adds (λ unit. is_among units.now unit ≡ true) table.now.own [] serials.items) }
{
    let mut serials = Vec::new(alloc);
    for unit in units {
        push_children(table, *unit, &mut serials)?;
    }
    Ok(serials)
}

/// Appends what is below the children of some units, level by level. A parent was made before its children, so there
/// are no more levels than children.
fn push_below(table: &Table, serials: &mut Vec<u32>) -> Result<(), AllocError>
    ensures { OnOk result (Completes table.now.own serials.old.items serials.new.items) }
{
    let mut first = 0;
    for _level in 0..table.issued() {
        let end = serials.len();
        if first == end {
            return Ok(());
        }
        push_level(table, serials, first)?;
        first = end;
    }
    Ok(())
}

/// Appends the children of the own children whose serials stand in the list from this place on.
fn push_level(table: &Table, serials: &mut Vec<u32>, first: usize) -> Result<(), AllocError>
    ensures { OnOk result (Adds (IsListed first (length serials.old.items) serials.old.items)
        table.now.own serials.old.items serials.new.items) }
{
    // (the end is fixed here: what is pushed below is the next level)
    for place in first..serials.len() {
        let serial = serials[place];
        push_children(table, Unit::Own(serial), serials)?;
    }
    Ok(())
}

/// Appends the serials of a unit's children.
fn push_children(table: &Table, unit: Unit, serials: &mut Vec<u32>) -> Result<(), AllocError>
    ensures { OnOk result (Adds (λ parent. parent ≡ unit)
        table.now.own serials.old.items serials.new.items) }
{
    let children = table.children(unit);
    for serial in children.first..children.end {
        serials.push(serial)?;
    }
    Ok(())
}

/// What the abort of an own child reaches: itself, where it is out.
fn out_at(table: &Table, serial: u32) -> Option<Out>
    ensures { option_to_list result ≡ out_of true serial (slice_get table.now.own serial) }
{
    let view = table.unit(Unit::Own(serial))?;
    match view.status {
        Status::Out(thief) => Some(Out {
            serial,
            attempt: view.attempt,
            thief: *thief,
        }),
        _ => None,
    }
}

/// How many that are: one or none.
fn outs_at(table: &Table, serial: u32) -> usize
    ensures { result ≡ length (out_of true serial (slice_get table.now.own serial)) }
{
    match out_at(table, serial) {
        Some(_) => 1,
        None => 0,
    }
}

/// Whether an own child is there and open.
fn is_open(table: &Table, serial: u32) -> bool
    ensures { result ≡ has_status is_open (slice_get table.now.own serial) }
{
    match table.status(Unit::Own(serial)) {
        Some(status) => status.is_open(),
        None => false,
    }
}

/// Aborts an own child if it is open, and appends it if it was out.
fn abort_at(table: &mut Table, serial: u32, list: &mut Vec<Out>)
    requires { vec_len list.old + length
        (out_of true serial (slice_get table.old.own serial)) ≤ vec_capacity list.old }
    ensures table { table.new
        ≡ table_own table.old (change_at (abort_if true) table.old.own serial) }
    ensures list { list.new.items ≡ list.old.items
        ++ out_of true serial (slice_get table.old.own serial) }
    ensures len { vec_len list.new
        ≡ vec_len list.old + length (out_of true serial (slice_get table.old.own serial)) }
    ensures room { vec_capacity list.new ≡ vec_capacity list.old }
{
    // (before the abort, since the status that it replaces names the thief)
    if let Some(out) = out_at(table, serial) {
        list.push_reserved(out);
    }
    if is_open(table, serial) {
        table.abort(serial);
    }
}
