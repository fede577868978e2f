//! A table of more children than two pages have: what is found at the ends of pages.

use super::tables::{ended, give, redo, split};
use super::units::{HERE, ROOT, is_ready, list};
use spawn_frame::Heard::{Open, Settled};
use spawn_frame::Unit::{Guest, Own};
use spawn_frame::*;
use std::alloc::{AllocError, Global};
use std::process::Abort;

/// A call of a table, or what it finds.
enum Step {
    /// The own child that is taken up next, at its first attempt.
    Take(u32),
    /// This one is taken up.
    TakeUp(u32),
    /// This one is given to a thief.
    Give(u32),
    /// This one is redone.
    Redo(u32),
    /// This one is split; the first child's serial.
    Split(u32, u32),
    /// This one is empty; what its frame says then.
    End(u32, Heard),
    /// The ready child of least serial from this one on.
    Ready(u32, Option<u32>),
    /// The same of one that is here.
    Here(u32, Option<u32>),
    /// The same of one that is out.
    Out(u32, Option<u32>),
    /// The frame that is settled.
    Ripe(Option<Unit>),
    /// How many are out.
    Outs(usize),
}

use self::Step::*;

/// How many children the guest is split into: two pages, and a part of a third.
const CHILDREN: usize = 600;

/// A table with so many children of one guest.
fn three_pages<R: Abort>(rt: &R, alloc: Global) -> Table {
    let mut table = Table::start(alloc, HERE, 1000);
    let guest = Guest(ROOT, 1);
    assert!(rt; table.unit(guest).is_none());
    table
        .admit(ROOT, 1, list(rt, alloc, &[]))
        .expect(rt, "memory");
    assert!(rt; is_ready(&table, guest));
    table.take_up(guest);
    let options = zeros(alloc).expect(rt, "memory");
    assert!(rt; split(rt, &mut table, guest, &options) == Ok(0));
    table
}

/// As many options.
fn zeros(alloc: Global) -> Result<Vec<u16>, AllocError> {
    vec![in alloc; 0; CHILDREN]
}

/// Takes up an own child that is ready.
fn take_up<R: Abort>(rt: &R, table: &mut Table, serial: u32) {
    assert!(rt; is_ready(table, Own(serial)));
    table.take_up(Own(serial));
}

/// Makes a step that answers nothing; false of any other, which is left.
fn is_made<R: Abort>(rt: &R, table: &mut Table, step: &Step) -> bool {
    match *step {
        TakeUp(serial) => take_up(rt, table, serial),
        Give(serial) => give(rt, table, serial),
        Redo(serial) => redo(rt, table, serial),
        _ => return false,
    }
    true
}

/// Whether the table finds what a step says.
fn is_found(table: &Table, step: &Step) -> bool {
    match *step {
        Ready(from, least) => table.next_ready(from) == least,
        Here(from, least) => table.next_here(from) == least,
        Out(from, least) => table.next_out(from) == least,
        Ripe(unit) => table.ripe() == unit,
        Outs(count) => table.outs() == count,
        _ => false,
    }
}

/// Whether a step goes as it says.
fn goes<R: Abort>(rt: &R, alloc: Global, table: &mut Table, step: &Step) -> bool {
    match *step {
        Take(serial) => table.take()
            == Some(Job {
                unit: Own(serial),
                attempt: 1,
            }),
        Split(serial, first) => split(rt, table, Own(serial), &[0]) == Ok(first),
        End(serial, heard) => ended(rt, alloc, table, Own(serial), None) == heard,
        TakeUp(_) | Give(_) | Redo(_) => is_made(rt, table, step),
        _ => is_found(table, step),
    }
}

static FOUND: &[Step] = &[
    Ready(0, Some(0)),
    Ready(599, Some(599)),
    Ready(600, None),
    Ready(1000, None),
    Here(0, None),
    Out(0, None),
    // From the last one on, and from the first.
    Take(599),
    Ready(599, None),
    Here(0, Some(599)),
    Take(598),
    Here(0, Some(598)),
    Here(599, Some(599)),
    // The last of a page, and the first of the next.
    TakeUp(255),
    Ready(255, Some(256)),
    TakeUp(256),
    Ready(255, Some(257)),
    Here(0, Some(255)),
    Here(256, Some(256)),
    Here(257, Some(598)),
    Give(511),
    Ready(511, Some(512)),
    Give(512),
    Ready(511, Some(513)),
    Out(0, Some(511)),
    Out(512, Some(512)),
    Out(513, None),
    Outs(2),
    Redo(511),
    Out(0, Some(512)),
    Ready(511, Some(511)),
    Outs(1),
    // A frame in the first page, whose child stands in the last.
    Ripe(None),
    Split(255, 600),
    Ready(514, Some(514)),
    Take(600),
    Take(597),
    End(600, Settled),
    Ripe(Some(Own(255))),
    End(255, Open),
    Ripe(None),
    Here(0, Some(256)),
];

#[test]
fn units_are_found_at_the_ends_of_pages(rt: HostRuntime) {
    let mut table = three_pages(&rt, rt.alloc());
    for (place, step) in FOUND.iter().enumerate() {
        assert!(&rt; goes(&rt, rt.alloc(), &mut table, step), "step {place}");
    }
}
