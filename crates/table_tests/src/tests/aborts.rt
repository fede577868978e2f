//! Aborts in small tables, as scripts of calls; what is expected is worked out by hand from the rules.

use super::units::{HERE, ROOT, THIEF, is_here, is_ready, is_split, letter, list};
use abort_tree::{Descendants, abort_below};
use spawn_frame::Unit::{Guest, Own};
use spawn_frame::{Out, Serials, Status, Table, Unit};
use std::alloc::{AllocError, Global};
use std::process::Abort;

/// A call of a table, or what it shows then.
enum Step {
    /// The unit that is taken up next, which is this one, is split by these options.
    Split(Unit, &'static [u16]),
    /// A unit that isn't the next is taken up and split by these options.
    SplitUp(Unit, &'static [u16]),
    /// An own child is given to the thief.
    Give(u32),
    /// All below a unit is aborted, and what was out there is added to the list.
    Cut(Unit),
    /// A letter for the status of each own child, by serial.
    Children(&'static str),
    /// This own child is out to the thief.
    IsOut(u32),
    /// The guest is a frame.
    IsFrame,
    /// The list.
    Outs(&'static [Out]),
    /// The own children of a unit.
    Stand(Unit, Serials),
    /// A unit has no own children.
    Barren(Unit),
    /// How many are out below these.
    Below(&'static [Unit], usize),
}

use self::Step::*;

/// Whether the statuses of the own children have these letters, by serial.
fn shows_children(table: &Table, letters: &str) -> bool {
    let mut serial = 0u32;
    for expected in letters.chars() {
        match table.status(Own(serial)) {
            Some(status) if letter(status) == expected => serial = serial.wrapping_add(1),
            _ => return false,
        }
    }
    serial == table.issued()
}

/// Whether an own child is out to the thief.
fn is_out(table: &Table, serial: u32) -> bool {
    match table.status(Own(serial)) {
        Some(Status::Out(thief)) => *thief == THIEF,
        _ => false,
    }
}

/// Takes up a unit that is ready.
fn take_up<R: Abort>(rt: &R, table: &mut Table, unit: Unit) -> bool {
    assert!(rt; is_ready(table, unit));
    table.take_up(unit);
    true
}

/// Splits a unit that was taken up by these options.
fn split<R: Abort>(rt: &R, table: &mut Table, unit: Unit, options: &[u16]) -> bool {
    assert!(rt; is_here(table, unit));
    assert!(rt; !options.is_empty());
    table.spawn(unit, options).is_ok()
}

/// Gives a child that is ready to the thief.
fn give<R: Abort>(rt: &R, table: &mut Table, serial: u32) -> bool {
    assert!(rt; is_ready(table, Own(serial)));
    table.give(serial, THIEF);
    true
}

/// How many are out below these.
fn outs_below(alloc: Global, table: &Table, units: &[Unit]) -> Result<usize, AllocError> {
    Ok(Descendants::below(alloc, table, units)?.outs(table))
}

/// Whether a unit has no own children.
fn is_barren(table: &Table, unit: Unit) -> bool {
    let none = table.children(unit);
    none.first == none.end
}

/// Whether the table shows what a step says.
fn is_shown(alloc: Global, table: &Table, list: &[Out], step: &Step) -> bool {
    match *step {
        Children(letters) => shows_children(table, letters),
        IsOut(serial) => is_out(table, serial),
        IsFrame => is_split(table, Guest(ROOT, 1)),
        Outs(outs) => list == outs,
        Stand(unit, serials) => table.children(unit) == serials,
        Barren(unit) => is_barren(table, unit),
        Below(units, count) => outs_below(alloc, table, units) == Ok(count),
        _ => false,
    }
}

/// Whether a step goes as it says.
fn goes<R: Abort>(
    rt: &R,
    alloc: Global,
    table: &mut Table,
    list: &mut Vec<Out>,
    step: &Step,
) -> bool {
    match *step {
        Split(unit, options) => table.take().is_some() && split(rt, table, unit, options),
        SplitUp(unit, options) => take_up(rt, table, unit) && split(rt, table, unit, options),
        Give(serial) => give(rt, table, serial),
        Cut(unit) => abort_below(alloc, table, unit, list).is_ok(),
        _ => is_shown(alloc, table, list, step),
    }
}

/// Takes these steps, one after another.
fn run<R: Abort>(rt: &R, alloc: Global, table: &mut Table, list: &mut Vec<Out>, steps: &[Step]) {
    for (place, step) in steps.iter().enumerate() {
        assert!(rt; goes(rt, alloc, table, list, step), "step {place}");
    }
}

/// Admits the guest.
fn admit<R: Abort>(rt: &R, alloc: Global, table: &mut Table) {
    assert!(rt; table.unit(Guest(ROOT, 1)).is_none());
    let prefix = list(rt, alloc, &[]);
    assert!(rt; table.admit(ROOT, 1, prefix).is_ok());
}

/// Takes these steps below a guest, over a list that has these.
fn run_anew<R: Abort>(rt: &R, alloc: Global, had: &[Out], steps: &[&[Step]]) {
    let mut table = Table::start(alloc, HERE, 6);
    let mut list = Vec::from_slice(alloc, had).expect(rt, "memory");
    admit(rt, alloc, &mut table);
    for part in steps {
        run(rt, alloc, &mut table, &mut list, part);
    }
}

/// A guest with children 0 and 1, and below 1 the child 2; 0 is out.
static THREE_DEEP: &[Step] = &[Split(Guest(ROOT, 1), &[0, 1]), Split(Own(1), &[4]), Give(0)];

/// The first child, which is out.
const OUT: Out = Out {
    serial: 0,
    attempt: 1,
    thief: THIEF,
};

/// An abort, and what it leaves of the others and of the list, which had the first child.
static REACHES: [&[Step]; 5] = [
    &[
        Cut(Guest(ROOT, 1)),
        Children("AAA"),
        Outs(&[OUT, OUT]),
        IsFrame,
    ],
    &[
        Cut(Own(1)),
        Children("OSA"),
        IsOut(0),
        Outs(&[OUT]),
        IsFrame,
    ],
    &[
        Cut(Own(2)),
        Children("OSR"),
        IsOut(0),
        Outs(&[OUT]),
        IsFrame,
    ],
    &[
        Cut(Own(3)),
        Children("OSR"),
        IsOut(0),
        Outs(&[OUT]),
        IsFrame,
    ],
    &[
        Cut(Guest(ROOT, 2)),
        Children("OSR"),
        IsOut(0),
        Outs(&[OUT]),
        IsFrame,
    ],
];

#[test]
fn aborts_reach_all_below_and_no_other(rt: HostRuntime) {
    for steps in REACHES {
        run_anew(&rt, rt.alloc(), &[OUT], &[THREE_DEEP, steps]);
    }
}

/// A guest with children 0 and 1, of which 1 was split before 0: below 1 are 2 and 3, below 0 are 4 and 5. 2 and 4 are
/// out.
static SPLIT_BACKWARDS: &[Step] = &[
    Split(Guest(ROOT, 1), &[0, 1]),
    Split(Own(1), &[2, 3]),
    SplitUp(Own(0), &[4, 5]),
    Give(4),
    Give(2),
];

/// Out there, by serial.
const TWO: Out = Out {
    serial: 2,
    attempt: 1,
    thief: THIEF,
};

const THREE: Out = Out {
    serial: 3,
    attempt: 1,
    thief: THIEF,
};

const FOUR: Out = Out {
    serial: 4,
    attempt: 1,
    thief: THIEF,
};

static FOUND_BACKWARDS: &[Step] = &[Cut(Guest(ROOT, 1)), Children("AAAAAA"), Outs(&[TWO, FOUR])];

#[test]
fn an_abort_lists_by_serial_what_was_found_in_another_order(rt: HostRuntime) {
    run_anew(&rt, rt.alloc(), &[], &[SPLIT_BACKWARDS, FOUND_BACKWARDS]);
}

static STANDING: &[Step] = &[
    Stand(Guest(ROOT, 1), Serials { first: 0, end: 2 }),
    Stand(Own(1), Serials { first: 2, end: 4 }),
    Stand(Own(0), Serials { first: 4, end: 6 }),
    Barren(Own(2)),
];

#[test]
fn a_table_tells_whose_children_stand_where(rt: HostRuntime) {
    run_anew(&rt, rt.alloc(), &[], &[SPLIT_BACKWARDS, STANDING]);
}

static REACHED_ONCE: &[Step] = &[
    Below(&[Own(1), Guest(ROOT, 1), Own(1)], 2),
    Below(&[Own(0)], 1),
];

#[test]
fn what_is_below_two_units_is_reached_once(rt: HostRuntime) {
    run_anew(&rt, rt.alloc(), &[], &[SPLIT_BACKWARDS, REACHED_ONCE]);
}

/// A guest with children 0 and 1, of which 1 was taken up and split first: below 1 is 2, below 0 is 3. 3 is given away,
/// then 2.
static ONE_CHILD_EACH: &[Step] = &[
    Split(Guest(ROOT, 1), &[0, 1]),
    Split(Own(1), &[4]),
    SplitUp(Own(0), &[5]),
    Give(3),
    Give(2),
    Stand(Own(1), Serials { first: 2, end: 3 }),
    Stand(Own(0), Serials { first: 3, end: 4 }),
    Cut(Guest(ROOT, 1)),
    Children("AAAA"),
    Outs(&[TWO, THREE]),
    IsFrame,
];

#[test]
fn an_abort_lists_by_serial_what_was_given_in_another_order(rt: HostRuntime) {
    run_anew(&rt, rt.alloc(), &[], &[ONE_CHILD_EACH]);
}
