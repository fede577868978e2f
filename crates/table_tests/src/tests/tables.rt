//! Tables of few units, as scripts of calls; what is expected is worked out by hand from the rules.

ghost use Rattle.std.specs.Prelude.{◌≡◌, ◌<◌, slice_get, true};
ghost use Rattle.spawn_frame.specs.Tables.{attempt_in, has_status, is_out};
ghost use Rattle.spawn_frame.specs.Units.{last_attempt};

use super::units::{
    Came, HERE, REGISTRY, ROOT, THIEF, has_come, is_finished, is_here, is_open, is_ready, is_split,
    letter, list, may_end, result_of,
};
use cover_problem::Numbers;
use spawn_frame::Heard::{Open, Settled};
use spawn_frame::Unit::{Guest, Own};
use spawn_frame::*;
use std::alloc::{AllocError, Global};
use std::process::Abort;

/// A call of a table with what it answers, or what the table shows then.
enum Step {
    /// Nothing is ready.
    Idle,
    /// The unit that is taken up, and its attempt.
    Take(Unit, Attempt),
    /// A guest is admitted, at an attempt with a prefix.
    Admit(ChildName, Attempt, &'static [u16]),
    /// A unit is split by these options; the first child's serial.
    Split(Unit, &'static [u16], Result<u32, SpawnFault>),
    /// A unit comes to this; what its frame says then.
    End(Unit, Came, Heard),
    /// An own child is given to a thief.
    Give(u32),
    /// An own child is redone.
    Redo(u32),
    /// An own child is aborted.
    Cancel(u32),
    /// A guest settles on this, at its first attempt.
    Settle(ChildName, Came),
    /// A guest is dropped, at its first attempt.
    Drop(ChildName),
    /// A unit's attempt, a letter for its status, and its prefix.
    Shows(Unit, &'static str),
    /// A unit has come to this.
    HasCome(Unit, Came),
    /// What a frame says, and its winner.
    Says(Unit, Heard, Option<u32>),
    /// The frame that is settled and the next to finish.
    Ripe(Option<Unit>),
    /// The unit that an own child is below.
    Parent(u32, Option<Unit>),
    /// The guest behind the given one, or the first.
    Next(Option<(ChildName, Attempt)>, Option<(ChildName, Attempt)>),
    /// How many own children there are.
    Issued(u32),
    /// How many of them are out.
    Outs(usize),
    /// Whether a job, at an attempt and with a prefix, is still worked on.
    Works(Unit, Attempt, &'static [u16], bool),
    /// The guest at a place, and its attempt.
    Stands(usize, ChildName, Attempt),
    /// The open guests, in order: their names and attempts.
    Opens(&'static [(ChildName, Attempt)]),
}

use self::Step::*;

/// Children of node 2, and one of node 3.
const OF_2: ChildName = ChildName {
    site: THIEF,
    serial: 7,
};

const OF_3: ChildName = ChildName {
    site: Site {
        node: 3,
        incarnation: 1,
    },
    serial: 0,
};

/// A unit's attempt, a letter for its status, and its prefix.
fn told(alloc: Global, table: &Table, unit: Unit) -> Result<String, AllocError> {
    let Some(view) = table.unit(unit) else {
        return format!(in alloc; "none");
    };
    let mut prefix = Vec::new(alloc);
    table.prefix_into(unit, &mut prefix)?;
    let letter = letter(view.status);
    format!(in alloc; "{} {letter} {prefix:?}", view.attempt)
}

/// Whether the table says this of a unit.
fn shows<R: Abort>(rt: &R, alloc: Global, table: &Table, unit: Unit, expected: &str) -> bool {
    told(alloc, table, unit).expect(rt, "memory").as_str() == expected
}

/// Whether this is the parent of an own child, which is there.
fn is_parent(table: &Table, serial: u32, parent: Option<Unit>) -> bool {
    serial < table.issued() && table.parent(serial) == parent
}

/// Whether a frame says this, and has this winner.
fn says<R: Abort>(rt: &R, table: &Table, unit: Unit, heard: Heard, winner: Option<u32>) -> bool {
    assert!(rt; is_split(table, unit));
    table.heard(unit) == heard && table.winner(unit) == winner
}

/// Whether this guest stands at a place.
fn stands(table: &Table, place: usize, name: ChildName, attempt: Attempt) -> bool {
    if place < table.guest_count() {
        let guest = table.guest(place);
        guest.name == name && guest.attempt == attempt
    } else {
        false
    }
}

/// Whether the open guest at a place among the open ones is this one.
fn is_open_at(table: &Table, place: usize, key: (ChildName, Attempt)) -> bool {
    if place < table.open_count() {
        let guest = table.open_guest(place);
        (guest.name, guest.attempt) == key && guest.status.is_open()
    } else {
        false
    }
}

/// Whether these are the open guests, in order.
fn opens(table: &Table, keys: &[(ChildName, Attempt)]) -> bool {
    for (place, key) in keys.iter().enumerate() {
        if !is_open_at(table, place, *key) {
            return false;
        }
    }
    table.open_count() == keys.len()
}

/// Whether the table agrees with what a step says of jobs, guests and thieves.
fn is_told(table: &Table, step: &Step) -> bool {
    match *step {
        Outs(count) => table.outs() == count,
        Works(unit, attempt, prefix, is) => table.has_job(Job { unit, attempt }, prefix) == is,
        Stands(place, name, attempt) => stands(table, place, name, attempt),
        Opens(keys) => opens(table, keys),
        _ => false,
    }
}

/// Whether the table shows what a step says.
fn is_shown<R: Abort>(rt: &R, alloc: Global, table: &Table, step: &Step) -> bool {
    match *step {
        Shows(unit, expected) => shows(rt, alloc, table, unit, expected),
        HasCome(unit, came) => has_come(table, unit, came),
        Says(unit, heard, winner) => says(rt, table, unit, heard, winner),
        Ripe(unit) => table.ripe() == unit,
        Parent(serial, parent) => is_parent(table, serial, parent),
        Next(after, next) => table.next_guest(after) == next,
        Issued(count) => table.issued() == count,
        _ => is_told(table, step),
    }
}

/// Admits a guest that isn't there.
fn admit<R: Abort>(rt: &R, table: &mut Table, name: ChildName, attempt: Attempt, prefix: Numbers) {
    assert!(rt; table.unit(Guest(name, attempt)).is_none());
    assert!(rt; attempt > 0);
    table.admit(name, attempt, prefix).expect(rt, "memory");
}

/// Gives out an own child that is ready.
pub fn give<R: Abort>(rt: &R, table: &mut Table, serial: u32) {
    assert!(rt; is_ready(table, Own(serial)));
    table.give(serial, THIEF);
}

/// Whether a child is out, and not at its last attempt.
fn may_redo(table: &Table, serial: u32) -> bool
    ensures out { result ≡ true → has_status is_out (slice_get table.now.own serial) ≡ true }
    ensures attempt { result ≡ true → attempt_in (slice_get table.now.own serial) < last_attempt }
{
    match table.unit(Own(serial)) {
        Some(view) => matches!(view.status, Status::Out(_)) && view.attempt < u32::MAX,
        None => false,
    }
}

/// Redoes an own child that is out.
pub fn redo<R: Abort>(rt: &R, table: &mut Table, serial: u32) {
    assert!(rt; may_redo(table, serial));
    table.redo(serial);
}

/// Aborts an own child that is open.
fn cancel<R: Abort>(rt: &R, table: &mut Table, serial: u32) {
    assert!(rt; is_open(table, Own(serial)));
    table.abort(serial);
}

/// Settles a guest that is finished.
fn settle<R: Abort>(rt: &R, alloc: Global, table: &mut Table, name: ChildName, option: Came) {
    let came = result_of(rt, alloc, option);
    assert!(rt; is_finished(table, Guest(name, 1)));
    table.settle(name, 1, came);
}

/// Drops a guest that is open.
fn drop_guest<R: Abort>(rt: &R, table: &mut Table, name: ChildName) {
    assert!(rt; is_open(table, Guest(name, 1)));
    table.drop_guest(name, 1);
}

/// Makes a step that answers nothing; false of any other, which is left.
fn is_made<R: Abort>(rt: &R, alloc: Global, table: &mut Table, step: &Step) -> bool {
    match *step {
        Admit(name, attempt, prefix) => {
            admit(rt, table, name, attempt, list(rt, alloc, prefix));
        }
        Give(serial) => give(rt, table, serial),
        Redo(serial) => redo(rt, table, serial),
        Cancel(serial) => cancel(rt, table, serial),
        Settle(name, option) => settle(rt, alloc, table, name, option),
        Drop(name) => drop_guest(rt, table, name),
        _ => return false,
    }
    true
}

/// What is answered where a unit, which is here, is split.
pub fn split<R: Abort>(
    rt: &R,
    table: &mut Table,
    unit: Unit,
    options: &[u16],
) -> Result<u32, SpawnFault> {
    assert!(rt; is_here(table, unit));
    assert!(rt; !options.is_empty());
    table.spawn(unit, options)
}

/// What the frame says of a unit, which is worked on, once it comes to this.
pub fn ended<R: Abort>(
    rt: &R,
    alloc: Global,
    table: &mut Table,
    unit: Unit,
    option: Came,
) -> Heard {
    let came = result_of(rt, alloc, option);
    assert!(rt; may_end(table, unit));
    table.set_result(unit, came)
}

/// Whether a step goes as it says.
fn goes<R: Abort>(rt: &R, alloc: Global, table: &mut Table, step: &Step) -> bool {
    match *step {
        Idle => table.take().is_none(),
        Take(unit, attempt) => table.take() == Some(Job { unit, attempt }),
        Split(unit, options, first) => split(rt, table, unit, options) == first,
        End(unit, came, heard) => ended(rt, alloc, table, unit, came) == heard,
        Admit(..) | Give(_) | Redo(_) | Cancel(_) | Settle(..) | Drop(_) => {
            is_made(rt, alloc, table, step)
        }
        _ => is_shown(rt, alloc, table, step),
    }
}

/// Takes these steps, one after another.
fn run<R: Abort>(rt: &R, alloc: Global, table: &mut Table, steps: &[Step]) {
    for (place, step) in steps.iter().enumerate() {
        assert!(rt; goes(rt, alloc, table, step), "step {place}");
    }
}

/// Takes these steps in a table with room for so many names.
fn run_anew<R: Abort>(rt: &R, alloc: Global, limit: u32, steps: &[Step]) {
    run(rt, alloc, &mut Table::start(alloc, HERE, limit), steps);
}

static SPLITS: &[Step] = &[
    Idle,
    Admit(ROOT, 1, &[]),
    Take(Guest(ROOT, 1), 1),
    Split(Guest(ROOT, 1), &[0, 1], Ok(0)),
    Take(Own(1), 1),
    // Names that don't fit are refused.
    Split(Own(1), &[4, 5], Err(SpawnFault::NamesSpent)),
    Issued(2),
    Shows(Own(1), "1 H [1]"),
    // Its job is known by attempt and prefix.
    Works(Own(1), 1, &[1], true),
    Works(Own(1), 2, &[1], false),
    Works(Own(1), 1, &[0], false),
    Works(Own(0), 1, &[0], false),
    Works(Own(2), 1, &[1], false),
    Split(Own(1), &[4], Ok(2)),
    Issued(3),
    Shows(Own(1), "1 S [1]"),
    Shows(Own(2), "1 R [1, 4]"),
    Parent(0, Some(Guest(ROOT, 1))),
    Parent(2, Some(Own(1))),
    Outs(0),
    Give(0),
    Outs(1),
    Shows(Own(0), "1 O [0]"),
    Shows(Guest(ROOT, 1), "1 S []"),
    Works(Own(1), 1, &[1], false),
];

#[test]
fn units_are_split_and_given(rt: HostRuntime) {
    run_anew(&rt, rt.alloc(), 3, SPLITS);
}

/// Any ready child may be given, and that one alone is out.
static ANY_GIVEN: &[Step] = &[
    Admit(ROOT, 1, &[]),
    Take(Guest(ROOT, 1), 1),
    Split(Guest(ROOT, 1), &[5, 6, 7], Ok(0)),
    Give(1),
    Shows(Own(0), "1 R [5]"),
    Shows(Own(1), "1 O [6]"),
    Shows(Own(2), "1 R [7]"),
    Outs(1),
    Give(2),
    Outs(2),
    Redo(1),
    Shows(Own(0), "1 R [5]"),
    Shows(Own(1), "2 R [6]"),
    Shows(Own(2), "1 O [7]"),
    Take(Own(1), 2),
    Take(Own(0), 1),
    Idle,
];

#[test]
fn another_child_than_the_first_is_given(rt: HostRuntime) {
    run_anew(&rt, rt.alloc(), 3, ANY_GIVEN);
}

/// A guest is a frame of two, its second child a frame of two, and the second child of that one a frame of two.
static THREE_DEEP: &[Step] = &[
    Admit(ROOT, 1, &[]),
    Take(Guest(ROOT, 1), 1),
    Split(Guest(ROOT, 1), &[8, 9], Ok(0)),
    Take(Own(1), 1),
    Split(Own(1), &[8, 9], Ok(2)),
    Take(Own(3), 1),
    Split(Own(3), &[8, 9], Ok(4)),
    Shows(Own(5), "1 R [9, 9, 9]"),
];

/// Takes these steps below the three frames.
fn run_three_deep<R: Abort>(rt: &R, alloc: Global, steps: &[Step]) {
    let mut table = Table::start(alloc, HERE, 6);
    run(rt, alloc, &mut table, THREE_DEEP);
    run(rt, alloc, &mut table, steps);
}

static COVERS: &[Step] = &[
    Says(Own(3), Open, None),
    Ripe(None),
    Take(Own(5), 1),
    End(Own(5), Some(5), Settled),
    Says(Own(3), Settled, Some(5)),
    Ripe(Some(Own(3))),
    // That of least serial wins.
    Take(Own(4), 1),
    End(Own(4), Some(4), Settled),
    Says(Own(3), Settled, Some(4)),
    HasCome(Own(5), Some(5)),
];

#[test]
fn a_cover_settles_its_frame(rt: HostRuntime) {
    run_three_deep(&rt, rt.alloc(), COVERS);
}

static EMPTIES: &[Step] = &[
    Take(Own(5), 1),
    End(Own(5), None, Open),
    Take(Own(4), 1),
    End(Own(4), None, Settled),
    Ripe(Some(Own(3))),
    Says(Own(3), Settled, None),
    End(Own(3), None, Open),
    Take(Own(2), 1),
    End(Own(2), None, Settled),
    Ripe(Some(Own(1))),
    Says(Guest(ROOT, 1), Open, None),
];

#[test]
fn a_frame_of_empties_settles_without_a_winner(rt: HostRuntime) {
    run_three_deep(&rt, rt.alloc(), EMPTIES);
}

static ABORTED: &[Step] = &[
    Cancel(4),
    Shows(Own(4), "1 A [9, 9, 8]"),
    Take(Own(5), 1),
    End(Own(5), None, Open),
    Says(Own(3), Open, None),
];

#[test]
fn an_aborted_child_is_not_empty(rt: HostRuntime) {
    run_three_deep(&rt, rt.alloc(), ABORTED);
}

static ROOT_ANEW: &[Step] = &[
    Issued(1),
    Parent(0, None),
    Shows(Own(0), "1 R []"),
    Give(0),
    Shows(Own(0), "1 O []"),
    Redo(0),
    Shows(Own(0), "2 R []"),
    Take(Own(0), 2),
    End(Own(0), None, Open),
    Shows(Own(0), "2 D []"),
];

/// Whether it is the registry's table, which has room for one name.
fn is_of_registry(table: &Table) -> bool {
    table.site() == REGISTRY && table.names_limit() == 1
}

#[test]
fn the_root_is_given_and_ends_anew(rt: HostRuntime) {
    let mut table = Table::with_root(rt.alloc()).expect(&rt, "memory");
    assert!(rt; is_of_registry(&table));
    run(&rt, rt.alloc(), &mut table, ROOT_ANEW);
}

static GUESTS: &[Step] = &[
    Admit(OF_3, 1, &[3]),
    Admit(OF_2, 2, &[2, 7]),
    Admit(OF_2, 1, &[]),
    Next(None, Some((OF_2, 1))),
    Next(Some((OF_2, 1)), Some((OF_2, 2))),
    Next(Some((OF_2, 2)), Some((OF_3, 1))),
    Next(Some((OF_3, 1)), None),
    Stands(0, OF_2, 1),
    Stands(1, OF_2, 2),
    Stands(2, OF_3, 1),
    Shows(Guest(OF_2, 2), "2 R [2, 7]"),
    Take(Guest(OF_2, 1), 1),
];

#[test]
fn guests_stand_in_order(rt: HostRuntime) {
    run_anew(&rt, rt.alloc(), 0, GUESTS);
}

static SETTLED: &[Step] = &[
    Admit(OF_2, 1, &[]),
    Take(Guest(OF_2, 1), 1),
    End(Guest(OF_2, 1), Some(1), Open),
    Shows(Guest(OF_2, 1), "1 F []"),
    HasCome(Guest(OF_2, 1), Some(1)),
    Settle(OF_2, None),
    Shows(Guest(OF_2, 1), "1 T []"),
    HasCome(Guest(OF_2, 1), None),
    // An open guest is dropped.
    Admit(OF_3, 1, &[]),
    Drop(OF_3),
    Shows(Guest(OF_3, 1), "1 X []"),
];

#[test]
fn guests_settle_and_drop(rt: HostRuntime) {
    run_anew(&rt, rt.alloc(), 0, SETTLED);
}

/// Guests that ended stand before, among and behind those that are open.
static ENDED: &[Step] = &[
    Opens(&[]),
    Admit(OF_2, 1, &[]),
    Admit(OF_3, 1, &[3]),
    Take(Guest(OF_2, 1), 1),
    End(Guest(OF_2, 1), Some(1), Open),
    Opens(&[(OF_2, 1), (OF_3, 1)]),
    Settle(OF_2, None),
    Opens(&[(OF_3, 1)]),
    // One is admitted before an ended one and the open one, another between them.
    Admit(ROOT, 1, &[]),
    Admit(OF_2, 2, &[2]),
    Opens(&[(ROOT, 1), (OF_2, 2), (OF_3, 1)]),
    Drop(ROOT),
    Take(Guest(OF_2, 2), 2),
    Take(Guest(OF_3, 1), 1),
    Idle,
    Ripe(None),
    Split(Guest(OF_3, 1), &[5], Ok(0)),
    Take(Own(0), 1),
    End(Own(0), Some(0), Settled),
    Ripe(Some(Guest(OF_3, 1))),
    Opens(&[(OF_2, 2), (OF_3, 1)]),
    End(Guest(OF_3, 1), Some(2), Open),
    Ripe(None),
    Settle(OF_3, Some(2)),
    Opens(&[(OF_2, 2)]),
    // Behind all that ended.
    Admit(OF_3, 2, &[3]),
    Opens(&[(OF_2, 2), (OF_3, 2)]),
    Take(Guest(OF_3, 2), 2),
    Idle,
    Stands(0, ROOT, 1),
    Stands(1, OF_2, 1),
    Stands(4, OF_3, 2),
];

#[test]
fn guests_that_ended_are_passed_over(rt: HostRuntime) {
    run_anew(&rt, rt.alloc(), 1, ENDED);
}

/// A child and its result; what an inlet says then, its winner, and how many children it still waits for.
type Taken = (u32, Came, Heard, Option<u32>, u32);

static EMPTIES_TAKEN: &[Taken] = &[(0, None, Open, None, 1), (1, None, Settled, None, 0)];

static COVERS_TAKEN: &[Taken] = &[
    (1, Some(1), Settled, Some(1), 1),
    (0, Some(1), Settled, Some(0), 0),
];

/// Whether an inlet that isn't done says this once a child has come to this.
fn hears(inlet: &mut FirstFound, child: u32, came: &ChildResult, heard: Heard) -> bool {
    inlet.left() > 0 && inlet.take(child, came) == heard && inlet.heard() == heard
}

/// Whether an inlet takes a result so.
fn takes<R: Abort>(rt: &R, alloc: Global, inlet: &mut FirstFound, row: &Taken) -> bool {
    let (child, option, heard, winner, left) = *row;
    hears(inlet, child, &result_of(rt, alloc, option), heard)
        && inlet.winner() == winner
        && inlet.left() == left
}

/// An inlet of two children takes these results.
fn run_inlet<R: Abort>(rt: &R, alloc: Global, rows: &[Taken]) {
    let mut inlet = FirstFound::new(2);
    assert!(rt; inlet.heard() == Open);
    for row in rows {
        assert!(rt; takes(rt, alloc, &mut inlet, row));
    }
}

#[test]
fn an_inlet_settles_at_the_last_empty(rt: HostRuntime) {
    run_inlet(&rt, rt.alloc(), EMPTIES_TAKEN);
}

#[test]
fn an_inlet_settles_at_a_cover(rt: HostRuntime) {
    run_inlet(&rt, rt.alloc(), COVERS_TAKEN);
}
