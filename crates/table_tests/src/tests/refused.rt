//! A `spawn` whose children fit into the last page takes no memory. One that is refused memory changes nothing, and
//! comes to the same when it is called again.
//!
//! No memory is refused here: `trials/try_memory.py` does it from outside, and sees by marks where a `spawn` begins and
//! ends.

ghost use Rattle.std.specs.Prelude.{◌<◌};

use super::tables::split;
use super::units::{HERE, ROOT, is_here, is_ready, list};
use growth_marks::{begin, end};
use spawn_frame::Unit::{Guest, Own};
use spawn_frame::*;
use std::alloc::{AllocError, Global};
use std::process::Abort;

/// The numbers of the calls: a `spawn` that may take memory, and one whose children fit into the last page.
const BEYOND: usize = 68;

const WITHIN: usize = 72;

/// A ready unit is taken up and split into so many children, of which the first has this serial.
enum Step {
    /// They fit into the last page.
    Within(Unit, usize, u32),
    /// They don't: memory may be asked for.
    Beyond(Unit, usize, u32),
}

use self::Step::*;

/// Pages end at 256, 512 and 768, and so on.
static SPLITS: &[Step] = &[
    Beyond(Guest(ROOT, 1), 1, 0),
    // From the second child of a page to its last.
    Within(Own(0), 1, 1),
    Within(Own(1), 10, 2),
    Within(Own(11), 244, 12),
    // The first child of the next page, and all others of it.
    Beyond(Own(255), 1, 256),
    Within(Own(256), 255, 257),
    // Children that fill what is left of a page, and one more.
    Beyond(Own(511), 200, 512),
    Beyond(Own(711), 57, 712),
    Within(Own(768), 5, 769),
    // Pages in between.
    Beyond(Own(773), 600, 774),
    Within(Own(1373), 1, 1374),
    Within(Own(1374), 161, 1375),
    Beyond(Own(1535), 300, 1536),
];

/// What is answered where a unit, which is here, is split between marks.
fn marked<R: Abort>(
    rt: &R,
    alloc: Global,
    table: &mut Table,
    split_up: (Unit, &[u16]),
    number: usize,
) -> Result<u32, SpawnFault>
    requires { number < 128 }
{
    let (unit, options) = split_up;
    begin(alloc, number).expect(rt, "memory");
    let first = split(rt, table, unit, options);
    let refused = first == Err(SpawnFault::Memory);
    end(alloc, refused).expect(rt, "memory");
    first
}

/// The same where memory may be asked for: if it is refused, nothing has changed, and the unit is split again.
fn beyond<R: Abort>(
    rt: &R,
    alloc: Global,
    table: &mut Table,
    (unit, options): (Unit, &[u16]),
) -> Result<u32, SpawnFault> {
    let issued = table.issued();
    let first = marked(rt, alloc, table, (unit, options), BEYOND);
    if first == Err(SpawnFault::Memory) {
        assert!(rt; table.issued() == issued, "children are there");
        assert!(rt; is_here(table, unit), "the unit has changed");
        return split(rt, table, unit, options);
    }
    first
}

/// As many options.
fn options(alloc: Global, count: usize) -> Result<Vec<u16>, AllocError> {
    vec![in alloc; 0; count]
}

/// Takes up a unit that is ready, and splits it into so many children; the first one's serial.
fn goes<R: Abort>(rt: &R, alloc: Global, table: &mut Table, step: &Step) -> bool {
    let (Within(unit, count, first) | Beyond(unit, count, first)) = *step;
    let options = options(alloc, count).expect(rt, "memory");
    assert!(rt; is_ready(table, unit));
    table.take_up(unit);
    let answer = match step {
        Within(..) => marked(rt, alloc, table, (unit, &options), WITHIN),
        Beyond(..) => beyond(rt, alloc, table, (unit, &options)),
    };
    answer == Ok(first)
}

#[test]
fn refused_memory_at_a_split(rt: HostRuntime) {
    let mut table = Table::start(rt.alloc(), HERE, 2000);
    assert!(&rt; table.unit(Guest(ROOT, 1)).is_none());
    let prefix = list(&rt, rt.alloc(), &[]);
    table.admit(ROOT, 1, prefix).expect(&rt, "memory");
    for (place, step) in SPLITS.iter().enumerate() {
        assert!(&rt; goes(&rt, rt.alloc(), &mut table, step), "step {place}");
    }
    assert!(&rt; table.issued() == 1836);
}
