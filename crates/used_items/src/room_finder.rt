//! The search for room that is just enough.

ghost use Rattle.std.specs.Prelude.{◌≡◌};

use crate::classes::Classes;
use crate::demand::need_class;
use crate::enough::is_just_enough;
use crate::spare::Spare;
use cover_problem::Problem;
use cover_reasons::{Demand, Matching, ReasonWatch, Room};
use fractional_room::Row;
use std::alloc::{AllocError, Global};

/// About how many items of options are looked at, a tenth of a second. Chosen for that time.
const MOST_STEPS: usize = 20_000_000;

/// Needs and rooms of several classes together.
#[derive(Drop)]
struct Total {
    needs: Row,
    rooms: Row,
    is_some: bool,
}

impl Total {
    fn new(alloc: Global, problem: &Problem) -> Result<Total, AllocError> {
        Ok(Total {
            needs: Row::zeros(alloc, problem.primary())?,
            rooms: Row::zeros(alloc, problem.items())?,
            is_some: false,
        })
    }

    /// Adds room that is just enough, if it is that of an item that had none before.
    fn add(&mut self, problem: &Problem, room: &Room) {
        if self.has_all(room.rooms()) || !is_just_enough(problem, room) {
            return;
        }
        self.needs.add(room.needs());
        self.rooms.add(room.rooms());
        self.is_some = true;
    }

    /// Whether each item that has room had some before.
    fn has_all(&self, rooms: &[u16]) -> bool {
        for (item, amount) in rooms.iter().enumerate() {
            if *amount != 0 && self.rooms.at(item) == 0 {
                return false;
            }
        }
        true
    }
}

/// What the search keeps from one class to the next.
#[derive(Drop)]
struct Finder {
    demand: Demand,
    matching: Matching,
    spare: Spare,
}

impl Finder {
    fn new(alloc: Global, problem: &Problem) -> Result<Finder, AllocError> {
        Ok(Finder {
            demand: Demand::new(alloc, problem)?,
            matching: Matching::new(alloc, problem)?,
            spare: Spare::new(alloc, problem)?,
        })
    }

    /// Adds the room of a class. Returns about how many items, and words of sets of items, were looked at.
    fn add_class(
        &mut self,
        alloc: Global,
        problem: &Problem,
        classes: &Classes,
        class: u16,
        total: &mut Total,
    ) -> Result<usize, AllocError> {
        let mut steps = need_class(alloc, problem, classes, class, &mut self.demand)?;
        let is_met = self.matching.meets(problem, &self.demand);
        steps = steps.saturating_add(self.matching.steps());
        if is_met {
            self.spare.set(problem, &self.demand, &self.matching);
            steps = steps.saturating_add(self.spare.steps());
            let room = self.spare.full_room(alloc, problem, &self.demand)?;
            total.add(problem, &room);
        }
        Ok(steps)
    }
}

/// Room that may be just enough for an exact cover: that of secondary items of one class, no two of which an option
/// names, or of all classes, for primary items that name them in each of their options; several such rooms are added
/// up.
///
/// It looks at some 20,000,000 items of options at most, until the watch ends that, and takes memory of the order of
/// the problem, and a bit for each primary item and each item beside it. The only error is out of memory.
pub(crate) fn find_full_room<W: ReasonWatch>(
    alloc: Global,
    problem: &Problem,
    watch: &mut W,
) -> Result<Option<Room>, AllocError> {
    let classes = Classes::new(alloc, problem, MOST_STEPS, watch)?;
    if classes.count() == 0 {
        return Ok(None);
    }
    let mut total = Total::new(alloc, problem)?;
    add_classes(alloc, problem, &classes, &mut total, watch)?;
    let Total {
        needs,
        rooms,
        is_some,
    } = total;
    if !is_some {
        return Ok(None);
    }
    Ok(Some(Room::from_parts(needs.into_vec(), rooms.into_vec())))
}

/// Adds the room of each class, and at last of all of them as one, until the watch ends that.
fn add_classes<W: ReasonWatch>(
    alloc: Global,
    problem: &Problem,
    classes: &Classes,
    total: &mut Total,
    watch: &mut W,
) -> Result<(), AllocError> {
    let mut finder = Finder::new(alloc, problem)?;
    let mut steps = classes.steps();
    for turn in 1..=classes.count() {
        if steps > MOST_STEPS || watch.look() {
            return Ok(());
        }
        let used = finder.add_class(alloc, problem, classes, turn, total)?;
        steps = steps.saturating_add(used);
    }
    if classes.count() > 1 && steps <= MOST_STEPS && !watch.look() {
        finder.add_class(alloc, problem, classes, 0, total)?;
    }
    Ok(())
}
