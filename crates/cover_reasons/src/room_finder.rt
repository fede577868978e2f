//! The search for primary items that have too little room.
//!
//! Hall's marriage theorem: a matching of what primary items need with what they may have, and where the largest one
//! leaves somebody without, the items that paths from there reach have too little room together. It is looked for in
//! one kind of items after another (as one teacher's periods), since a reason in one kind is short, and between the two
//! sides of a board.

ghost use Rattle.std.specs.Prelude.{◌≡◌, true, IfOk, IfSome};
ghost use Rattle.cover_reasons.specs.Room.{is_too_little};

use crate::bits::Bits;
use crate::demand::Demand;
use crate::kinds::Kind;
use crate::matching::{Matching, ones_of};
use crate::neighbours::Neighbours;
use crate::reason_watch::{Endless, ReasonWatch};
use crate::room::Room;
use crate::room_test::is_too_little;
use crate::sides::{Sides, are_pairs};
use cover_problem::Problem;
use fractional_room::Row;
use problem_copies::nodes_of;
use std::alloc::{AllocError, Global};

/// About how many items of options, and words of sets of items, are looked at for kinds: a tenth of a second.
const MOST_STEPS: usize = 20_000_000;

/// Room that is too little for an exact cover: that of an item in no option; of one kind, as one teacher's periods, for
/// the primary items each of whose options names some of it; or of one side, as the dark squares of a board, for the
/// items of the other.
///
/// Where it finds none there may be a cover or none. It looks at some 20,000,000 items of options at most, each
/// option's items counted as often as it looks at them or adds them up, and takes memory of the order of the items'
/// square. The only error is out of memory. The program calls `find_room_until`.
pub fn find_room(alloc: Global, problem: &Problem) -> Result<Option<Room>, AllocError>
    ensures { IfOk result (λ found. IfSome found (λ room. is_too_little problem.now room ≡ true)) }
{
    find_room_until(alloc, problem, &mut Endless)
}

/// Room as `find_room` gives it, looked for until the watch ends that: then there may be none.
pub fn find_room_until<W: ReasonWatch>(
    alloc: Global,
    problem: &Problem,
    watch: &mut W,
) -> Result<Option<Room>, AllocError>
    ensures { IfOk result (λ found. IfSome found (λ room. is_too_little problem.now room ≡ true)) }
{
    let found = search_room(alloc, problem, watch)?;
    match found {
        // (tested once more, so nothing has to be proved of how it was found)
        Some(room) if is_too_little(problem, &room) => Ok(Some(room)),
        _ => Ok(None),
    }
}

/// Room that may be too little.
fn search_room<W: ReasonWatch>(
    alloc: Global,
    problem: &Problem,
    watch: &mut W,
) -> Result<Option<Room>, AllocError> {
    let neighbours = Neighbours::new(alloc, problem, watch)?;
    if watch.look() {
        return Ok(None);
    }
    let bare = bare_room(alloc, problem, &neighbours)?;
    if bare.is_some() {
        return Ok(bare);
    }
    let mut finder = Finder::new(alloc, problem)?;
    let paired = finder.paired_room(alloc, problem, &neighbours, watch)?;
    if paired.is_some() {
        return Ok(paired);
    }
    finder.least_room(alloc, problem, &neighbours, watch)
}

/// The room, where it is too little.
fn tested(problem: &Problem, room: Room) -> Option<Room> {
    if is_too_little(problem, &room) {
        return Some(room);
    }
    None
}

/// That a primary item needs an option, where it has none.
fn bare_room(
    alloc: Global,
    problem: &Problem,
    neighbours: &Neighbours,
) -> Result<Option<Room>, AllocError> {
    for item in 0..problem.primary() {
        if neighbours.options(item).is_empty() {
            let mut needs = Row::zeros(alloc, problem.primary())?;
            needs.put(item, 1);
            return Ok(tested(problem, Room::from_parts(needs.into_vec(), Vec::new(alloc))));
        }
    }
    Ok(None)
}

/// The items in the order in which their kinds are looked at: secondary ones first, and of these the ones that stand
/// beside most primary items; the only error is out of memory.
fn seeds(
    alloc: Global,
    problem: &Problem,
    neighbours: &Neighbours,
) -> Result<Vec<u16>, AllocError> {
    let mut seeds = Vec::with_capacity(alloc, problem.items())?;
    for item in 0..problem.items() as u16 {
        seeds.push(item)?;
    }
    let primary = problem.primary();
    seeds.sort_by_key(|item| {
        let place = *item as usize;
        (place < primary, u32::MAX - neighbours.owner_count(place))
    })?;
    Ok(seeds)
}

/// What the search keeps from one kind to the next.
#[derive(Drop)]
struct Finder {
    kind: Kind,
    demand: Demand,
    matching: Matching,
    sides: Sides,
    /// How many nodes the problem has: so many items of options are added up where room is tested.
    nodes: usize,
    /// About how many items of options were looked at so far, and words of sets.
    steps: usize,
}

impl Finder {
    fn new(alloc: Global, problem: &Problem) -> Result<Finder, AllocError> {
        Ok(Finder {
            kind: Kind::new(alloc, problem)?,
            demand: Demand::new(alloc, problem)?,
            matching: Matching::new(alloc, problem)?,
            sides: Sides::new(alloc, problem)?,
            nodes: nodes_of(problem),
            steps: 0,
        })
    }

    /// Of the room of all kinds that is too little the smallest.
    fn least_room<W: ReasonWatch>(
        &mut self,
        alloc: Global,
        problem: &Problem,
        neighbours: &Neighbours,
        watch: &mut W,
    ) -> Result<Option<Room>, AllocError> {
        let mut least = None;
        let seeds = seeds(alloc, problem, neighbours)?;
        for one in &seeds {
            if self.steps > MOST_STEPS || watch.look() {
                break;
            }
            if self.kind.is_new(neighbours, *one as usize) {
                let found = self.room_of_kind(alloc, problem, neighbours, *one as usize, watch)?;
                least = lesser(least, found);
            }
        }
        Ok(least)
    }

    /// Room of the kind of an item, or of a part of it where the watch ends that.
    fn room_of_kind<W: ReasonWatch>(
        &mut self,
        alloc: Global,
        problem: &Problem,
        neighbours: &Neighbours,
        one: usize,
        watch: &mut W,
    ) -> Result<Option<Room>, AllocError> {
        let steps = self.kind.set(problem, neighbours, one, watch);
        self.steps = self.steps.saturating_add(steps);
        let found = self.matched_kind(alloc, problem, neighbours, watch)?;
        if found.is_some() || !self.kind.widen(problem, neighbours) {
            return Ok(found);
        }
        self.matched_kind(alloc, problem, neighbours, watch)
    }

    /// Room of the kind as it is.
    fn matched_kind<W: ReasonWatch>(
        &mut self,
        alloc: Global,
        problem: &Problem,
        neighbours: &Neighbours,
        watch: &mut W,
    ) -> Result<Option<Room>, AllocError> {
        let steps = need_kind(problem, neighbours, &self.kind, &mut self.demand, watch);
        self.steps = self.steps.saturating_add(steps);
        self.unmet_room(alloc, problem)
    }

    /// The room for which the demand is too large.
    fn unmet_room(&mut self, alloc: Global, problem: &Problem) -> Result<Option<Room>, AllocError> {
        let met = self.matching.meets(problem, &self.demand);
        self.steps = self.steps.saturating_add(self.matching.steps());
        if met {
            return Ok(None);
        }
        let room = self.matching.room(alloc, problem, &self.demand)?;
        self.steps = self.steps.saturating_add(self.nodes);
        Ok(tested(problem, room))
    }

    /// Room of one side, where each option names two primary items.
    fn paired_room<W: ReasonWatch>(
        &mut self,
        alloc: Global,
        problem: &Problem,
        neighbours: &Neighbours,
        watch: &mut W,
    ) -> Result<Option<Room>, AllocError> {
        if !are_pairs(problem) {
            return Ok(None);
        }
        for item in 0..problem.primary() {
            if watch.look() {
                break;
            }
            if !self.sides.has(item) {
                self.sides.clear();
                self.sides.spread(problem, neighbours, item);
                let found = self.room_of_sides(alloc, problem, neighbours)?;
                if found.is_some() {
                    return Ok(found);
                }
            }
        }
        Ok(None)
    }

    /// Room of one of two sides.
    fn room_of_sides(
        &mut self,
        alloc: Global,
        problem: &Problem,
        neighbours: &Neighbours,
    ) -> Result<Option<Room>, AllocError> {
        // (where the sides differ in size, that alone is a reason; else some of one side may have too few beside them)
        let whole = whole_sides(alloc, problem, &self.sides)?;
        if whole.is_some() {
            return Ok(whole);
        }
        need_side(problem, neighbours, &self.sides, &mut self.demand);
        self.unmet_room(alloc, problem)
    }
}

/// Makes the demand what primary items need of a kind, or what some of them do where the watch ends that. Returns how
/// many items were looked at.
fn need_kind<W: ReasonWatch>(
    problem: &Problem,
    neighbours: &Neighbours,
    kind: &Kind,
    demand: &mut Demand,
    watch: &mut W,
) -> usize {
    demand.clear();
    let mut steps: usize = 0;
    for owner in 0..problem.primary() {
        if kind.owners().has(owner) && !kind.items().has(owner) {
            if watch.look() {
                break;
            }
            let options = neighbours.options(owner);
            let more = demand.set_by_kind(problem, options, kind.items(), owner);
            steps = steps.saturating_add(more);
        }
    }
    steps
}

/// Makes the demand that each item of the first side needs one beside which it stands.
fn need_side(problem: &Problem, neighbours: &Neighbours, sides: &Sides, demand: &mut Demand) {
    demand.clear();
    for item in 0..problem.primary() {
        if let Some(beside) = neighbours.owners(item)
            && sides.first().has(item)
        {
            demand.set_one(item, beside);
        }
    }
}

/// That the items of the larger side need those of the smaller one.
fn whole_sides(
    alloc: Global,
    problem: &Problem,
    sides: &Sides,
) -> Result<Option<Room>, AllocError> {
    let (first, second) = (sides.first(), sides.second());
    if first.count() < second.count() {
        return room_between(alloc, problem, second, first);
    }
    room_between(alloc, problem, first, second)
}

/// That each of some items needs one of others.
fn room_between(
    alloc: Global,
    problem: &Problem,
    needing: &Bits,
    having: &Bits,
) -> Result<Option<Room>, AllocError> {
    let needs = ones_of(alloc, problem.primary(), needing)?;
    let rooms = ones_of(alloc, problem.primary(), having)?;
    let room = Room::from_parts(needs.into_vec(), rooms.into_vec());
    Ok(tested(problem, room))
}

/// Of two rooms the smaller one, the first of equals.
fn lesser(one: Option<Room>, other: Option<Room>) -> Option<Room> {
    match (one, other) {
        (Some(one), Some(other)) => {
            if other.size() < one.size() {
                Some(other)
            } else {
                Some(one)
            }
        }
        (None, other) => other,
        (one, None) => one,
    }
}
