//! The search for room that is too little by multipliers of any size.
//!
//! By Farkas' lemma there is such room just where a problem's linear relaxation has no solution (`fractional_room`).
//! Where kinds of items have none, as in a timetable that lacks a teacher here and a room there, it is found still, but
//! a reader has to add up more.

ghost use Rattle.std.specs.Prelude.{◌≡◌, true, IfOk, IfSome};
ghost use Rattle.cover_reasons.specs.Room.{is_too_little};

use crate::reason_watch::ReasonWatch;
use crate::room::Room;
use crate::room_test::is_too_little;
use cover_problem::Problem;
use fractional_room::{Progress, Simplex};
use std::alloc::{AllocError, Global};

/// How many pivots are made at most. A file of 1,000 items takes some 5,000; four times that was chosen, as no proof
/// says that the method ends.
const MOST_PIVOTS: usize = 20_000;

/// How many numbers are changed at most: one to three seconds.
const MOST_STEPS: usize = 4_000_000_000;

/// How many scales are tried at most, up to 65,535. Chosen, not measured: mostly a few times the number of items over
/// what is missing is enough.
const MOST_SCALES: usize = 200;

/// Room that is too little, with multipliers as small as the scales let them be, if it is found before the watch ends
/// that. Where none is found there may be a cover or none. The only error is out of memory.
pub fn find_fractional_room_until<W: ReasonWatch>(
    alloc: Global,
    problem: &Problem,
    watch: &mut W,
) -> Result<Option<Room>, AllocError>
    ensures { IfOk result (λ found. IfSome found (λ room. is_too_little problem.now room ≡ true)) }
{
    if watch.look() {
        return Ok(None);
    }
    let mut simplex = Simplex::new(alloc, problem)?;
    if !has_basis(alloc, &mut simplex, watch)? || !is_infeasible(&mut simplex, watch) {
        return Ok(None);
    }
    scaled_room(alloc, problem, &simplex)
}

/// Adds the lines of the first basis. Returns whether it has all, which it hasn't where the watch ends that; the only
/// error is out of memory.
fn has_basis<W: ReasonWatch>(
    alloc: Global,
    simplex: &mut Simplex,
    watch: &mut W,
) -> Result<bool, AllocError> {
    for _ in 0..simplex.rows() {
        if watch.look() {
            return Ok(false);
        }
        simplex.add_line(alloc)?;
    }
    Ok(true)
}

/// Pivots to the end, or until the watch ends that. Returns whether multipliers were found.
fn is_infeasible<W: ReasonWatch>(simplex: &mut Simplex, watch: &mut W) -> bool {
    for _ in 0..MOST_PIVOTS {
        if simplex.steps() > MOST_STEPS || watch.look() {
            return false;
        }
        match simplex.pivot() {
            Progress::Going => {}
            Progress::Infeasible => return true,
            Progress::Feasible | Progress::Lost => return false,
        }
    }
    false
}

/// The multipliers by the first scale by which they are a reason.
fn scaled_room(
    alloc: Global,
    problem: &Problem,
    simplex: &Simplex,
) -> Result<Option<Room>, AllocError>
    ensures { IfOk result (λ found. IfSome found (λ room. is_too_little problem.now room ≡ true)) }
{
    let mut scale: u16 = 1;
    for _ in 0..MOST_SCALES {
        let (needs, rooms) = simplex.rounded(alloc, problem, scale)?.into_parts();
        let room = Room::from_parts(needs, rooms);
        if is_too_little(problem, &room) {
            return Ok(Some(room));
        }
        // (each of the first 16, then by a sixteenth more: rounded numbers needn't be the exact ones)
        scale = scale.saturating_add(1 + scale / 16);
    }
    Ok(None)
}
