//! How many items of a class primary items need, no two of which stand in one option, and which ones they may have.

ghost use Rattle.std.specs.Prelude.{◌≡◌};

use crate::classes::Classes;
use cover_problem::Problem;
use cover_reasons::{Bits, Demand};
use std::alloc::{AllocError, Global};

/// Whether none of these options is taken.
fn are_free(taken: &Bits, options: &[u16]) -> bool {
    options.iter().all(|option| !taken.has(*option as usize))
}

/// Takes these options.
fn take(taken: &mut Bits, options: &[u16]) {
    for option in options {
        taken.insert(*option as usize);
    }
}

/// Makes the demand what primary items need of a class, at least: as many as each of their options names. Of items that
/// an option has in common only the first needs any. Returns about how many items of options were looked at. The only
/// error is out of memory.
pub(crate) fn need_class(
    alloc: Global,
    problem: &Problem,
    classes: &Classes,
    class: u16,
    demand: &mut Demand,
) -> Result<usize, AllocError> {
    demand.clear();
    let members = classes.members(alloc, problem, class)?;
    let mut taken = Bits::empty(alloc, problem.options())?;
    let mut steps: usize = 0;
    for item in 0..problem.primary() {
        let options = classes.options(item);
        if are_free(&taken, options) {
            let more = demand.set_by_kind(problem, options, &members, item);
            steps = steps.saturating_add(more);
            if demand.need(item) != 0 {
                take(&mut taken, options);
            }
        }
    }
    Ok(steps)
}
