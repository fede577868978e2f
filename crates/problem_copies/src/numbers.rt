//! Copies of lists of numbers.

ghost use Rattle.std.specs.Prelude.{◌≡◌, ◌<◌, IfOk};

use cover_problem::{Numbers, Problem};
use std::alloc::{AllocError, Global};

/// A list of these numbers; the only error is out of memory.
pub fn numbers_by(alloc: Global, numbers: &[u16]) -> Result<Numbers, AllocError>
    ensures { IfOk result (λ copied. copied ≡ numbers.now) }
{
    Ok(Numbers::from_vec(Vec::from_slice(alloc, numbers)?))
}

/// A copy of the colours of each option. The only error is out of memory.
#[tactic(auto, using(crate::proofs::Growing::one_more_of, crate::proofs::Growing::all_of, crate::proofs::Growing::colours_count))]
pub fn colours_by_option(alloc: Global, problem: &Problem) -> Result<Vec<Numbers>, AllocError>
    ensures { IfOk result (λ colours. colours.items ≡ problem.now.colours) }
{
    problem.recall_rules();
    let mut colours = Vec::with_capacity(alloc, problem.options())?;
    for option in 0..problem.options() as u16 {
        let copied = numbers_by(alloc, problem.colours(option))?;
        colours.push(copied)?;
    }
    Ok(colours)
}
