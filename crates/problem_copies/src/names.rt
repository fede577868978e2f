//! Copies of names.

ghost use Rattle.std.specs.Prelude.{◌≡◌, ◌<◌, IfOk};

use cover_problem::{Name, Problem};
use std::alloc::{AllocError, Global};

/// A name with these bytes; the only error is out of memory.
pub fn name_by(alloc: Global, bytes: &[u8]) -> Result<Name, AllocError>
    ensures { IfOk result (λ name. name ≡ bytes.now) }
{
    Ok(Name::from_vec(Vec::from_slice(alloc, bytes)?))
}

/// A copy of the names of the problem's items. The only error is out of memory.
#[tactic(auto, using(crate::proofs::Growing::one_more_of, crate::proofs::Growing::all_of))]
pub fn names_of(alloc: Global, problem: &Problem) -> Result<Vec<Name>, AllocError>
    ensures { IfOk result (λ names. names.items ≡ problem.now.names) }
{
    // (with room for one more: callers may put a further name behind them)
    let mut names = Vec::with_capacity(alloc, problem.items() + 1)?;
    for item in 0..problem.items() as u16 {
        let name = name_by(alloc, problem.name(item))?;
        names.push(name)?;
    }
    Ok(names)
}

/// A copy of the names of its colours. The only error is out of memory.
#[tactic(auto, using(crate::proofs::Growing::one_more_of, crate::proofs::Growing::all_of))]
pub fn colour_names_of(alloc: Global, problem: &Problem) -> Result<Vec<Name>, AllocError>
    ensures { IfOk result (λ names. names.items ≡ problem.now.colour_names) }
{
    let mut names = Vec::with_capacity(alloc, problem.colour_names())?;
    for colour in 0..problem.colour_names() as u16 {
        let name = name_by(alloc, problem.colour_name(colour + 1))?;
        names.push(name)?;
    }
    Ok(names)
}
