//! Marks by which a test shows where a call begins and ends, so that memory can be refused to that call from outside.
//!
//! A mark asks for memory of a size that nothing else asks for. `trials/refuse_growth.c` sees it, and knows the same
//! numbers.
#![tactic(auto)]

ghost use Rattle.std.specs.Prelude.{◌≡◌, ◌+◌, ◌<◌, if◌then◌else◌, vec_capacity, IfOk};

use std::alloc::{AllocError, Global};

/// Nothing else in a test asks for so many bytes, or for a few hundred more.
const MARK: usize = 6_000_000;

/// The numbers of an end: the call was answered, or memory was refused to it.
const ANSWERED: usize = 128;

const REFUSED: usize = 129;

/// Marks that the call with this number begins. The room is returned only to be dropped.
///
/// # Errors
///
/// There is no memory for the mark.
pub fn begin(alloc: Global, number: usize) -> Result<Vec<u8>, AllocError>
    requires { number < 128 }
    ensures { IfOk result (λ room. vec_capacity room ≡ 6000000 + number) }
{
    Vec::with_capacity(alloc, MARK + number)
}

/// Marks that the call has ended, and whether memory was refused to it. The room is returned only to be dropped.
///
/// # Errors
///
/// There is no memory for the mark.
pub fn end(alloc: Global, refused: bool) -> Result<Vec<u8>, AllocError>
    ensures { IfOk result (λ room. vec_capacity room ≡ (if refused then 6000129 else 6000128)) }
{
    let number = if refused { REFUSED } else { ANSWERED };
    Vec::with_capacity(alloc, MARK + number)
}
