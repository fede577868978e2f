//! The search for weights that exclude an exact cover, modulo each of some small numbers.
//!
//! Fractions come later (`fractional_finder`): it takes longer to find them, and whole numbers modulo m can be added up
//! by hand.

ghost use Rattle.std.specs.Prelude.{◌≡◌, ◌≤◌, true, IfOk, IfSome};
ghost use Rattle.cover_reasons.specs.Weights.{excludes};

use crate::null_space::NullSpace;
use crate::reason_watch::{Endless, ReasonWatch};
use crate::weights::Weights;
use crate::weights_test::excludes;
use cover_problem::Problem;
use std::alloc::{AllocError, Global};

/// Weights modulo one of these numbers that exclude an exact cover: modulo the first of the numbers that has such
/// weights. Numbers beyond 2 to 127 are passed over, and only a prime or a power of one is looked at as it should be.
///
/// Where it finds none there may be a cover or none, and there may be such weights modulo other numbers. It takes
/// memory of the order of the primary items' square. The only error is out of memory. The program calls
/// `find_weights_until`.
pub fn find_weights(
    alloc: Global,
    problem: &Problem,
    moduli: &[u8],
) -> Result<Option<Weights>, AllocError>
    ensures { IfOk result (λ found. IfSome found (λ weights. excludes problem.now weights ≡ true)) }
{
    find_weights_until(alloc, problem, moduli, &mut Endless)
}

/// Weights as `find_weights` gives them, looked for until the watch ends that: then there are none.
pub fn find_weights_until<W: ReasonWatch>(
    alloc: Global,
    problem: &Problem,
    moduli: &[u8],
    watch: &mut W,
) -> Result<Option<Weights>, AllocError>
    ensures { IfOk result (λ found. IfSome found (λ weights. excludes problem.now weights ≡ true)) }
{
    for modulus in moduli {
        // (two numbers below 128 are added in one byte)
        if *modulus >= 2 && *modulus < 128 {
            let found = weights_modulo(alloc, problem, *modulus, watch)?;
            if found.is_some() {
                return Ok(found);
            }
        }
    }
    Ok(None)
}

/// The same for one modulus.
fn weights_modulo<W: ReasonWatch>(
    alloc: Global,
    problem: &Problem,
    modulus: u8,
    watch: &mut W,
) -> Result<Option<Weights>, AllocError>
    requires { 2 ≤ modulus }
    ensures { IfOk result (λ found. IfSome found (λ weights. excludes problem.now weights ≡ true)) }
{
    if watch.look() {
        return Ok(None);
    }
    let mut null_space = NullSpace::new(alloc, modulus, problem.primary())?;
    if !are_balanced_by(&mut null_space, problem, watch) {
        return Ok(None);
    }
    let Some(place) = null_space.best(alloc)? else {
        return Ok(None);
    };
    let weights = Weights::from_parts(u32::from(modulus), null_space.vector(alloc, place)?);
    if excludes(problem, &weights) {
        return Ok(Some(weights));
    }
    Ok(None)
}

/// Makes each option weigh 0, as long as all items together weigh something and the watch doesn't end it. Returns
/// whether each one does.
fn are_balanced_by<W: ReasonWatch>(
    null_space: &mut NullSpace,
    problem: &Problem,
    watch: &mut W,
) -> bool {
    for option in 0..problem.options() as u16 {
        if !null_space.has_whole() || watch.look() {
            return false;
        }
        null_space.add(problem.option(option));
    }
    true
}
