//! An exact cover of a problem, or that there is none, by learning.

ghost use Rattle.std.specs.Prelude.{◌≡◌, IfOk, IfSome};
ghost use Rattle.learner.specs.Covers.{IsCoverOf};
ghost use Rattle.learner.specs.Found.{IsTrueOf};

use crate::figures::{Figures, LearnerWatch};
use crate::learner::{End, Learner};
use crate::settings::Settings;
use cover_problem::{Numbers, Problem, Verdict, check_cover, in_order};
use std::alloc::{AllocError, Global};

/// What a learner found.
#[derive(Debug, Drop)]
pub enum Found {
    /// An exact cover: the numbers of its options, in the order of the file.
    Cover(Numbers),
    /// That there is none.
    NoCover,
    /// Nothing: the watch stopped it, or there was no room.
    Stopped,
}

/// Returns the options in the order of the file, if they are an exact cover. The only error is out of memory.
pub fn counted(
    alloc: Global,
    problem: &Problem,
    chosen: &[u16],
) -> Result<Option<Numbers>, AllocError>
    ensures { IfOk result (λ cover. IfSome cover (IsCoverOf problem.now)) }
{
    let cover = in_order(alloc, problem, chosen)?;
    match check_cover(problem, cover.as_slice()) {
        Verdict::Exact => Ok(Some(cover)),
        _ => Ok(None),
    }
}

/// Returns the cover that was counted, if there is one.
fn cover_or_stopped(problem: &Problem, cover: Option<Numbers>) -> Found
    requires { IfSome cover (IsCoverOf problem.now) }
    ensures { IsTrueOf problem.now result }
{
    match cover {
        Some(cover) => Found::Cover(cover),
        None => Found::Stopped,
    }
}

/// Returns that there is no cover, if the kernel says so.
fn refuted(problem: &Problem, learner: &Learner<'_>) -> Found
    requires { learner.now ≡ problem.now }
    ensures { IsTrueOf problem.now result }
{
    if learner.is_refuted() {
        Found::NoCover
    } else {
        Found::Stopped
    }
}

/// Returns what a search that ended so has found. The only error is out of memory.
fn found_at(
    alloc: Global,
    problem: &Problem,
    learner: &Learner<'_>,
    end: End,
) -> Result<Found, AllocError>
    requires { learner.now ≡ problem.now }
    ensures { IfOk result (IsTrueOf problem.now) }
{
    match end {
        End::Assigned => {
            let chosen = learner.chosen()?;
            let cover = counted(alloc, problem, &chosen)?;
            Ok(cover_or_stopped(problem, cover))
        }
        End::Refuted => Ok(refuted(problem, learner)),
        // (none was given, so none was left)
        End::Excluded(_) | End::Stopped => Ok(Found::Stopped),
    }
}

/// Searches for an exact cover until one is found, it is known that there is none, or the watch stops the search.
/// Returns what was found and what was done.
///
/// # Errors
///
/// Out of memory.
pub fn find_cover<W: LearnerWatch>(
    alloc: Global,
    problem: &Problem,
    settings: Settings,
    watch: &mut W,
) -> Result<(Found, Figures), AllocError>
    ensures { IfOk result (λ found. IsTrueOf problem.now found.0) }
{
    let mut learner = Learner::new(alloc, problem, settings)?;
    let end = learner.search(watch)?;
    let found = found_at(alloc, problem, &learner, end)?;
    Ok((found, learner.figures()))
}
