//! Which learned clauses are dropped where there are too many.
//!
//! The worse half goes, by Glucose's measure: clauses whose literals became false at many levels, and of equal ones
//! those that weren't used for longest. Clauses of two literals and those that are the cause of a literal stay. All
//! watches are made again then, which is simpler than to find those of dropped clauses.

ghost use Rattle.std.specs.Prelude.{◌≡◌};

use crate::figures::LearnerWatch;
use crate::packed::Packed;
use crate::proof::Proof;
use crate::store::Store;
use crate::tables::at;
use crate::trail::{Cause, Trail};
use crate::watches::{Watches, node_of};
use std::alloc::{AllocError, Global};

/// Clauses of at most so many levels are kept, as in Glucose (Audemard and Simon): they join two levels ("glue
/// clauses"). Not measured here.
const KEPT_GLUE: u16 = 2;

/// A clause that may be dropped: how many levels below 2^16 it has fewer, in which conflict it was used last, and its
/// number. The least is the worst.
type Candidate = (u16, u64, u32);

/// Returns whether the clause is the cause of a literal.
fn is_cause(trail: &Trail, store: &Store, number: u32) -> bool {
    for literal in store.row(number) {
        if let Cause::Clause(own) = trail.step(literal.option()).cause
            && own == number
        {
            return true;
        }
    }
    false
}

/// Returns the clauses that may be dropped, the worst first.
fn candidates(alloc: Global, trail: &Trail, store: &Store) -> Result<Vec<Candidate>, AllocError> {
    let mut list = Vec::new(alloc);
    for number in 0..(store.bound() & 0xffff_ffff) as u32 {
        let clause = store.clause(number);
        if store.row(number).len() < 3 || clause.glue <= KEPT_GLUE {
            continue;
        }
        if is_cause(trail, store, number) {
            continue;
        }
        list.push((u16::MAX - clause.glue, clause.used, number))?;
    }
    list.as_mut_slice().sort_unstable();
    Ok(list)
}

/// Drops clauses.
fn drop_all<W: LearnerWatch>(
    store: &mut Store,
    proof: &mut Proof<'_>,
    list: &[Candidate],
    watch: &mut W,
) -> Result<(), AllocError>
    ensures { proof.new ≡ proof.old }
{
    for candidate in list {
        proof.forget(store.clause(candidate.2).place, watch)?;
        store.drop_clause(candidate.2);
    }
    Ok(())
}

/// Drops the worse half of the clauses that may be dropped, and gives back their room.
pub fn reduce<W: LearnerWatch>(
    alloc: Global,
    trail: &Trail,
    store: &mut Store,
    watches: &mut Watches,
    proof: &mut Proof<'_>,
    watch: &mut W,
) -> Result<(), AllocError>
    ensures { proof.new ≡ proof.old }
{
    let list = candidates(alloc, trail, store)?;
    let worse = list.len() / 2;
    if let Some(worst) = list.get(..worse) {
        drop_all(store, proof, worst, watch)?;
    }
    store.compact(alloc)?;
    watch_all(store, watches);
    Ok(())
}

/// Makes all watches again.
fn watch_all(store: &Store, watches: &mut Watches) {
    watches.clear();
    for number in 0..(store.bound() & 0xffff_ffff) as u32 {
        watch_first_two(store, watches, number);
    }
}

/// Lets a clause watch its first two literals.
pub fn watch_first_two(store: &Store, watches: &mut Watches, number: u32) {
    let row = store.row(number);
    if row.len() < 2 {
        return;
    }
    let first = at(row, 0, Packed::NONE);
    let second = at(row, 1, Packed::NONE);
    watches.link(first, node_of(number, false), second);
    watches.link(second, node_of(number, true), first);
}
