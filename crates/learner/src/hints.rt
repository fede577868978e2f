//! Why a clause follows: the clauses along which the kernel is to propagate.

use crate::analysis::Analysis;
use crate::causes::{hint_of, write_row};
use crate::layout::Layout;
use crate::packed::Packed;
use crate::proof::Proof;
use crate::store::Store;
use crate::trail::{Cause, Trail};
use implied_clauses::Hint;
use std::alloc::AllocError;

/// Adds the hint of a clause, if there is one. The only error is out of memory.
fn push_cause(store: &Store, cause: Cause, hints: &mut Vec<Hint>) -> Result<(), AllocError> {
    if let Some(hint) = hint_of(store, cause) {
        hints.push(hint)?;
    }
    Ok(())
}

/// Adds the hints that literals are false which are settled.
fn push_units(proof: &Proof<'_>, row: &[Packed], hints: &mut Vec<Hint>) -> Result<(), AllocError> {
    for literal in row {
        hints.push(proof.unit(literal.option()))?;
    }
    Ok(())
}

/// Adds the hints of what was settled before any decision.
fn push_settled(
    analysis: &Analysis,
    proof: &Proof<'_>,
    hints: &mut Vec<Hint>,
) -> Result<(), AllocError> {
    for option in analysis.touched() {
        if analysis.rests_on(*option) {
            hints.push(proof.unit(*option))?;
        }
    }
    Ok(())
}

/// Adds the hints of the causes that were used, in the order of the trail.
fn push_resolved(
    analysis: &Analysis,
    trail: &Trail,
    store: &Store,
    hints: &mut Vec<Hint>,
) -> Result<(), AllocError> {
    for position in analysis.resolved() {
        let cause = trail.step(trail.literal(*position).option()).cause;
        push_cause(store, cause, hints)?;
    }
    Ok(())
}

/// Writes the hints of a clause whose other literals are settled. The only error is out of memory.
pub fn hint_settled(
    layout: &Layout,
    store: &Store,
    proof: &Proof<'_>,
    (cause, implied): (Cause, Packed),
    row: &mut Vec<Packed>,
    hints: &mut Vec<Hint>,
) -> Result<(), AllocError> {
    hints.clear();
    write_row(layout, store, cause, implied, row)?;
    push_units(proof, row, hints)?;
    push_cause(store, cause, hints)
}

/// Writes the hints of a clause that rests on what was explained last. The only error is out of memory.
pub fn hint_explained(
    analysis: &Analysis,
    trail: &Trail,
    store: &Store,
    proof: &Proof<'_>,
    hints: &mut Vec<Hint>,
) -> Result<(), AllocError> {
    hints.clear();
    push_settled(analysis, proof, hints)?;
    push_resolved(analysis, trail, store, hints)
}

/// Writes the hints of the clause that was learned where another one was falsified. The only error is out of memory.
pub fn hint_learned(
    analysis: &Analysis,
    trail: &Trail,
    store: &Store,
    proof: &Proof<'_>,
    falsified: Cause,
    hints: &mut Vec<Hint>,
) -> Result<(), AllocError> {
    hints.clear();
    push_settled(analysis, proof, hints)?;
    push_resolved(analysis, trail, store, hints)?;
    push_cause(store, falsified, hints)
}
