//! The clauses that hold without a proof: one of the options of each primary item is chosen.

ghost use Rattle.std.specs.Prelude.{◌≡◌, ℕ, ◌<◌, ◌++◌, ◌∷◌, [], length, map, replicate, slice_index_or, Some, None, IfOk, OnOk};
ghost use Rattle.std.specs.Option.{option_map};
ghost use Rattle.cover_problem.specs.Problem.{IsProblem};
ghost use Rattle.implied_clauses.specs.Clauses.{item_clauses};
ghost use Rattle.implied_clauses.specs.Items.{with_option, with_option_at};

use crate::clause::Clause;
use crate::literal::Literal;
use cover_problem::Problem;
use std::alloc::{AllocError, Global};

/// Adds a literal to the clause of a place, if there is one; the only error is out of memory.
fn add_literal(slot: &mut Option<Clause>, literal: Literal) -> Result<(), AllocError>
    ensures { OnOk result (slot.new ≡ option_map (λ clause. clause ++ literal ∷ []) slot.old) }
{
    match slot {
        Some(clause) => clause.push(literal),
        None => Ok(()),
    }
}

/// Adds an option to the clause of an item, if that is primary: the others have no clause. The only error is out of
/// memory.
#[tactic(auto, using(std::proofs::lemmas::List::set_past))]
fn add_to_item(clauses: &mut [Option<Clause>], item: u16, option: u16) -> Result<(), AllocError>
    ensures long { length clauses.new ≡ length clauses.old }
    ensures added { OnOk result (clauses.new ≡ with_option_at option item clauses.old) }
{
    if (item as usize) >= clauses.len() {
        return Ok(());
    }
    add_literal(&mut clauses[item as usize], Literal::Chosen(option))
}

/// Adds an option to the clauses of the primary items that it names; the only error is out of memory.
fn add_option(
    problem: &Problem,
    clauses: &mut [Option<Clause>],
    option: u16,
) -> Result<(), AllocError>
    requires problem { IsProblem problem.now }
    requires option { option < length problem.now.options }
    ensures long { length clauses.new ≡ length clauses.old }
    ensures each { OnOk result ((item : ℕ) → item < length clauses.old →
        slice_index_or clauses.new item None
        ≡ with_option problem.now option item (slice_index_or clauses.old item None)) }
{
    for item in problem.option(option) {
        add_to_item(clauses, *item, option)?;
    }
    Ok(())
}

/// Returns so many empty clauses; the only error is out of memory.
fn empty_clauses(alloc: Global, count: usize) -> Result<Vec<Option<Clause>>, AllocError>
    ensures { IfOk result (λ clauses. clauses.items ≡ replicate count (Some [])) }
{
    let mut clauses = Vec::with_capacity(alloc, count)?;
    for _place in 0..count {
        clauses.push(Some(Clause::empty(alloc)))?;
    }
    Ok(clauses)
}

/// Returns the clause of each primary item, at the item's place, in one pass over the options; the only error is out of
/// memory.
pub fn item_clauses(alloc: Global, problem: &Problem) -> Result<Vec<Option<Clause>>, AllocError>
    ensures { IfOk result (λ clauses. clauses.items ≡ item_clauses problem.now) }
{
    problem.recall_rules();
    let mut clauses = empty_clauses(alloc, problem.primary())?;
    for option in 0..problem.options() as u16 {
        add_option(problem, &mut clauses, option)?;
    }
    Ok(clauses)
}
