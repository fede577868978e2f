//! The lines of a certificate that learn clauses.

ghost use Rattle.std.specs.Prelude.{◌≡◌, ℕ, Bool, [], None, IfOk};
ghost use Rattle.cover_problem.specs.ExactCover.{IsExactCover};
ghost use Rattle.cover_problem.specs.Search.{first};

use crate::checked::Checked;
use crate::clause_line::ClauseLine;
use crate::expected::Expected;
use crate::fault::Fault;
use crate::script::{Script, cut, number_of};
use cover_problem::Problem;
use implied_clauses::ImpliedClauses;
use std::alloc::{AllocError, Global};

/// Tests whether the lines that are left learn the empty clause; the only error is out of memory.
pub(crate) fn check_clauses(
    alloc: Global,
    problem: &Problem,
    script: &mut Script<'_>,
) -> Result<Checked, AllocError>
    ensures cover { IfOk result (λ checked. checked ≡ Checked.Right →
        (chosen : ℕ → Bool) → IsExactCover problem.now chosen → ⊥) }
    ensures first { IfOk result (λ checked. checked ≡ Checked.Right → first problem.now [] ≡ None) }
{
    let mut clauses = ImpliedClauses::new(alloc, problem)?;
    match learn_lines(alloc, &mut clauses, script) {
        Ok(()) => Ok(end_of(&clauses, script)),
        Err(Fault::Wrong(expected)) => Ok(Checked::Wrong(script.lines(), expected)),
        Err(Fault::Memory) => Err(AllocError),
    }
}

/// Returns what the test comes to where all lines that were read are as expected.
fn end_of(clauses: &ImpliedClauses<'_>, script: &Script<'_>) -> Checked
    ensures cover { result ≡ Checked.Right →
        (chosen : ℕ → Bool) → IsExactCover clauses.now.problem chosen → ⊥ }
    ensures first { result ≡ Checked.Right → first clauses.now.problem [] ≡ None }
{
    let next = script.lines().saturating_add(1);
    if !clauses.is_refuted() {
        return Checked::Wrong(next, Expected::Clause);
    }
    if !script.is_over() {
        return Checked::Wrong(next, Expected::End);
    }
    Checked::Right
}

/// Learns and forgets clauses as the lines say, until the empty clause is learned or the text ends.
fn learn_lines(
    alloc: Global,
    clauses: &mut ImpliedClauses<'_>,
    script: &mut Script<'_>,
) -> Result<(), Fault>
    ensures { clauses.new.problem ≡ clauses.old.problem }
{
    let mut learned = ClauseLine::new(alloc, clauses.problem().options());
    // (each line has a byte at least)
    for _ in 0..script.left() {
        if clauses.is_refuted() {
            break;
        }
        take_line(alloc, clauses, script.line(), &mut learned)?;
    }
    Ok(())
}

/// Learns a clause, or forgets one, as a line says.
fn take_line(
    alloc: Global,
    clauses: &mut ImpliedClauses<'_>,
    line: &[u8],
    learned: &mut ClauseLine,
) -> Result<(), Fault>
    ensures { clauses.new.problem ≡ clauses.old.problem }
{
    if line.first() == Some(&b'd') {
        return forget(clauses, line);
    }
    learned.read(line)?;
    learn(alloc, clauses, learned)
}

/// Learns a clause, which gets the next number.
fn learn(alloc: Global, clauses: &mut ImpliedClauses<'_>, learned: &ClauseLine) -> Result<(), Fault>
    ensures { clauses.new.problem ≡ clauses.old.problem }
{
    let number = clauses.places();
    if !clauses.learn(alloc, number, learned.literals(), learned.hints())? {
        return Err(Fault::Wrong(Expected::Following));
    }
    Ok(())
}

/// Forgets the clause whose number stands behind the word of a line.
fn forget(clauses: &mut ImpliedClauses<'_>, line: &[u8]) -> Result<(), Fault>
    ensures { clauses.new.problem ≡ clauses.old.problem }
{
    let (word, digits) = cut(line, b' ');
    let Some(number) = number_of(digits) else {
        return Err(Fault::Wrong(Expected::KnownClause));
    };
    if word != b"d".as_slice() || clauses.clause(number as usize).is_none() {
        return Err(Fault::Wrong(Expected::KnownClause));
    }
    clauses.forget(number as usize);
    Ok(())
}
