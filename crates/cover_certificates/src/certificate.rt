//! Whether a text shows that a problem has no exact cover.

ghost use Rattle.std.specs.Prelude.{◌≡◌, ℕ, Bool, [], None, IfOk};
ghost use Rattle.cover_problem.specs.ExactCover.{IsExactCover};
ghost use Rattle.cover_problem.specs.Search.{first};
ghost use Rattle.cover_certificates.specs.Heads.{begins_certificate};

use crate::case::Case;
use crate::checked::Checked;
use crate::expected::Expected;
use crate::fault::Fault;
use crate::learning::check_clauses;
use crate::refuting::Refuter;
use crate::script::{Script, cut, is_number};
use crate::tables::Tables;
use cover_problem::Problem;
use std::alloc::{AllocError, Global};

/// What the lines behind the head of a certificate are.
enum Kind {
    /// Those of a search by cases.
    Cases,
    /// Those of clauses that are learned.
    Clauses,
}

/// Returns whether a text begins as a certificate does: with the line `none` and the first word of the next line.
pub fn begins_certificate(text: &[u8]) -> bool
    ensures { result ≡ begins_certificate text.now }
{
    text.starts_with(b"none\ncases ") || text.starts_with(b"none\nclauses ")
}

/// Tests whether a text is a certificate that a problem has no exact cover.
///
/// # Errors
///
/// Out of memory.
pub fn check_certificate(
    alloc: Global,
    problem: &Problem,
    text: &[u8],
) -> Result<Checked, AllocError>
    ensures cover { IfOk result (λ checked. checked ≡ Checked.Right →
        (chosen : ℕ → Bool) → IsExactCover problem.now chosen → ⊥) }
    ensures first { IfOk result (λ checked. checked ≡ Checked.Right → first problem.now [] ≡ None) }
{
    let mut script = Script::new(text);
    match take_head(&mut script, problem) {
        Ok(Kind::Cases) => check_cases(alloc, problem, script),
        Ok(Kind::Clauses) => check_clauses(alloc, problem, &mut script),
        Err(expected) => Ok(Checked::Wrong(script.lines(), expected)),
    }
}

/// Tests whether the lines that are left refute the problem by cases; the only error is out of memory.
fn check_cases(alloc: Global, problem: &Problem, script: Script<'_>) -> Result<Checked, AllocError>
    ensures cover { IfOk result (λ checked. checked ≡ Checked.Right →
        (chosen : ℕ → Bool) → IsExactCover problem.now chosen → ⊥) }
    ensures first { IfOk result (λ checked. checked ≡ Checked.Right → first problem.now [] ≡ None) }
{
    let tables = Tables::build(alloc, problem)?;
    let mut refuter = Refuter::new(alloc, &tables, script);
    check_lines(alloc, &tables, &mut refuter)
}

/// Tests whether the lines that are left refute the whole problem.
fn check_lines(alloc: Global, tables: &Tables, refuter: &mut Refuter) -> Result<Checked, AllocError>
    requires { refuter.old ≡ tables.now }
    ensures cover { IfOk result (λ checked. checked ≡ Checked.Right →
        (chosen : ℕ → Bool) → IsExactCover tables.now chosen → ⊥) }
    ensures first { IfOk result (λ checked. checked ≡ Checked.Right → first tables.now [] ≡ None) }
{
    let whole = Case::whole(alloc, tables)?;
    match refuter.refute(&whole, 0) {
        Ok(_) if refuter.is_over() => Ok(Checked::Right),
        Ok(_) => Ok(Checked::Wrong(refuter.lines().saturating_add(1), Expected::End)),
        Err(Fault::Wrong(expected)) => Ok(Checked::Wrong(refuter.lines(), expected)),
        Err(Fault::Memory) => Err(AllocError),
    }
}

/// Reads the two lines at the head, which name the kind of the text and the size of the problem.
fn take_head(script: &mut Script<'_>, problem: &Problem) -> Result<Kind, Expected> {
    if script.line() != b"none".as_slice() {
        return Err(Expected::None);
    }
    let (word, numbers) = cut(script.line(), b' ');
    let (items, options) = cut(numbers, b' ');
    if !is_number(items, problem.items()) || !is_number(options, problem.options()) {
        return Err(Expected::Counts);
    }
    if word == b"cases".as_slice() {
        return Ok(Kind::Cases);
    }
    if word == b"clauses".as_slice() {
        return Ok(Kind::Clauses);
    }
    Err(Expected::Counts)
}
