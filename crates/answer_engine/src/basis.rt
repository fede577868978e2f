//! What an answer rests on, and how that is written.

ghost use Rattle.std.specs.Prelude.{◌≡◌, ◌==◌, if◌then◌else◌, IfOk};
ghost use Rattle.answer_engine.specs.Bases.{basis_text, count_text};

use cover_problem::{Answer, Problem};
use itoa::Buffer;
use reason_engine::{Cause, cause_lines};
use std::alloc::{AllocError, Global};

/// What an answer rests on.
#[derive(Drop)]
pub enum Basis {
    /// A search that keeps states, and to how many it came.
    Search(u64),
    /// A reason that excludes covers.
    Reason(Cause),
    /// A learner, and how many clauses it learned.
    Learning(u64),
    /// A run in memory, and how many workers it had.
    Run(u64),
}

/// An answer, and what it rests on.
#[derive(Drop)]
pub struct Won {
    /// The answer.
    pub answer: Answer,
    /// What it rests on.
    pub basis: Basis,
}

impl Basis {
    /// The line of a log that says what answered.
    pub fn line(&self) -> &'static str {
        match self {
            Basis::Search(_) => "answered by the search",
            Basis::Reason(_) => "answered by a reason",
            Basis::Learning(_) => "answered by learning",
            Basis::Run(_) => "answered by workers",
        }
    }

    /// Returns whether it is a learner.
    pub(crate) fn is_learning(&self) -> bool {
        matches!(self, Basis::Learning(_))
    }
}

/// What is counted, in the singular or the plural.
fn counted<'a>(count: u64, one: &'a [u8], many: &'a [u8]) -> &'a [u8]
    ensures { result.now ≡ (if count == 1 then one.now else many.now) }
{
    if count == 1 { one } else { many }
}

/// A line of words before a number, the number, and what is counted. The only error is out of memory.
fn count_line(
    alloc: Global,
    before: &[u8],
    count: u64,
    one: &[u8],
    many: &[u8],
) -> Result<Vec<u8>, AllocError>
    ensures { IfOk result (λ text. text.items ≡ count_text before.now count one.now many.now) }
{
    let mut digits = Buffer::new();
    let mut text = Vec::from_slice(alloc, before)?;
    text.extend_from_slice(digits.format(count).as_bytes())?;
    text.extend_from_slice(counted(count, one, many))?;
    Ok(text)
}

/// Returns the lines that say what an answer to the problem rests on. The only error is out of memory.
pub(crate) fn basis_lines(
    alloc: Global,
    problem: &Problem,
    basis: &Basis,
) -> Result<Vec<u8>, AllocError>
    ensures { IfOk result (λ text. text.items ≡ basis_text problem.now basis.now) }
{
    match basis {
        Basis::Search(states) => {
            count_line(alloc, b"by search of ", *states, b" state\n", b" states\n")
        }
        Basis::Reason(cause) => cause_lines(alloc, problem, cause),
        Basis::Learning(clauses) => {
            count_line(
                alloc,
                b"by ",
                *clauses,
                b" learned clause\n",
                b" learned clauses\n",
            )
        }
        Basis::Run(workers) => {
            count_line(
                alloc,
                b"by a run of ",
                *workers,
                b" worker\n",
                b" workers\n",
            )
        }
    }
}
