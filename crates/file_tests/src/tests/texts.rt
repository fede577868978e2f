//! The problem that a text spells.

use cover_problem::Problem;
use dlx_reader::read_problem;
use std::alloc::Global;
use std::process::Abort;

/// The problem of a text.
pub fn problem_of<R: Abort>(rt: &R, alloc: Global, text: &str) -> Problem {
    read_problem(alloc, text.as_bytes())
        .expect(rt, "a problem")
        .problem
}
