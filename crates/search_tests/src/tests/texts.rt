//! Problems that several tests share.

use cover_problem::Problem;
use dlx_reader::read_problem;
use std::alloc::Global;
use std::process::Abort;

/// Seven items and six options, of which 3, 4 and 0 are the one exact cover.
pub const LETTERS: &str = "a b c d e f g\nc e\na d g\nb c f\na d f\nb g\nd e g\n";

/// The problem of a text.
pub fn problem_of<R: Abort>(rt: &R, alloc: Global, text: &str) -> Problem {
    read_problem(alloc, text.as_bytes())
        .expect(rt, "a problem")
        .problem
}
