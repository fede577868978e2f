//! A search that a flag may stop, and how many visits it makes.

ghost use Rattle.std.specs.Prelude.{◌≤◌};

use super::said::LETTERS;
use brancher::{Outcome, Searcher};
use dlx_reader::read_problem;
use std::alloc::Global;
use std::process::Abort;
use std::sync::atomic::AtomicBool;

/// The letters without their cover.
const NO_COVER: &str = "a b c d e f g\nc e\na d g\nb c f\na d f\nd e g\n";

/// How a search ended, with its visits (all its fuel, unless there is no cover); none where the flag stopped it.
type End = Option<(Outcome, u64)>;

/// The end of a search of the empty prefix with so much fuel; none where memory ran out.
fn end(alloc: Global, searcher: &mut Searcher<'_>, fuel: u64, flag: &AtomicBool) -> Option<End>
    requires { 1 ≤ fuel }
{
    let mut watch = flag;
    match searcher.find_until(Vec::new(alloc), fuel, &mut watch) {
        Ok(Some((finding, visits))) => Some(Some((finding.outcome(), visits))),
        Ok(None) => Some(None),
        Err(_) => None,
    }
}

/// Each with the fuel, whether the flag is raised before, and how it ends.
static ENDS: [(&str, u64, bool, End); 5] = [
    (LETTERS, 6, false, Some((Outcome::Cover, 6))),
    (LETTERS, 5, false, Some((Outcome::Spent, 5))),
    (NO_COVER, 9, false, Some((Outcome::Barren, 3))),
    // (with so much fuel the flag is looked at before the first visit)
    (LETTERS, 1_048_576, true, None),
    (LETTERS, 1_048_576, false, Some((Outcome::Cover, 1_048_576))),
];

/// Whether a search of the problem ends so.
fn ends<R: Abort>(
    rt: &R,
    alloc: Global,
    text: &str,
    (fuel, raised): (u64, bool),
    expected: End,
) -> bool {
    let read = read_problem(alloc, text.as_bytes()).expect(rt, "a problem");
    let mut searcher = Searcher::new(alloc, &read.problem).expect(rt, "memory");
    end(alloc, &mut searcher, fuel.max(1), &AtomicBool::new(raised)) == Some(expected)
}

#[test]
fn a_flag_stops_a_search(rt: HostRuntime) {
    for (text, fuel, raised, expected) in ENDS.iter() {
        let right = ends(&rt, rt.alloc(), text, (*fuel, *raised), *expected);
        assert!(rt; right, "{text}");
    }
}
