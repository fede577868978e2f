//! `check` over texts in memory; the expected values were worked out by hand.
//!
//! Of the bugs of `search_engines` that are kept outside the gate, `a_check_of_none_keeps_states` finds
//! `check_keeps_no_states`.

ghost use Rattle.std.specs.Prelude.{◌≤◌};

use super::boards::board;
use super::run_output::{RunOutput, tell_plain};
use super::texts::{LETTERS, NO_COVER};
use dlx_reader::{CountedReader, CountedWriter};
use search_engines::check_engine;
use std::alloc::Global;
use std::process::Abort;

/// Runs `check` on an answer to a problem and returns what is written.
pub fn check(alloc: Global, text: &str, answer: &str, fuel: u64) -> RunOutput
    requires { 1 ≤ fuel }
{
    let mut out = Vec::new(alloc);
    let mut errors = Vec::new(alloc);
    let mut file = CountedReader::new(text.as_bytes());
    let mut answer = CountedReader::new(answer.as_bytes());
    let ended = check_engine(
        alloc,
        fuel,
        &mut file,
        &mut answer,
        &mut CountedWriter::new(&mut out),
    );
    let mut sink = CountedWriter::new(&mut errors);
    let status = tell_plain(&ended, &mut sink);
    RunOutput {
        out,
        errors,
        status,
    }
}

const SECONDARY: &str = "a b | x y\na x\nb x\nb\ny\n";

/// Each with the fuel, what is written to both outputs, and the status.
pub static VERDICTS: [(&str, &str, u64, &str, &str, u8); 24] = [
    (LETTERS, "cover 3\nc e\na d f\nb g\n", 1, "right\n", "", 0),
    (LETTERS, "cover 3\nb g\na d f\nc e\n", 1, "right\n", "", 0),
    (
        LETTERS,
        "\n  cover   00003  \r\n\nb g\na d f\nc e",
        1,
        "right\n",
        "",
        0,
    ),
    (
        LETTERS,
        "cover 2\nc e\nb g\n",
        1,
        "wrong: Uncovered a\n",
        "",
        1,
    ),
    (LETTERS, "cover 0\n", 1, "wrong: Uncovered a\n", "", 1),
    (
        LETTERS,
        "cover 2\na d f\nc e\n",
        1,
        "wrong: Uncovered b\n",
        "",
        1,
    ),
    (
        LETTERS,
        "cover 4\nc e\na d f\nb g\nd e g\n",
        1,
        "wrong: CoveredTwice d\n",
        "",
        1,
    ),
    (
        LETTERS,
        "cover 2\na d g\na d f\n",
        1,
        "wrong: Uncovered b\n",
        "",
        1,
    ),
    (LETTERS, "none\n", 6, "wrong: a cover exists\n", "", 1),
    (LETTERS, "none\n", 5, "no answer\n", "", 4),
    (NO_COVER, "none\n", 3, "right\n", "", 0),
    (NO_COVER, "none", 2, "no answer\n", "", 4),
    (
        NO_COVER,
        "cover 2\nc e\na d f\n",
        9,
        "wrong: Uncovered b\n",
        "",
        1,
    ),
    (
        SECONDARY,
        "cover 2\na x\nb\n",
        1,
        "right\n",
        "ignored 1\n",
        0,
    ),
    (
        SECONDARY,
        "cover 2\na x\nb x\n",
        1,
        "wrong: CoveredTwice x\n",
        "ignored 1\n",
        1,
    ),
    (
        SECONDARY,
        "cover 3\na x\nb x\nb\n",
        1,
        "wrong: CoveredTwice b\n",
        "ignored 1\n",
        1,
    ),
    (
        SECONDARY,
        "none\n",
        9,
        "wrong: a cover exists\n",
        "ignored 1\n",
        1,
    ),
    (SECONDARY, "none\n", 1, "no answer\n", "ignored 1\n", 4),
    ("a\na\na\n", "cover 1\na\n", 1, "right\n", "", 0),
    (
        "a\na\na\n",
        "cover 2\na\na\n",
        1,
        "wrong: CoveredTwice a\n",
        "",
        1,
    ),
    (
        "a b\na\na\nb\n",
        "cover 3\na\na\nb\n",
        1,
        "wrong: CoveredTwice a\n",
        "",
        1,
    ),
    ("a b\na b\nb a\n", "cover 1\nb a\n", 1, "right\n", "", 0),
    ("a\n", "none\n", 1, "right\n", "", 0),
    ("a\n", "cover 0\n", 1, "wrong: Uncovered a\n", "", 1),
];

/// Asserts that `check` writes this of an answer to a problem.
fn writes<R: Abort>(
    rt: &R,
    alloc: Global,
    (text, answer, fuel): (&str, &str, u64),
    (out, errors, status): (&str, &str, u8),
) {
    let output = check(alloc, text, answer, fuel.max(1));
    assert!(rt; output.is(out, errors, status), "{answer}");
}

#[test]
fn verdicts(rt: HostRuntime) {
    for (text, answer, fuel, out, errors, status) in VERDICTS.iter() {
        writes(
            &rt,
            rt.alloc(),
            (text, answer, *fuel),
            (out, errors, *status),
        );
    }
}

/// A search of 10^15 visits is over at once where it goes past the states that it meets again.
#[test]
fn a_check_of_none_keeps_states(rt: HostRuntime) {
    let text = board(&rt, rt.alloc(), 12, 12);
    assert!(rt; check(rt.alloc(), &text, "none\n", u64::MAX).is("right\n", "", 0));
}

pub static REFUSALS: [(&str, &str, &str); 15] = [
    (
        "a\na\na\n",
        "cover 3\na\na\na\n",
        "answer refused: UnknownOption line 4\n",
    ),
    (LETTERS, "cover 3\nc e\n", "answer refused: WrongCount\n"),
    (LETTERS, "", "answer refused: BadHead\n"),
    (LETTERS, "cover\n", "answer refused: BadHead\n"),
    (LETTERS, "cover 3 options\n", "answer refused: BadHead\n"),
    (
        LETTERS,
        "cover +3\nc e\na d f\nb g\n",
        "answer refused: BadHead\n",
    ),
    (LETTERS, "| none\nnone\n", "answer refused: BadHead\n"),
    (LETTERS, "none\nc e\n", "answer refused: WrongCount\n"),
    (LETTERS, "no answer\n", "answer refused: BadHead\n"),
    (
        LETTERS,
        "cover 3\nc e\n\nd a f\nb g\n",
        "answer refused: UnknownOption line 4\n",
    ),
    (
        LETTERS,
        "cover 2\n| c e\nb g\n",
        "answer refused: UnknownOption line 2\n",
    ),
    (
        LETTERS,
        "cover 1\nc e x\n",
        "answer refused: UnknownOption line 2\n",
    ),
    ("a a\n", "", "refused: DuplicateItem line 1\n"),
    ("", "cover 1\n", "refused: NoItems\n"),
    (
        SECONDARY,
        "cover 1\ny\n",
        "answer refused: UnknownOption line 2\n",
    ),
];

#[test]
fn refusals(rt: HostRuntime) {
    for (text, answer, errors) in REFUSALS.iter() {
        writes(&rt, rt.alloc(), (text, answer, u64::MAX), ("", errors, 3));
    }
}
