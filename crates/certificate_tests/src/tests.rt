//! Certificates that were written by hand, as the page of formats describes them.
//!
//! Of the bugs of `cover_certificates` that are kept outside the gate, `wrong_certificates` finds
//! `forgotten_clause_stays` and `text_goes_on_behind_the_empty_clause`.

mod engine;
mod searched;
mod written;

use cover_certificates::{Checked, Expected, begins_certificate, check_certificate};
use dlx_reader::{AnswerFault, read_answer, read_problem};
use std::alloc::Global;

/// Three items, any two of which are an option: an odd number of items isn't paired.
const PAIRS: &str = "a b c\na b\nb c\na c\n";

/// Two lessons and one room.
const ROOM: &str = "l m | r\nl r\nm r\n";

/// The same, where the options give the room colours.
const COLOURS: &str = "l m | r\nl r:x\nm r:y\n";

/// The same, where both options give it one colour: they are the cover.
const AGREED: &str = "l m | r\nl r:x\nm r:x\n";

/// No option names d, so what is chosen for the others plays no part.
const IDLE: &str = "a b c d\na b\na\nc\nc b\n";

/// A problem with two covers.
const COVERED: &str = "a b\na\nb\na b\n";

/// Returns what the test of a certificate comes to; none if memory is refused or the problem is.
fn checked(alloc: Global, problem: &str, certificate: &str) -> Option<Checked> {
    let read = read_problem(alloc, problem.as_bytes()).ok()?;
    check_certificate(alloc, &read.problem, certificate.as_bytes()).ok()
}

/// Certificates that are right.
static RIGHT: [(&str, &str); 10] = [
    (PAIRS, "none\ncases 3 3\n0\n2\n1\n"),
    (PAIRS, "none\ncases 3 3\n0\n2\n1"),
    (PAIRS, "none\ncases 3 3\nweights 2 0 1 1 1 2 1\n*0\n"),
    (PAIRS, "none\ncases 3 3\n0\nweights 2 2 1\n*0\n!1\n-0\n1\n"),
    (ROOM, "none\ncases 3 2\nroom 2 0 1 1 1 2 1\n*0\n"),
    (IDLE, "none\ncases 4 4\n0\n3\n^0\n"),
    (IDLE, "none\ncases 4 4\n0\n3\n!1\n=0\n"),
    (PAIRS, "none\nclauses 3 3\n-0 0:1 0:2 2\n3 0 1 1:2\n"),
    (
        PAIRS,
        "none\nclauses 3 3\n-0 0:1 0:2 2\n+1 -1 9 0:1 1:2 0\nd 4\n3 0 1 1:2",
    ),
    (COLOURS, "none\nclauses 3 2\n0 1 0:1\n"),
];

#[test]
fn right_certificates(rt: HostRuntime) {
    for (problem, certificate) in RIGHT.iter() {
        let came = checked(rt.alloc(), problem, certificate);
        assert!(rt; came == Some(Checked::Right), "{certificate}");
    }
}

/// Certificates that are wrong, each with the line at which they are, and what was expected there.
static WRONG: [(&str, &str, u64, Expected); 41] = [
    (PAIRS, "", 1, Expected::None),
    (PAIRS, "cover 1\n", 1, Expected::None),
    (PAIRS, "none\ncases 3 4\n0\n2\n1\n", 2, Expected::Counts),
    (PAIRS, "none\ncases 3 3\n0\n2\n", 5, Expected::Refutation),
    (PAIRS, "none\ncases 3 3\nx\n", 3, Expected::Refutation),
    (PAIRS, "none\ncases 3 3\n0\n2\n1\n1\n", 6, Expected::End),
    (PAIRS, "none\ncases 3 3\n3\n", 3, Expected::OpenItem),
    (PAIRS, "none\ncases 3 3\n0\n0\n", 4, Expected::OpenItem),
    (PAIRS, "none\ncases 3 3\n0\n=0\n", 4, Expected::KeptCase),
    (
        PAIRS,
        "none\ncases 3 3\n0\n2\n!1\n=0\n",
        6,
        Expected::WiderCase,
    ),
    (
        PAIRS,
        "none\ncases 3 3\n0\n2\n!1\n-0\n=0\n",
        7,
        Expected::KeptCase,
    ),
    (
        PAIRS,
        "none\ncases 3 3\n0\n2\n!1\n-1\n1\n",
        6,
        Expected::KeptCase,
    ),
    (
        PAIRS,
        "none\ncases 3 3\n0\n2\n^0\n",
        5,
        Expected::IdleChoice,
    ),
    (PAIRS, "none\ncases 3 3\n*0\n", 3, Expected::Reason),
    (
        PAIRS,
        "none\ncases 3 3\nweights 3 0 1 1 1 2 1\n*0\n",
        4,
        Expected::ReasonHere,
    ),
    (
        PAIRS,
        "none\ncases 3 3\nweights 1 0 1\n*0\n",
        3,
        Expected::Amounts,
    ),
    (
        PAIRS,
        "none\ncases 3 3\nweights 2 3 1\n*0\n",
        3,
        Expected::Amounts,
    ),
    (
        ROOM,
        "none\ncases 3 2\nroom 2 0 1 1 1 2 2\n*0\n",
        4,
        Expected::ReasonHere,
    ),
    (
        COLOURS,
        "none\ncases 3 2\nroom 2 0 1 1 1 2 1\n*0\n",
        4,
        Expected::ReasonHere,
    ),
    (
        IDLE,
        "none\ncases 4 4\n0\n3\n!1\n!0\n",
        6,
        Expected::Refutation,
    ),
    (COVERED, "none\ncases 2 3\n0\n1\n", 5, Expected::Refutation),
    (
        PAIRS,
        "none\ncases 3 3\nweights 2 0 1 1 1 2 1 \n*0\n",
        3,
        Expected::Amounts,
    ),
    (
        PAIRS,
        "none\ncases 3 3\nweights 2 \n*0\n",
        3,
        Expected::Amounts,
    ),
    (
        PAIRS,
        "none\nclause 3 3\n-0 0:1 0:2 2\n3 0 1 1:2\n",
        2,
        Expected::Counts,
    ),
    (
        PAIRS,
        "none\nclauses 3 2\n-0 0:1 0:2 2\n3 0 1 1:2\n",
        2,
        Expected::Counts,
    ),
    (PAIRS, "none\nclauses 3 3\n", 3, Expected::Clause),
    (PAIRS, "none\nclauses 3 3\n\n", 3, Expected::Clause),
    (
        PAIRS,
        "none\nclauses 3 3\n-0 0:1 0:2 2\n",
        4,
        Expected::Clause,
    ),
    (
        PAIRS,
        "none\nclauses 3 3\n-0 0:1 0:2 2 \n3 0 1 1:2\n",
        3,
        Expected::Clause,
    ),
    (
        PAIRS,
        "none\nclauses 3 3\n-0  0:1 0:2 2\n3 0 1 1:2\n",
        3,
        Expected::Clause,
    ),
    (
        PAIRS,
        "none\nclauses 3 3\n-3 0:1 0:2 2\n",
        3,
        Expected::Clause,
    ),
    (
        PAIRS,
        "none\nclauses 3 3\n-0 0:1 0:3 2\n",
        3,
        Expected::Clause,
    ),
    (
        PAIRS,
        "none\nclauses 3 3\n-0 0:1:2 2\n",
        3,
        Expected::Clause,
    ),
    (
        PAIRS,
        "none\nclauses 3 3\n0 1 1:2\n",
        3,
        Expected::Following,
    ),
    (
        PAIRS,
        "none\nclauses 3 3\n-0 0:0 2\n",
        3,
        Expected::Following,
    ),
    (
        PAIRS,
        "none\nclauses 3 3\n-0 0:1 0:2 2\nd 1\n3 0 1 1:2\n",
        5,
        Expected::Following,
    ),
    (PAIRS, "none\nclauses 3 3\nd 3\n", 3, Expected::KnownClause),
    (
        PAIRS,
        "none\nclauses 3 3\nd 1\nd 1\n",
        4,
        Expected::KnownClause,
    ),
    (PAIRS, "none\nclauses 3 3\nde 1\n", 3, Expected::KnownClause),
    (
        PAIRS,
        "none\nclauses 3 3\n-0 0:1 0:2 2\n3 0 1 1:2\n3\n",
        5,
        Expected::End,
    ),
    (
        AGREED,
        "none\nclauses 3 2\n0 1 0:1\n",
        3,
        Expected::Following,
    ),
];

#[test]
fn wrong_certificates(rt: HostRuntime) {
    for (problem, certificate, line, expected) in WRONG.iter() {
        let came = checked(rt.alloc(), problem, certificate);
        assert!(rt;
            came == Some(Checked::Wrong(*line, *expected)),
            "{certificate}"
        );
    }
}

/// Texts, and whether they begin as a certificate does.
static BEGUN: [(&str, bool); 8] = [
    ("", false),
    ("none\n", false),
    ("none\n\n", false),
    ("cover 0\n", false),
    ("none\ncase 3 3\n", false),
    ("none \ncases 3 3\n", false),
    ("none\ncases 3 3\n", true),
    ("none\nclauses 3 3\n", true),
];

/// A text that is tested as a certificate is no answer.
#[test]
fn certificates_are_no_answers(rt: HostRuntime) {
    let read = read_problem(rt.alloc(), PAIRS.as_bytes()).expect(&rt, "a problem");
    for (text, is_begun) in BEGUN.iter() {
        let text = text.as_bytes();
        assert!(rt; begins_certificate(text) == *is_begun, "{text:?}");
        let answer = read_answer(rt.alloc(), text, &read.problem);
        assert!(rt;
            !*is_begun || answer.err() == Some(AnswerFault::WrongCount),
            "{text:?}"
        );
    }
}
