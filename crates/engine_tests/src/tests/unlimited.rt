//! `alone` and `check` without a limit, over texts in memory; the expected values were worked out by hand.
//!
//! Of the bugs of `search_engines` that are kept outside the gate, `a_reason_decides_without_a_search` finds
//! `no_reason_before_a_long_search`, and `a_walk_decides_without_a_search` finds `no_walk_beside_the_search`.

use super::long::names;
use super::run_output::{NAMES, RunOutput};
use super::texts::{LETTERS, NO_COVER};
use dlx_reader::{CountedReader, CountedWriter};
use search_engines::{LineStyle, ProgressLog, SearchLimits, alone_within, check_within, tell_end};
use std::alloc::Global;
use std::process::Abort;
use std::time::Clock;

/// Runs `alone` on a problem and returns what is written.
fn alone<C: Clock>(clock: &C, alloc: Global, text: &str) -> RunOutput {
    let mut out = Vec::new(alloc);
    let mut errors = Vec::new(alloc);
    let mut source = CountedReader::new(text.as_bytes());
    let mut sink = CountedWriter::new(&mut out);
    let mut error_sink = CountedWriter::new(&mut errors);
    let limits = SearchLimits::new(None, None);
    let log = ProgressLog::new(&mut error_sink, LineStyle::Silent);
    let ended = alone_within(clock, alloc, &limits, &mut source, &mut sink, log);
    let status = tell_end(&ended, NAMES, &mut error_sink);
    RunOutput {
        out,
        errors,
        status,
    }
}

/// Runs `check` on an answer to a problem and returns what is written.
fn check<C: Clock>(clock: &C, alloc: Global, text: &str, answer: &str) -> RunOutput {
    let mut out = Vec::new(alloc);
    let mut errors = Vec::new(alloc);
    let mut file = CountedReader::new(text.as_bytes());
    let mut answer = CountedReader::new(answer.as_bytes());
    let mut sink = CountedWriter::new(&mut out);
    let limits = SearchLimits::new(None, None);
    let ended = check_within(clock, alloc, &limits, &mut file, &mut answer, &mut sink);
    let status = tell_end(&ended, NAMES, &mut CountedWriter::new(&mut errors));
    RunOutput {
        out,
        errors,
        status,
    }
}

/// Each with what is written to both outputs, and the status.
static ANSWERS: [(&str, &str, &str, u8); 7] = [
    (LETTERS, "cover 3\nc e\na d f\nb g\n", "", 0),
    (NO_COVER, "none\n", "", 1),
    ("a b | x\na x\nb x\n", "none\n", "", 1),
    ("a b | x\na x\nb x\nb\n", "cover 2\na x\nb\n", "", 0),
    ("a\n", "none\n", "", 1),
    ("a | x\nx\na", "cover 1\na\n", "ignored 1\n", 0),
    ("a ||x\n", "", "refused: IllegalByte line 1\n", 3),
];

#[test]
fn alone_without_a_limit(rt: HostRuntime) {
    for (text, out, errors, status) in ANSWERS.iter() {
        assert!(rt;
            alone(&rt, rt.alloc(), text).is(out, errors, *status),
            "{text}"
        );
    }
}

/// Answers to problems, each with what is written to both outputs, and the status.
static VERDICTS: [(&str, &str, &str, &str, u8); 6] = [
    (LETTERS, "cover 3\nc e\na d f\nb g\n", "right\n", "", 0),
    (
        LETTERS,
        "cover 2\nc e\nb g\n",
        "wrong: Uncovered a\n",
        "",
        1,
    ),
    (LETTERS, "none\n", "wrong: a cover exists\n", "", 1),
    (NO_COVER, "none\n", "right\n", "", 0),
    (
        "a | x\nx\na",
        "none\n",
        "wrong: a cover exists\n",
        "ignored 1\n",
        1,
    ),
    ("a ||x\n", "none\n", "", "refused: IllegalByte line 1\n", 3),
];

#[test]
fn check_without_a_limit(rt: HostRuntime) {
    for (text, answer, out, errors, status) in VERDICTS.iter() {
        assert!(rt;
            check(&rt, rt.alloc(), text, answer).is(out, errors, *status),
            "{text}"
        );
    }
}

/// All pairs of so many items, each an option.
fn pairs<R: Abort>(rt: &R, alloc: Global, count: u16) -> String {
    let mut text = names(rt, alloc, count);
    for first in 0..count {
        for second in 0..first {
            write!(text, "\nn{second} n{first}").expect(rt, "memory");
        }
    }
    text
}

/// An odd number of items can't be split into pairs, but a search alone would go on for years.
#[test]
fn a_reason_decides_without_a_search(rt: HostRuntime) {
    let text = pairs(&rt, rt.alloc(), 41);
    assert!(rt; alone(&rt, rt.alloc(), &text).is("none\n", "", 1));
    assert!(rt; check(&rt, rt.alloc(), &text, "none\n").is("right\n", "", 0));
}

/// How many choices come between the first one and what it spoils.
const CHOICES: u8 = 25;

/// Six items to be paired, of which the first option of `a` takes one. So does none of its covers begin, but a search
/// makes all choices in between before it sees that, and none of them leaves the same.
fn spoiled<R: Abort>(rt: &R, alloc: Global) -> String {
    let mut text = String::new(alloc);
    write!(text, "a p q r s t z").expect(rt, "memory");
    for choice in 0..CHOICES {
        write!(text, " n{choice}").expect(rt, "memory");
    }
    write!(text, " |").expect(rt, "memory");
    for choice in 0..CHOICES {
        write!(text, " x{choice}").expect(rt, "memory");
    }
    write!(text, "\na z\na\np r\np s\np t\np z\nq r\nq s\nq t\nq z").expect(rt, "memory");
    write!(text, "\nr s\nr t\nr z\ns t\ns z\nt z\n").expect(rt, "memory");
    for choice in 0..CHOICES {
        for colour in ["A", "B", "C"] {
            write!(
                text,
                "n{choice} x{choice}:{colour}\np q x{choice}:{colour}\n"
            )
            .expect(rt, "memory");
        }
    }
    text
}

/// Its first cover: the first option of `a` that leaves six items, the first colour of each choice, and the first pairs
/// that leave one.
fn unspoiled<R: Abort>(rt: &R, alloc: Global) -> String {
    let mut text = String::new(alloc);
    let count = u16::from(CHOICES) + 4;
    write!(text, "cover {count}\na\np r\nq s\nt z\n").expect(rt, "memory");
    for choice in 0..CHOICES {
        writeln!(text, "n{choice} x{choice}:A").expect(rt, "memory");
    }
    text
}

#[test]
fn a_walk_decides_without_a_search(rt: HostRuntime) {
    let text = spoiled(&rt, rt.alloc());
    let cover = unspoiled(&rt, rt.alloc());
    assert!(rt; alone(&rt, rt.alloc(), &text).is(&cover, "", 0));
    assert!(rt; check(&rt, rt.alloc(), &text, "none\n").is("wrong: a cover exists\n", "", 1));
}

#[test]
fn progress_changes_no_answer_without_a_limit(rt: HostRuntime) {
    for (text, out, _, status) in ANSWERS.iter() {
        let (mut written, mut lines) = (Vec::new(rt.alloc()), Vec::new(rt.alloc()));
        let mut source = CountedReader::new(text.as_bytes());
        let mut sink = CountedWriter::new(&mut written);
        let mut errors = CountedWriter::new(&mut lines);
        let log = ProgressLog::new(&mut errors, LineStyle::Listed);
        let limits = SearchLimits::new(None, None);
        let ended = alone_within(&rt, rt.alloc(), &limits, &mut source, &mut sink, log);
        let ended_with = match &ended {
            Ok(end) => end.status,
            Err(_) => 3,
        };
        assert!(rt;
            written.as_slice() == out.as_bytes() && ended_with == *status,
            "{text}"
        );
    }
}
