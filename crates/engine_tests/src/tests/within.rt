//! `alone` and `check` within a limit of time, and what is written where there is no answer or a file can't be read.
//!
//! Of the bugs of `search_engines` that are kept outside the gate, `a_search_ends_once_its_time_is_over` finds
//! `time_without_a_limit_never_ends`.

use super::progress::{QUEENS, Ticking};
use super::run_output::{NAMES, RunOutput};
use super::texts::{LETTERS, NO_COVER};
use dlx_reader::{CountedReader, CountedWriter};
use search_engines::{
    EngineEnd, Failure, InputNames, LineStyle, ProgressLog, SearchLimits, TimeLimit, Unanswered,
    Unread, alone_within, check_within, tell_end, tell_unanswered, tell_unopened,
};
use std::alloc::Global;
use std::io::ErrorKind;
use std::sync::atomic::AtomicU64;
use std::time::{Clock, Duration};

/// A time that no test lasts.
pub const LONG: u64 = 1_000_000;

/// The limits of a search that begins now: so many visits, or any number for 0, and so many seconds.
pub fn limits<C: Clock>(clock: &C, fuel: u64, seconds: u64) -> SearchLimits {
    let time = TimeLimit::from_now(clock, Duration::from_secs(seconds));
    if fuel == 0 {
        SearchLimits::new(None, Some(time))
    } else {
        SearchLimits::new(Some(fuel), Some(time))
    }
}

/// Runs `alone` on a problem within limits and returns what is written.
pub fn alone<C: Clock>(clock: &C, alloc: Global, text: &str, limits: &SearchLimits) -> RunOutput {
    let mut out = Vec::new(alloc);
    let mut errors = Vec::new(alloc);
    let mut source = CountedReader::new(text.as_bytes());
    let mut sink = CountedWriter::new(&mut out);
    let mut error_sink = CountedWriter::new(&mut errors);
    let log = ProgressLog::new(&mut error_sink, LineStyle::Silent);
    let ended = alone_within(clock, alloc, limits, &mut source, &mut sink, log);
    let status = tell_end(&ended, NAMES, &mut error_sink);
    RunOutput {
        out,
        errors,
        status,
    }
}

/// Runs `check` on an answer to a problem within limits and returns what is written.
pub fn check<C: Clock>(
    clock: &C,
    alloc: Global,
    text: &str,
    answer: &str,
    limits: &SearchLimits,
) -> RunOutput {
    let mut out = Vec::new(alloc);
    let mut errors = Vec::new(alloc);
    let mut file = CountedReader::new(text.as_bytes());
    let mut answer = CountedReader::new(answer.as_bytes());
    let mut sink = CountedWriter::new(&mut out);
    let ended = check_within(clock, alloc, limits, &mut file, &mut answer, &mut sink);
    let status = tell_end(&ended, NAMES, &mut CountedWriter::new(&mut errors));
    RunOutput {
        out,
        errors,
        status,
    }
}

/// Problems with a fuel, each with what is written to both outputs, and the status.
pub static ANSWERS: [(&str, u64, &str, &str, u8); 8] = [
    (LETTERS, 0, "cover 3\nc e\na d f\nb g\n", "", 0),
    (LETTERS, 6, "cover 3\nc e\na d f\nb g\n", "", 0),
    (LETTERS, 5, "no answer\n", "", 4),
    (NO_COVER, 0, "none\n", "", 1),
    (NO_COVER, u64::MAX, "none\n", "", 1),
    (QUEENS, 1900, "no answer\n", "", 4),
    ("a | x\nx\na", 9, "cover 1\na\n", "ignored 1\n", 0),
    ("a ||x\n", 9, "", "refused: IllegalByte line 1\n", 3),
];

#[test]
fn within_its_time_alone_has_the_same_answer(rt: HostRuntime) {
    for (text, fuel, out, errors, status) in ANSWERS.iter() {
        let output = alone(&rt, rt.alloc(), text, &limits(&rt, *fuel, LONG));
        assert!(rt; output.is(out, errors, *status), "{text} {fuel}");
    }
}

/// Answers to problems with a fuel, each with what is written to both outputs, and the status.
pub static VERDICTS: [(&str, &str, u64, &str, &str, u8); 7] = [
    (LETTERS, "cover 3\nc e\na d f\nb g\n", 1, "right\n", "", 0),
    (
        LETTERS,
        "cover 2\nc e\nb g\n",
        1,
        "wrong: Uncovered a\n",
        "",
        1,
    ),
    (LETTERS, "none\n", 0, "wrong: a cover exists\n", "", 1),
    (LETTERS, "none\n", 6, "wrong: a cover exists\n", "", 1),
    (LETTERS, "none\n", 5, "no answer\n", "", 4),
    (NO_COVER, "none\n", 0, "right\n", "", 0),
    (NO_COVER, "no\n", 0, "", "answer refused: BadHead\n", 3),
];

#[test]
fn within_its_time_check_has_the_same_answer(rt: HostRuntime) {
    for (text, answer, fuel, out, errors, status) in VERDICTS.iter() {
        let output = check(&rt, rt.alloc(), text, answer, &limits(&rt, *fuel, LONG));
        assert!(rt; output.is(out, errors, *status), "{text} {fuel}");
    }
}

/// A clock that is a second later each time that it is read.
fn ticking() -> Ticking {
    Ticking {
        seconds: AtomicU64::new(0),
    }
}

/// A fuel, or 0 for none, and seconds, with what a search of 2,331 visits writes that may last so long, what a check of
/// `none`, and the status of the first. The clock is read when it begins and once in some 1,024 visits, more often
/// where states are looked for, and at each option where a reason is.
static TIMES: [(u64, u64, &str, &str, u8); 5] = [
    (u64::MAX, 1, "no answer\n", "no answer\n", 4),
    (u64::MAX, 2, "no answer\n", "no answer\n", 4),
    (u64::MAX, 9, "none\n", "right\n", 1),
    (0, 1, "no answer\n", "no answer\n", 4),
    (0, 999_999, "none\n", "right\n", 1),
];

#[test]
fn a_search_ends_once_its_time_is_over(rt: HostRuntime) {
    for (fuel, seconds, out, verdict, status) in TIMES.iter() {
        let clock = ticking();
        let output = alone(&clock, rt.alloc(), QUEENS, &limits(&clock, *fuel, *seconds));
        assert!(rt; output.is(out, "", *status), "{fuel} {seconds}");
        let clock = ticking();
        let limits = limits(&clock, *fuel, *seconds);
        let output = check(&clock, rt.alloc(), QUEENS, "none\n", &limits);
        assert!(rt;
            output.out.as_slice() == verdict.as_bytes(),
            "{fuel} {seconds}"
        );
    }
}

#[test]
fn a_cover_is_tested_whatever_the_time(rt: HostRuntime) {
    let clock = ticking();
    let cover = "cover 3\nc e\na d f\nb g\n";
    let output = check(&clock, rt.alloc(), LETTERS, cover, &limits(&clock, 1, 0));
    assert!(rt; output.is("right\n", "", 0));
}

#[test]
fn progress_goes_on_until_the_time_is_over(rt: HostRuntime) {
    let clock = ticking();
    let (mut out, mut lines) = (Vec::new(rt.alloc()), Vec::new(rt.alloc()));
    let mut source = CountedReader::new(QUEENS.as_bytes());
    let mut sink = CountedWriter::new(&mut out);
    let mut errors = CountedWriter::new(&mut lines);
    let log = ProgressLog::new(&mut errors, LineStyle::Listed);
    let limits = limits(&clock, u64::MAX, 3);
    let ended = alone_within(&clock, rt.alloc(), &limits, &mut source, &mut sink, log);
    assert!(rt; matches!(ended, Ok(end) if end.status == 4));
    assert!(rt; out.as_slice() == b"no answer\n".as_slice());
    assert!(rt; lines.as_slice() == b"1 s: 1024 visits,  43.6607 % of the tree\n".as_slice());
}

/// A fuel, or 0 for none, and seconds, with why a search of 2,331 visits ends that may last so long, and a check of
/// `none`. The clock is a second later each time that it is read, so the time is over when the search ends, but for the
/// long ones; what is said is what ended it.
static CAUSES: [(u64, u64, Option<Unanswered>); 8] = [
    (1900, 999_999, Some(Unanswered::Fuel)),
    (1000, 0, Some(Unanswered::Fuel)),
    (1, 0, Some(Unanswered::Fuel)),
    (1900, 1, Some(Unanswered::Time)),
    (u64::MAX, 1, Some(Unanswered::Time)),
    (0, 1, Some(Unanswered::Time)),
    (u64::MAX, 999_999, None),
    (0, 999_999, None),
];

/// Why `alone` on a problem ends within limits, if it has no answer.
fn alone_ends(
    clock: &Ticking,
    alloc: Global,
    text: &str,
    limits: &SearchLimits,
) -> Option<Unanswered> {
    let (mut out, mut lines) = (Vec::new(alloc), Vec::new(alloc));
    let mut source = CountedReader::new(text.as_bytes());
    let mut sink = CountedWriter::new(&mut out);
    let mut errors = CountedWriter::new(&mut lines);
    let log = ProgressLog::new(&mut errors, LineStyle::Silent);
    let ended = alone_within(clock, alloc, limits, &mut source, &mut sink, log);
    ended.ok()?.why
}

/// Why `check` of `none` ends within limits, if it has no answer.
fn check_ends(
    clock: &Ticking,
    alloc: Global,
    text: &str,
    limits: &SearchLimits,
) -> Option<Unanswered> {
    let mut out = Vec::new(alloc);
    let mut file = CountedReader::new(text.as_bytes());
    let mut answer = CountedReader::new(b"none\n".as_slice());
    let mut sink = CountedWriter::new(&mut out);
    let ended = check_within(clock, alloc, limits, &mut file, &mut answer, &mut sink);
    ended.ok()?.why
}

#[test]
fn what_ended_a_search_is_said(rt: HostRuntime) {
    for (fuel, seconds, why) in CAUSES.iter() {
        let clock = ticking();
        let within = limits(&clock, *fuel, *seconds);
        assert!(rt;
            alone_ends(&clock, rt.alloc(), QUEENS, &within) == *why,
            "alone {fuel} {seconds}"
        );
        let clock = ticking();
        let within = limits(&clock, *fuel, *seconds);
        assert!(rt;
            check_ends(&clock, rt.alloc(), QUEENS, &within) == *why,
            "check {fuel} {seconds}"
        );
    }
}

/// Statuses and reasons, each with the line that is written.
static UNANSWERED: [(u8, Option<Unanswered>, &str); 9] = [
    (0, None, ""),
    (1, None, ""),
    // (`why` has no limit that could be met)
    (4, None, ""),
    (
        4,
        Some(Unanswered::Fuel),
        "ended: the fuel is spent: try more --fuel, or --unlimited\n",
    ),
    (
        4,
        Some(Unanswered::GreatestFuel),
        "ended: more prefixes than can be counted, 2^64 - 1: try answer FILE, or --unlimited, which have no such limit\n",
    ),
    (
        4,
        Some(Unanswered::Time),
        "ended: the time is over: try more --seconds, or answer\n",
    ),
    (
        4,
        Some(Unanswered::TimeOfAllWays),
        "ended: the time is over: try more --seconds\n",
    ),
    (
        4,
        Some(Unanswered::Room),
        "ended: the room for what is learned is full: try another --seed, or answer\n",
    ),
    (
        4,
        Some(Unanswered::Unpublished),
        "ended: nothing was published: try alone --unlimited\n",
    ),
];

#[test]
fn no_answer_has_its_reason(rt: HostRuntime) {
    for (status, why, line) in UNANSWERED.iter() {
        let mut errors = Vec::new(rt.alloc());
        let end = EngineEnd {
            status: *status,
            ignored: 0,
            why: *why,
        };
        tell_unanswered(&Ok(end), &mut CountedWriter::new(&mut errors));
        assert!(rt; errors.as_slice() == line.as_bytes(), "{line}");
    }
    assert!(rt; Unanswered::by_fuel(u64::MAX) == Unanswered::GreatestFuel);
    assert!(rt; Unanswered::by_fuel(7) == Unanswered::Fuel);
}

/// How a file can't be opened, each with the words for it.
static KINDS: [(ErrorKind, &str); 6] = [
    (ErrorKind::NotFound, "cannot read: p.dlx: no such file\n"),
    (
        ErrorKind::IsADirectory,
        "cannot read: p.dlx: is a directory\n",
    ),
    (
        ErrorKind::NotADirectory,
        "cannot read: p.dlx: a part of its path is no directory\n",
    ),
    (
        ErrorKind::PermissionDenied,
        "cannot read: p.dlx: permission denied\n",
    ),
    (
        ErrorKind::FilesystemLoop,
        "cannot read: p.dlx: too many symbolic links\n",
    ),
    (
        ErrorKind::Other,
        "cannot read: p.dlx: the system cannot open it\n",
    ),
];

/// Which input can't be read, each with the words for it.
static INPUTS: [(Unread, &str); 2] = [
    (Unread::File, "cannot read: q: a read failed\n"),
    (Unread::Answer, "cannot read: r: a read failed\n"),
];

#[test]
fn a_file_that_cannot_be_read_is_named(rt: HostRuntime) {
    for (kind, line) in KINDS.iter() {
        let mut errors = Vec::new(rt.alloc());
        let status = tell_unopened("p.dlx", *kind, &mut CountedWriter::new(&mut errors));
        assert!(rt;
            status == 3 && errors.as_slice() == line.as_bytes(),
            "{line}"
        );
    }
    for (which, line) in INPUTS.iter() {
        let mut errors = Vec::new(rt.alloc());
        let names = InputNames {
            file: "q",
            answer: Some("r"),
        };
        let ended = Err(Failure::Unread(*which));
        let status = tell_end(&ended, names, &mut CountedWriter::new(&mut errors));
        assert!(rt;
            status == 3 && errors.as_slice() == line.as_bytes(),
            "{line}"
        );
    }
}
