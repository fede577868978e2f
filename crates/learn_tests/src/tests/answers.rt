//! `answer` over texts in memory, each with one cover or none; the expected values were worked out by hand.
//!
//! Of the bugs of `answer_engine` that are kept outside the gate, `two_threads_find_a_reason` finds
//! `no_reason_on_two_threads`.

use super::{LETTERS, NAMES, NO_COVER, RunOutput};
use answer_engine::{Basis, Task, answer_engine};
use dlx_reader::{CountedReader, CountedWriter};
use search_engines::{LineStyle, ProgressLog, TimeLimit, tell_end};
use std::alloc::{AllocError, Global};
use std::sync::Wait;
use std::test::Fail;
use std::thread::Threads;
use std::time::{Clock, Duration};

/// Runs `answer` on a problem and returns what is written.
fn answered<R: Threads + Wait + Clock + Sync>(
    task: &Task<'_, R>,
    text: &str,
    style: LineStyle,
) -> RunOutput {
    let mut out = Vec::new(task.alloc);
    let mut errors = Vec::new(task.alloc);
    let mut source = CountedReader::new(text.as_bytes());
    let mut sink = CountedWriter::new(&mut out);
    let mut told = CountedWriter::new(&mut errors);
    let log = ProgressLog::new(&mut told, style);
    let ended = answer_engine(task, &mut source, &mut sink, log);
    let status = tell_end(&ended, NAMES, &mut told);
    RunOutput {
        out,
        errors,
        status,
    }
}

/// Each with what is written to both outputs, and the status.
static ANSWERS: [(&str, &str, &str, u8); 6] = [
    (LETTERS, "cover 3\nc e\na d f\nb g\n", "", 0),
    (NO_COVER, "none\n", "", 1),
    ("a b | x\na x\nb x\n", "none\n", "", 1),
    ("a b | x\na x\nb x\nb\n", "cover 2\na x\nb\n", "", 0),
    ("a | x\nx\na", "cover 1\na\n", "ignored 1\n", 0),
    ("a ||x\n", "", "refused: IllegalByte line 1\n", 3),
];

#[test]
fn answer_writes_answers(rt: HostRuntime) {
    let (rt, alloc) = (&rt, rt.alloc());
    let task = Task {
        rt,
        alloc,
        time: None,
        threads: 4,
        reason: false,
    };
    for (text, out, errors, status) in ANSWERS.iter() {
        let written = answered(&task, text, LineStyle::Silent);
        assert!(rt; written.is(out, errors, *status), "{text}");
    }
}

/// An hour is enough, and what was first is said where progress is followed.
#[test]
fn answer_says_what_was_first(rt: HostRuntime) {
    let (rt, alloc) = (&rt, rt.alloc());
    let time = Some(TimeLimit::from_now(rt, Duration::from_secs(3_600)));
    let task = Task {
        rt,
        alloc,
        time,
        threads: 1,
        reason: false,
    };
    let written = answered(&task, NO_COVER, LineStyle::Listed);
    assert!(rt; written.is("none\n", "answered by the search\n", 1));
    assert!(rt; Basis::Learning(7).line() == "answered by learning");
    assert!(rt; Basis::Run(2).line() == "answered by workers");
}

/// Each with what is written where what the answer rests on is to be, too: to how many states the search came was
/// counted by hand.
static REASONED: [(&str, &str, &str, u8); 5] = [
    (
        LETTERS,
        "cover 3\nc e\na d f\nb g\nby search of 5 states\n",
        "",
        0,
    ),
    (NO_COVER, "none\nby search of 3 states\n", "", 1),
    (
        "a b | x\na x\nb x\n",
        "none\nby search of 2 states\n",
        "",
        1,
    ),
    (
        "a | x\nx\na",
        "cover 1\na\nby search of 1 state\n",
        "ignored 1\n",
        0,
    ),
    ("a ||x\n", "", "refused: IllegalByte line 1\n", 3),
];

#[test]
fn answer_writes_what_it_rests_on(rt: HostRuntime) {
    let (rt, alloc) = (&rt, rt.alloc());
    let task = Task {
        rt,
        alloc,
        time: None,
        threads: 4,
        reason: true,
    };
    for (text, out, errors, status) in REASONED.iter() {
        let written = answered(&task, text, LineStyle::Silent);
        assert!(rt; written.is(out, errors, *status), "{text}");
    }
}

/// Adds so many names that begin with this letter.
fn add_names(text: &mut String, alloc: Global, letter: char, count: u8) -> Result<(), AllocError> {
    for number in 0..count {
        text.push_str(format!(in alloc; " {letter}{number}")?.as_str())?;
    }
    Ok(())
}

/// Adds an option for a pigeon in each of so many holes.
fn add_options(text: &mut String, alloc: Global, pigeon: u8, holes: u8) -> Result<(), AllocError> {
    for hole in 0..holes {
        text.push_str(format!(in alloc; "p{pigeon} h{hole}\n")?.as_str())?;
    }
    Ok(())
}

/// A problem of pigeons and holes, of which a pigeon takes one and a hole at most one.
fn pigeons(alloc: Global, pigeons: u8, holes: u8) -> Result<String, AllocError> {
    let mut text = String::new(alloc);
    add_names(&mut text, alloc, 'p', pigeons)?;
    text.push_str(" |")?;
    add_names(&mut text, alloc, 'h', holes)?;
    text.push('\n')?;
    for pigeon in 0..pigeons {
        add_options(&mut text, alloc, pigeon, holes)?;
    }
    Ok(text)
}

/// Where two threads work, too, a reason is looked for beside them: of 40 pigeons in 39 holes the search has 2^39
/// states, and no learner knows more.
#[test]
fn two_threads_find_a_reason(rt: HostRuntime) -> Result<(), Fail> {
    let (rt, alloc) = (&rt, rt.alloc());
    let task = Task {
        rt,
        alloc,
        time: Some(TimeLimit::from_now(rt, Duration::from_secs(60))),
        threads: 2,
        reason: false,
    };
    let text = pigeons(alloc, 40, 39)?;
    let written = answered(&task, text.as_str(), LineStyle::Silent);
    assert!(rt; written.is("none\n", "", 1));
    Ok(())
}
