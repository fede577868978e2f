//! Command lines: what they ask for, and what is reported of those that are none.

use command_line::{SettingsFault, request, settings};
use run_settings::Mode;
use std::alloc::Global;
use std::process::Abort;

/// The status that a command line ends with before anything is read: 2, or 0 for help; 9 where it is lawful.
fn status_of(alloc: Global, words: &[&str]) -> u8 {
    match settings(alloc, words) {
        Ok(_) => 9,
        Err(fault) => fault.status(),
    }
}

/// Whether the words are read so: what is to be done with which files, and the numbers.
fn is_read<R: Abort>(
    rt: &R,
    alloc: Global,
    words: &[&str],
    (mode, file, answer): (Mode, &str, Option<&str>),
    (fuel, nodes, seed): (u64, u8, u64),
    (workers, turns, restarts): (u8, u32, u32),
) -> bool {
    let settings = settings(alloc, words).expect(rt, "lawful words");
    !settings.audit
        && settings.mode == mode
        && settings.file == file
        && settings.answer == answer
        && settings.fuel == fuel
        && settings.nodes == nodes
        && settings.seed == seed
        && settings.workers == workers
        && settings.turns == turns
        && settings.restarts == restarts
}

#[test]
fn reads_words(rt: HostRuntime) {
    let words = ["solve_cli", "alone", "a.dlx"].as_slice();
    let asked = (Mode::Alone, "a.dlx", None);
    assert!(rt;
        is_read(
            &rt,
            rt.alloc(),
            words,
            asked,
            (u64::MAX, 4, 1),
            (2, 10000, 0)
        )
    );
    let words = ["solve_cli", "simulate", "a.dlx"].as_slice();
    let asked = (Mode::Simulate, "a.dlx", None);
    assert!(rt; is_read(&rt, rt.alloc(), words, asked, (1000, 4, 1), (2, 10000, 0)));
}

#[test]
fn reads_words_of_solve(rt: HostRuntime) {
    let words = ["solve_cli", "solve", "a.dlx"].as_slice();
    let asked = (Mode::Solve, "a.dlx", None);
    assert!(rt;
        is_read(
            &rt,
            rt.alloc(),
            words,
            asked,
            (1000, 4, 1),
            (2, 1_000_000, 0)
        )
    );
    let words = [
        "solve_cli",
        "solve",
        "--fuel",
        "7",
        "--nodes",
        "16",
        "--seed",
        "0",
        "--workers",
        "8",
        "--turns",
        "10000000",
        "--restarts",
        "100",
        "a.dlx",
    ];
    let limits = (8, 10_000_000, 100);
    assert!(rt; is_read(&rt, rt.alloc(), words.as_slice(), asked, (7, 16, 0), limits));
}

#[test]
fn reads_all_words(rt: HostRuntime) {
    let words = ["solve_cli", "check", "--fuel", "0007", "a.dlx", "b.txt"].as_slice();
    let asked = (Mode::Check, "a.dlx", Some("b.txt"));
    assert!(rt; is_read(&rt, rt.alloc(), words, asked, (7, 4, 1), (2, 10000, 0)));
    let words = [
        "solve_cli",
        "simulate",
        "a.dlx",
        "--nodes",
        "16",
        "--seed",
        "18446744073709551615",
        "--turns",
        "0",
        "--restarts",
        "100",
    ];
    let asked = (Mode::Simulate, "a.dlx", None);
    let limits = (2, 0, 100);
    assert!(rt;
        is_read(
            &rt,
            rt.alloc(),
            words.as_slice(),
            asked,
            (1000, 16, u64::MAX),
            limits
        )
    );
}

#[test]
fn reads_words_of_why(rt: HostRuntime) {
    let words = ["solve_cli", "why", "a.dlx"].as_slice();
    let asked = (Mode::Why, "a.dlx", None);
    assert!(rt;
        is_read(
            &rt,
            rt.alloc(),
            words,
            asked,
            (u64::MAX, 4, 1),
            (2, 10000, 0)
        )
    );
    assert!(rt; status_of(rt.alloc(), &["solve_cli", "why", "a.dlx", "--fuel", "7"]) == 2);
    assert!(rt; status_of(rt.alloc(), &["solve_cli", "why"]) == 2);
}

#[test]
fn reads_words_of_answer(rt: HostRuntime) {
    let words = ["solve_cli", "answer", "a.dlx", "--progress"].as_slice();
    let asked = (Mode::Answer, "a.dlx", None);
    assert!(rt;
        is_read(
            &rt,
            rt.alloc(),
            words,
            asked,
            (u64::MAX, 4, 1),
            (2, 10000, 0)
        )
    );
    assert!(rt; status_of(rt.alloc(), &["solve_cli", "answer", "a.dlx", "--fuel", "7"]) == 2);
    assert!(rt; status_of(rt.alloc(), &["solve_cli", "answer"]) == 2);
}

#[test]
fn reads_words_of_learn(rt: HostRuntime) {
    let words = ["solve_cli", "learn", "a.dlx", "--seed", "7"].as_slice();
    let asked = (Mode::Learn, "a.dlx", None);
    assert!(rt;
        is_read(
            &rt,
            rt.alloc(),
            words,
            asked,
            (u64::MAX, 4, 7),
            (2, 10000, 0)
        )
    );
    assert!(rt; status_of(rt.alloc(), &["solve_cli", "learn", "a.dlx", "--fuel", "7"]) == 2);
    assert!(rt; status_of(rt.alloc(), &["solve_cli", "learn"]) == 2);
}

/// Words that ask for an audit, or don't.
static AUDITS: [(&[&str], bool); 5] = [
    (&["solve_cli", "solve", "a.dlx", "--audit"], true),
    (&["solve_cli", "solve", "--audit", "a.dlx"], true),
    (&["solve_cli", "solve", "a.dlx"], false),
    (&["solve_cli", "alone", "--", "--audit"], false),
    (&["solve_cli", "simulate", "a.dlx"], false),
];

#[test]
fn reads_whether_to_audit(rt: HostRuntime) {
    for (words, audit) in AUDITS.iter() {
        let settings = settings(rt.alloc(), words).expect(&rt, "lawful words");
        assert!(rt; settings.audit == *audit);
    }
}

/// Words that limit how long a search lasts, or don't.
static LIMITS: [(&[&str], Option<u32>); 7] = [
    (&["solve_cli", "solve", "a.dlx"], None),
    (&["solve_cli", "solve", "a.dlx", "--seconds", "1"], Some(1)),
    (
        &["solve_cli", "solve", "--seconds=1000000", "a.dlx"],
        Some(1_000_000),
    ),
    (&["solve_cli", "alone", "a.dlx", "--seconds", "7"], Some(7)),
    (&["solve_cli", "check", "a", "b", "--seconds", "8"], Some(8)),
    (&["solve_cli", "check", "a", "b"], None),
    (&["solve_cli", "alone", "--", "--seconds"], None),
];

#[test]
fn reads_how_long_a_search_may_last(rt: HostRuntime) {
    for (words, seconds) in LIMITS.iter() {
        let request = request(rt.alloc(), words).expect(&rt, "lawful words");
        assert!(rt; request.seconds == *seconds);
    }
}

/// Words that say how many megabytes the books of a run may take, or don't.
static MEGABYTES: [(&[&str], Option<u32>); 5] = [
    (&["solve_cli", "solve", "a.dlx"], None),
    (
        &["solve_cli", "solve", "a.dlx", "--megabytes", "1"],
        Some(1),
    ),
    (
        &["solve_cli", "solve", "--megabytes=1000000", "a.dlx"],
        Some(1_000_000),
    ),
    (&["solve_cli", "solve", "--", "--megabytes"], None),
    (&["solve_cli", "answer", "a.dlx"], None),
];

#[test]
fn reads_how_large_books_may_be(rt: HostRuntime) {
    for (words, megabytes) in MEGABYTES.iter() {
        let request = request(rt.alloc(), words).expect(&rt, "lawful words");
        assert!(rt; request.megabytes == *megabytes);
    }
}

/// Words that say how many threads may work, or don't.
static THREADS: [(&[&str], Option<u32>); 4] = [
    (&["solve_cli", "answer", "a.dlx"], None),
    (&["solve_cli", "answer", "a.dlx", "--threads", "2"], Some(2)),
    (&["solve_cli", "answer", "--threads=10", "a.dlx"], Some(10)),
    (&["solve_cli", "alone", "a.dlx"], None),
];

#[test]
fn reads_how_many_threads_may_work(rt: HostRuntime) {
    for (words, threads) in THREADS.iter() {
        let request = request(rt.alloc(), words).expect(&rt, "lawful words");
        assert!(rt; request.threads == *threads);
    }
}

/// Words that ask what an answer rests on, or don't.
static REASONS: [(&[&str], bool); 4] = [
    (&["solve_cli", "answer", "a.dlx"], false),
    (&["solve_cli", "answer", "a.dlx", "--reason"], true),
    (&["solve_cli", "answer", "--", "--reason"], false),
    (&["solve_cli", "alone", "a.dlx"], false),
];

#[test]
fn reads_whether_to_say_what_an_answer_rests_on(rt: HostRuntime) {
    for (words, reason) in REASONS.iter() {
        let request = request(rt.alloc(), words).expect(&rt, "lawful words");
        assert!(rt; request.reason == *reason);
    }
    assert!(rt; status_of(rt.alloc(), &["solve_cli", "alone", "a.dlx", "--reason"]) == 2);
}

/// Words that name a file for a certificate, or don't.
static CERTIFICATES: [(&[&str], Option<&str>); 10] = [
    (&["solve_cli", "learn", "a.dlx"], None),
    (
        &["solve_cli", "learn", "a.dlx", "--certificate", "b"],
        Some("b"),
    ),
    (
        &["solve_cli", "learn", "--certificate=b/c", "a.dlx"],
        Some("b/c"),
    ),
    (
        &["solve_cli", "learn", "a.dlx", "--certificate=", "--seed=2"],
        Some(""),
    ),
    (&["solve_cli", "learn", "--", "--certificate"], None),
    (
        &[
            "solve_cli",
            "alone",
            "a.dlx",
            "--unlimited",
            "--certificate",
            "b",
        ],
        Some("b"),
    ),
    (&["solve_cli", "alone", "a.dlx", "--unlimited"], None),
    (
        &["solve_cli", "why", "a.dlx", "--certificate", "b"],
        Some("b"),
    ),
    (
        &["solve_cli", "answer", "a.dlx", "--certificate", "b"],
        Some("b"),
    ),
    (&["solve_cli", "answer", "a.dlx", "--reason"], None),
];

#[test]
fn reads_where_a_certificate_goes(rt: HostRuntime) {
    for (words, certificate) in CERTIFICATES.iter() {
        let request = request(rt.alloc(), words).expect(&rt, "lawful words");
        assert!(rt; request.certificate == *certificate);
    }
}

/// Words that ask for progress, or don't.
static PROGRESSES: [(&[&str], bool); 6] = [
    (&["solve_cli", "alone", "a.dlx", "--progress"], true),
    (&["solve_cli", "alone", "--progress", "a.dlx"], true),
    (&["solve_cli", "alone", "a.dlx"], false),
    (&["solve_cli", "alone", "--", "--progress"], false),
    (&["solve_cli", "solve", "a.dlx", "--progress"], true),
    (&["solve_cli", "solve", "a.dlx"], false),
];

#[test]
fn reads_whether_to_write_progress(rt: HostRuntime) {
    for (words, progress) in PROGRESSES.iter() {
        let request = request(rt.alloc(), words).expect(&rt, "lawful words");
        assert!(rt; request.progress == *progress);
    }
}

/// Words that ask for no limit of visits, or don't.
static UNLIMITED: [(&[&str], bool); 4] = [
    (&["solve_cli", "alone", "a.dlx", "--unlimited"], true),
    (&["solve_cli", "check", "--unlimited", "a.dlx", "b"], true),
    (&["solve_cli", "alone", "a.dlx"], false),
    (&["solve_cli", "alone", "--", "--unlimited"], false),
];

#[test]
fn reads_whether_there_is_a_limit(rt: HostRuntime) {
    for (words, unlimited) in UNLIMITED.iter() {
        let request = request(rt.alloc(), words).expect(&rt, "lawful words");
        assert!(rt; request.unlimited == *unlimited);
    }
}

/// Each with the status.
static WORDS: [(&[&str], u8); 87] = [
    (&["solve_cli"], 2),
    (&["solve_cli", "--help"], 0),
    (&["solve_cli", "--version"], 0),
    (&["solve_cli", "alone", "--help"], 0),
    (&["solve_cli", "alone"], 2),
    (&["solve_cli", "alone", "a", "b"], 2),
    (&["solve_cli", "check", "a"], 2),
    (&["solve_cli", "simulate", "a"], 9),
    (&["solve_cli", "simulate", "a", "--nodes", "0"], 2),
    (&["solve_cli", "simulate", "a", "--nodes", "17"], 2),
    (&["solve_cli", "simulate", "a", "--turns", "10000001"], 2),
    (&["solve_cli", "simulate", "a", "--restarts", "101"], 2),
    (&["solve_cli", "solve", "a"], 9),
    (&["solve_cli", "solve"], 2),
    (&["solve_cli", "solve", "a", "--workers", "1"], 9),
    (&["solve_cli", "solve", "a", "--workers", "0"], 2),
    (&["solve_cli", "solve", "a", "--workers", "9"], 2),
    (&["solve_cli", "solve", "a", "--nodes", "17"], 2),
    (&["solve_cli", "solve", "a", "--turns", "10000001"], 2),
    (&["solve_cli", "solve", "a", "--restarts", "0"], 9),
    (&["solve_cli", "solve", "a", "--restarts", "101"], 2),
    (&["solve_cli", "solve", "a", "--audit"], 9),
    (&["solve_cli", "solve", "a", "--audit", "--audit"], 2),
    (&["solve_cli", "solve", "a", "--audit=true"], 2),
    (&["solve_cli", "solve", "a", "--audit", "true"], 2),
    (&["solve_cli", "alone", "a", "--audit"], 2),
    (&["solve_cli", "check", "a", "b", "--audit"], 2),
    (&["solve_cli", "simulate", "a", "--audit"], 2),
    (&["solve_cli", "simulate", "a", "--workers", "2"], 2),
    (&["solve_cli", "solve", "a", "--megabytes", "0"], 2),
    (&["solve_cli", "solve", "a", "--megabytes", "1000001"], 2),
    (&["solve_cli", "solve", "a", "--megabytes", "+5"], 2),
    (&["solve_cli", "solve", "a", "--megabytes", "5MB"], 2),
    (&["solve_cli", "solve", "a", "--megabytes"], 2),
    (&["solve_cli", "answer", "a", "--megabytes", "5"], 2),
    (&["solve_cli", "simulate", "a", "--megabytes", "5"], 2),
    (&["solve_cli", "solve", "a", "--seconds", "0"], 2),
    (&["solve_cli", "solve", "a", "--seconds", "1000001"], 2),
    (&["solve_cli", "solve", "a", "--seconds", "1.5"], 2),
    (&["solve_cli", "solve", "a", "--seconds", "+5"], 2),
    (&["solve_cli", "solve", "a", "--seconds", ""], 2),
    (&["solve_cli", "solve", "a", "--seconds"], 2),
    (&["solve_cli", "alone", "a", "--seconds", "5"], 9),
    (&["solve_cli", "alone", "a", "--seconds", "0"], 2),
    (&["solve_cli", "alone", "a", "--certificate", "b"], 2),
    (
        &[
            "solve_cli",
            "alone",
            "a",
            "--seconds=5",
            "--certificate",
            "b",
        ],
        2,
    ),
    (&["solve_cli", "why", "a", "--certificate"], 2),
    (&["solve_cli", "answer", "a", "--certificate", "b"], 9),
    (&["solve_cli", "answer", "a", "--certificate"], 2),
    (&["solve_cli", "learn", "a", "--certificate"], 2),
    (&["solve_cli", "check", "a", "b", "--seconds", "5"], 9),
    (&["solve_cli", "check", "a", "b", "--seconds", "1000001"], 2),
    (&["solve_cli", "why", "a", "--seconds", "5"], 2),
    (&["solve_cli", "simulate", "a", "--seconds", "5"], 2),
    (&["solve_cli", "answer", "a", "--threads", "2"], 9),
    (&["solve_cli", "answer", "a", "--threads", "10"], 9),
    (&["solve_cli", "answer", "a", "--threads", "1"], 2),
    (&["solve_cli", "answer", "a", "--threads", "11"], 2),
    (&["solve_cli", "answer", "a", "--threads", "+2"], 2),
    (&["solve_cli", "alone", "a", "--threads", "2"], 2),
    (&["solve_cli", "solve", "a", "--threads", "2"], 2),
    (&["solve_cli", "check", "a", "b", "--progress"], 2),
    (&["solve_cli", "simulate", "a", "--progress"], 2),
    (&["solve_cli", "alone", "a", "--progress", "1"], 2),
    (&["solve_cli", "alone", "a", "--fuel"], 2),
    (&["solve_cli", "alone", "a", "--fuel", "0"], 2),
    (&["solve_cli", "alone", "a", "--fuel", "+5"], 2),
    (&["solve_cli", "alone", "a", "--fuel", "-5"], 2),
    (&["solve_cli", "alone", "a", "--fuel", "5x"], 2),
    (&["solve_cli", "alone", "a", "--fuel", ""], 2),
    (
        &["solve_cli", "alone", "a", "--fuel", "1", "--fuel", "1"],
        2,
    ),
    (
        &["solve_cli", "alone", "a", "--fuel", "18446744073709551615"],
        9,
    ),
    (
        &["solve_cli", "alone", "a", "--fuel", "18446744073709551616"],
        2,
    ),
    (&["solve_cli", "alone", "a", "--unlimited"], 9),
    (&["solve_cli", "check", "a", "b", "--unlimited"], 9),
    (
        &["solve_cli", "alone", "a", "--unlimited", "--fuel", "7"],
        2,
    ),
    (&["solve_cli", "alone", "a", "--unlimited", "1"], 2),
    (&["solve_cli", "solve", "a", "--unlimited"], 2),
    (&["solve_cli", "simulate", "a", "--unlimited"], 2),
    (&["solve_cli", "alone", "a", "--nodes", "4"], 2),
    (&["solve_cli", "alone", "-"], 9),
    (&["solve_cli", "check", "-", "b"], 9),
    (&["solve_cli", "check", "a", "-"], 9),
    (&["solve_cli", "check", "-", "-"], 2),
    (&["solve_cli", "alone", "-V"], 0),
    (&["solve_cli", "check", "--version"], 0),
    (&["solve_cli", "solve", "-V"], 0),
];

#[test]
fn refuses_words(rt: HostRuntime) {
    for (words, status) in WORDS.iter() {
        assert!(rt; status_of(rt.alloc(), words) == *status);
    }
}

/// Returns what is reported of words that are no command line.
fn reported<R: Abort>(rt: &R, alloc: Global, words: &[&str]) -> String {
    match settings(alloc, words) {
        Err(SettingsFault::Line(error)) => error.to_string(alloc).expect(rt, "memory"),
        _ => String::new(alloc),
    }
}

/// Values that are refused, each with what is reported: the option and its range, and the usage of its own subcommand
/// by the name that the program was called by.
static VALUES: [(&[&str], &str); 12] = [
    (
        &["solve_cli", "alone", "a", "--fuel", "x"],
        "error: --fuel takes 1 to 18446744073709551615\n\nUsage: solve_cli alone [OPTIONS] <file>\n",
    ),
    (
        &["./solver", "check", "a", "b", "--fuel", "0"],
        "error: --fuel takes 1 to 18446744073709551615\n\nUsage: solver check [OPTIONS] <file> <answer>\n",
    ),
    (
        &["solve_cli", "alone", "a", "--unlimited", "--fuel", "7"],
        "error: --unlimited can't be used with --fuel\n\nUsage: solve_cli alone [OPTIONS] <file>\n",
    ),
    (
        &["solve_cli", "simulate", "a", "--nodes", "17", "--seed", "x"],
        "error: --nodes takes 1 to 16\n\nUsage: solve_cli simulate [OPTIONS] <file>\n",
    ),
    (
        &["solve_cli", "simulate", "a", "--restarts", "101"],
        "error: --restarts takes 0 to 100\n\nUsage: solve_cli simulate [OPTIONS] <file>\n",
    ),
    (
        &["/usr/bin/solve_cli", "solve", "a", "--workers", "9"],
        "error: --workers takes 1 to 8\n\nUsage: solve_cli solve [OPTIONS] <file>\n",
    ),
    (
        &["solve_cli", "solve", "a", "--megabytes", "0"],
        "error: --megabytes takes 1 to 1000000\n\nUsage: solve_cli solve [OPTIONS] <file>\n",
    ),
    (
        &["solve_cli", "solve", "a", "--turns", "10000001"],
        "error: --turns takes 0 to 10000000\n\nUsage: solve_cli solve [OPTIONS] <file>\n",
    ),
    (
        &["solve_cli", "solve", "a", "--seconds", "0", "--seed", "x"],
        "error: --seconds takes 1 to 1000000\n\nUsage: solve_cli solve [OPTIONS] <file>\n",
    ),
    (
        &["solve_cli", "alone", "a", "--seconds", "1000001"],
        "error: --seconds takes 1 to 1000000\n\nUsage: solve_cli alone [OPTIONS] <file>\n",
    ),
    (
        &["solve_cli", "answer", "a", "--threads", "64"],
        "error: --threads takes 2 to 10\n\nUsage: solve_cli answer [OPTIONS] <file>\n",
    ),
    (
        &["solve_cli", "check", "-", "-"],
        "error: - is standard input, which can be read once: as the file or as the answer\n\nUsage: solve_cli check [OPTIONS] <file> <answer>\n",
    ),
];

#[test]
fn a_refused_value_tells_its_range_and_the_usage_of_its_subcommand(rt: HostRuntime) {
    for (words, begin) in VALUES.iter() {
        let text = reported(&rt, rt.alloc(), words);
        assert!(rt; text.as_str().starts_with(begin), "{text}");
    }
}
