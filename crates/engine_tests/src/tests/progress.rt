//! How far a search has come: the share of the tree, the lines, and that they change no answer.
//!
//! Of the bugs of `search_engines` that are kept outside the gate,
//! `what_comes_before_a_prefix_is_not_behind_its_search` finds `done_part_counts_from_the_root`,
//! `listed_lines_become_rarer` finds `a_line_each_second_all_night`, `a_forecast_is_of_the_rest` finds
//! `a_forecast_of_what_is_done`, and `visits_that_are_skipped_are_not_shown` finds `skipped_visits_are_shown` and
//! `a_limit_of_time_hears_of_no_visits`.

use super::boards::board;
use dlx_reader::{CountedReader, CountedWriter, read_problem};
use search_engines::{
    Forecast, LineStyle, LineTimer, Progress, ProgressLog, SearchLimits, TimeLimit, TreeEstimate,
    alone_engine, alone_within,
};
use std::alloc::Global;
use std::io;
use std::sync::atomic::{AtomicU64, Ordering};
use std::test::Fail;
use std::time::{Clock, Duration};

/// Seven items and six options. The branch item is `a`, with options 1 and 3; after option 3 it is `b`, with option 4.
const SEVEN: &str = "a b c d e f g\nc e\na d g\nb c f\na d f\nb g\nd e g\n";

/// Two items with three options each.
const SIX: &str = "a b\na\na\na\nb\nb\nb\n";

/// Chosen options of a problem, with how much lies behind a search that has chosen them, of 10^18.
static SHARES: [(&str, &[u16], u64); 9] = [
    (SEVEN, &[], 500_000_000_000_000_000),
    (SEVEN, &[1], 250_000_000_000_000_000),
    (SEVEN, &[3], 750_000_000_000_000_000),
    (SEVEN, &[3, 4], 750_000_000_000_000_000),
    (SEVEN, &[4], 500_000_000_000_000_000),
    (SIX, &[1], 499_999_999_999_999_999),
    (SIX, &[0, 3], 55_555_555_555_555_555),
    (SIX, &[2, 5], 944_444_444_444_444_443),
    (SIX, &[2, 2], 833_333_333_333_333_332),
];

#[test]
fn shares_are_those_of_the_children_behind(rt: HostRuntime) -> Result<(), Fail> {
    for (text, chosen, share) in SHARES.iter() {
        let read = read_problem(rt.alloc(), text.as_bytes())?;
        let mut estimate = TreeEstimate::new(rt.alloc(), &read.problem)?;
        assert_eq!(rt; estimate.share(chosen), *share, "{text}");
        assert_eq!(rt; estimate.share(chosen), *share, "{text}");
    }
    Ok(())
}

/// How long a prefix is, the chosen options of a search of it, and how much of what counts for it lies behind that.
static SHARES_BELOW: [(usize, &[u16], u64); 5] = [
    (0, &[2, 5], 944_444_444_444_444_443),
    (1, &[2, 5], 277_777_777_777_777_777),
    (2, &[2, 5], 55_555_555_555_555_555),
    (1, &[2, 3], 55_555_555_555_555_555),
    (3, &[2, 3], 55_555_555_555_555_555),
];

#[test]
fn what_comes_before_a_prefix_is_not_behind_its_search(rt: HostRuntime) -> Result<(), Fail> {
    let read = read_problem(rt.alloc(), SIX.as_bytes())?;
    let mut estimate = TreeEstimate::new(rt.alloc(), &read.problem)?;
    for (length, chosen, share) in SHARES_BELOW.iter() {
        assert_eq!(rt; estimate.share_below(*length, chosen), *share);
    }
    Ok(())
}

/// How far a search has come, with its line.
static PROGRESSES: [(Progress, &str); 4] = [
    (
        Progress {
            seconds: 1,
            visits: 1023,
            share: 0,
            jobs: None,
            fullest: None,
        },
        "1 s: 1023 visits,   0.0000 % of the tree",
    ),
    (
        Progress {
            seconds: 9,
            visits: 34_567_890,
            share: 944_444_444_444_444_443,
            jobs: Some(8),
            fullest: Some(3),
        },
        "9 s: 34567890 visits,  94.4444 % of the tree, 8 jobs out, fullest book 3 %",
    ),
    (
        Progress {
            seconds: 60,
            visits: 5,
            share: TreeEstimate::WHOLE / 2,
            jobs: Some(1),
            fullest: Some(100),
        },
        "60 s: 5 visits,  50.0000 % of the tree, 1 job out, fullest book 100 %, some 60 s left",
    ),
    (
        Progress {
            seconds: 300,
            visits: u64::MAX,
            share: TreeEstimate::WHOLE,
            jobs: None,
            fullest: None,
        },
        "300 s: 18446744073709551615 visits, 100.0000 % of the tree",
    ),
];

#[test]
fn a_line_has_time_visits_and_share(rt: HostRuntime) -> Result<(), Fail> {
    for (progress, line) in PROGRESSES.iter() {
        let text = format!(in rt.alloc(); "{progress}")?;
        assert_eq!(rt; text.as_str(), *line);
    }
    Ok(())
}

/// Seven pigeons and six holes, which is no cover, in 1,957 visits; but few of these states differ, so a search that
/// keeps them ends at once.
const PIGEONS: &str = "1 2 3 4 5 6 7 | a b c d e f\n\
    1 a\n1 b\n1 c\n1 d\n1 e\n1 f\n2 a\n2 b\n2 c\n2 d\n2 e\n2 f\n3 a\n3 b\n3 c\n3 d\n3 e\n3 f\n4 a\n4 b\n4 c\n4 d\n4 e\n4 f\n\
    5 a\n5 b\n5 c\n5 d\n5 e\n5 f\n6 a\n6 b\n6 c\n6 d\n6 e\n6 f\n7 a\n7 b\n7 c\n7 d\n7 e\n7 f\n";

/// Ten queens on a torus, no two of which are in one row, column or diagonal: there is no cover, and no state is met
/// twice in 2,331 visits.
pub const QUEENS: &str =
    "r0 r1 r2 r3 r4 r5 r6 r7 r8 r9 c0 c1 c2 c3 c4 c5 c6 c7 c8 c9 | a0 a1 a2 a3 a4 a5 a6 a7 a8 a9 b0 b1 b2 b3 b4 b5 b6 b7 b8 b9\nr0 c0 a0 b0\nr0 c1 a1 b9\nr0 c2 a2 b8\nr0 c3 a3 b7\nr0 c4 a4 b6\nr0 c5 a5 b5\nr0 c6 a6 b4\nr0 c7 a7 b3\nr0 c8 a8 b2\nr0 c9 a9 b1\nr1 c0 a1 b1\nr1 c1 a2 b0\nr1 c2 a3 b9\nr1 c3 a4 b8\nr1 c4 a5 b7\nr1 c5 a6 b6\nr1 c6 a7 b5\nr1 c7 a8 b4\nr1 c8 a9 b3\nr1 c9 a0 b2\nr2 c0 a2 b2\nr2 c1 a3 b1\nr2 c2 a4 b0\nr2 c3 a5 b9\nr2 c4 a6 b8\nr2 c5 a7 b7\nr2 c6 a8 b6\nr2 c7 a9 b5\nr2 c8 a0 b4\nr2 c9 a1 b3\nr3 c0 a3 b3\nr3 c1 a4 b2\nr3 c2 a5 b1\nr3 c3 a6 b0\nr3 c4 a7 b9\nr3 c5 a8 b8\nr3 c6 a9 b7\nr3 c7 a0 b6\nr3 c8 a1 b5\nr3 c9 a2 b4\nr4 c0 a4 b4\nr4 c1 a5 b3\nr4 c2 a6 b2\nr4 c3 a7 b1\nr4 c4 a8 b0\nr4 c5 a9 b9\nr4 c6 a0 b8\nr4 c7 a1 b7\nr4 c8 a2 b6\nr4 c9 a3 b5\nr5 c0 a5 b5\nr5 c1 a6 b4\nr5 c2 a7 b3\nr5 c3 a8 b2\nr5 c4 a9 b1\nr5 c5 a0 b0\nr5 c6 a1 b9\nr5 c7 a2 b8\nr5 c8 a3 b7\nr5 c9 a4 b6\nr6 c0 a6 b6\nr6 c1 a7 b5\nr6 c2 a8 b4\nr6 c3 a9 b3\nr6 c4 a0 b2\nr6 c5 a1 b1\nr6 c6 a2 b0\nr6 c7 a3 b9\nr6 c8 a4 b8\nr6 c9 a5 b7\nr7 c0 a7 b7\nr7 c1 a8 b6\nr7 c2 a9 b5\nr7 c3 a0 b4\nr7 c4 a1 b3\nr7 c5 a2 b2\nr7 c6 a3 b1\nr7 c7 a4 b0\nr7 c8 a5 b9\nr7 c9 a6 b8\nr8 c0 a8 b8\nr8 c1 a9 b7\nr8 c2 a0 b6\nr8 c3 a1 b5\nr8 c4 a2 b4\nr8 c5 a3 b3\nr8 c6 a4 b2\nr8 c7 a5 b1\nr8 c8 a6 b0\nr8 c9 a7 b9\nr9 c0 a9 b9\nr9 c1 a0 b8\nr9 c2 a1 b7\nr9 c3 a2 b6\nr9 c4 a3 b5\nr9 c5 a4 b4\nr9 c6 a5 b3\nr9 c7 a6 b2\nr9 c8 a7 b1\nr9 c9 a8 b0\n";

/// A clock that is a second later each time that it is read.
#[derive(Drop)]
pub struct Ticking {
    pub seconds: AtomicU64,
}

impl Clock for Ticking {
    fn monotonic(&self) -> io::Result<Duration> {
        Ok(Duration::from_secs(self.seconds.fetch_add(1, Ordering::SeqCst) % 1_000_000))
    }

    fn since_1970(&self) -> io::Result<Duration> {
        self.monotonic()
    }
}

/// What `alone` writes of a problem with so much fuel, and its status.
fn alone(alloc: Global, text: &str, fuel: u64) -> Result<(Vec<u8>, u8), Fail> {
    let mut out = Vec::new(alloc);
    let mut source = CountedReader::new(text.as_bytes());
    let end = alone_engine(
        alloc,
        fuel.max(1),
        &mut source,
        &mut CountedWriter::new(&mut out),
    )?;
    Ok((out, end.status))
}

/// The same with progress, within so many seconds if any, and what is written of that.
fn followed(
    alloc: Global,
    text: &str,
    fuel: u64,
    seconds: Option<u64>,
    style: LineStyle,
) -> Result<(Vec<u8>, u8, Vec<u8>), Fail> {
    let mut out = Vec::new(alloc);
    let mut log_text = Vec::new(alloc);
    let mut source = CountedReader::new(text.as_bytes());
    let mut errors = CountedWriter::new(&mut log_text);
    let clock = Ticking {
        seconds: AtomicU64::new(0),
    };
    let log = ProgressLog::new(&mut errors, style);
    let time = seconds.map(|limit| TimeLimit::from_now(&clock, Duration::from_secs(limit)));
    let limits = SearchLimits::new(Some(fuel.max(1)), time);
    let mut sink = CountedWriter::new(&mut out);
    let end = alone_within(&clock, alloc, &limits, &mut source, &mut sink, log)?;
    Ok((out, end.status, log_text))
}

/// Problems and fuels, with the lines of their progress where a second goes by from look to look.
static SEARCHES: [(&str, u64, &str); 4] = [
    (SEVEN, 100, ""),
    (SEVEN, 5, ""),
    (PIGEONS, 2048, ""),
    (QUEENS, 1900, "1 s: 1024 visits,  43.6607 % of the tree\n"),
];

#[test]
fn progress_changes_no_answer(rt: HostRuntime) -> Result<(), Fail> {
    for (text, fuel, lines) in SEARCHES.iter() {
        let (out, status) = alone(rt.alloc(), text, *fuel)?;
        let (followed_out, followed_status, log_text) = followed(
            rt.alloc(),
            text,
            *fuel,
            None,
            LineStyle::Listed,
        )?;
        assert!(rt; followed_out.as_slice() == out.as_slice() && followed_status == status);
        assert!(rt; log_text.as_slice() == lines.as_bytes(), "{text}");
        let (_out, _status, silent_text) = followed(
            rt.alloc(),
            text,
            *fuel,
            None,
            LineStyle::Silent,
        )?;
        assert!(rt; silent_text.is_empty(), "{text}");
    }
    Ok(())
}

/// How many visits the last line of a log names.
fn last_visits(log_text: &[u8]) -> Option<u64> {
    let text = str::from_utf8(log_text).ok()?;
    let (_before, line) = text.trim_end().rsplit_once('\n')?;
    let (told, _share) = line.split_once(" visits")?;
    let (_seconds, visits) = told.rsplit_once(' ')?;
    visits.parse().ok()
}

/// A search of 10^15 visits that goes past the states that it meets again makes some 80,000, and says so; also where a
/// limit of time watches it.
#[test]
fn visits_that_are_skipped_are_not_shown(rt: HostRuntime) -> Result<(), Fail> {
    let text = board(&rt, rt.alloc(), 12, 12);
    for seconds in [None, Some(9_999)] {
        let (_out, _status, log_text) = followed(
            rt.alloc(),
            &text,
            u64::MAX,
            seconds,
            LineStyle::Listed,
        )?;
        let visits = last_visits(&log_text);
        assert!(rt; matches!(visits, Some(10_000..=200_000)), "{visits:?}");
    }
    Ok(())
}

#[test]
fn a_terminal_has_one_line(rt: HostRuntime) -> Result<(), Fail> {
    let (_out, _status, log_text) = followed(
        rt.alloc(),
        QUEENS,
        1500,
        None,
        LineStyle::Overwritten,
    )?;
    assert!(rt;
        log_text.as_slice() == b"\r1 s: 1024 visits,  43.6607 % of the tree \x1b[K\n".as_slice()
    );
    Ok(())
}

/// How much of a tree is done after so many seconds, and what is thought of the rest.
static FORECASTS: [(u64, u64, &str); 9] = [
    (9, TreeEstimate::WHOLE / 2, ""),
    (10, TreeEstimate::WHOLE / 2, "some 10 s left"),
    (119, TreeEstimate::WHOLE / 2, "some 119 s left"),
    (100, TreeEstimate::WHOLE / 4, "some 5 min left"),
    (3_600, TreeEstimate::WHOLE / 10, "some 9 h left"),
    (86_400, TreeEstimate::WHOLE / 100, "some 99 days left"),
    (50, TreeEstimate::WHOLE / 10_000 - 1, ""),
    (50, TreeEstimate::WHOLE / 10_000, "some 5 days left"),
    (1_000, TreeEstimate::WHOLE, ""),
];

#[test]
fn a_forecast_is_of_the_rest(rt: HostRuntime) -> Result<(), Fail> {
    for (seconds, share, expected) in FORECASTS {
        let text = match Forecast::of(seconds, share) {
            Some(forecast) => format!(in rt.alloc(); "{forecast}")?,
            None => String::new(rt.alloc()),
        };
        assert_eq!(rt; text.as_str(), expected, "{seconds} s");
    }
    Ok(())
}

/// How many lines there are in so many seconds.
fn lines_in(seconds: u64, style: LineStyle) -> u64 {
    let clock = Ticking {
        seconds: AtomicU64::new(0),
    };
    let mut timer = LineTimer::new(&clock);
    let mut count = 0u64;
    for _second in 0..seconds {
        if timer.due(&clock, style).is_some() {
            count = count.saturating_add(1);
        }
    }
    count
}

/// Each second in the first minute, each tenth in the first hour, and then each minute; a terminal's line each second.
#[test]
fn listed_lines_become_rarer(rt: HostRuntime) -> Result<(), Fail> {
    assert_eq!(rt; lines_in(60, LineStyle::Listed), 60);
    assert_eq!(rt; lines_in(3_600, LineStyle::Listed), 60 + 354);
    assert_eq!(rt; lines_in(4_000, LineStyle::Listed), 60 + 354 + 6);
    assert_eq!(rt; lines_in(4_000, LineStyle::Overwritten), 4_000);
    Ok(())
}
