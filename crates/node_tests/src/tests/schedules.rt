//! When a site acts although nothing came, and what an idle worker does: scripts of what each is asked, with the
//! answers expected.
//!
//! Of the bugs of `udp_node` that are kept outside the gate, `schedules` finds `greets_at_each_look`,
//! `each_run_ends_after_half_a_day` and `says_again_as_often`, `time_that_a_process_was_held_up` finds
//! `all_time_counts`, `idle_turns` finds `naps_of_20_microseconds`, `savings` finds `single_searches_show_savings`,
//! `a_spared_worker_is_roused` finds `spared_workers_are_not_roused`, `an_idle_worker_is_roused_at_the_end` finds
//! `nobody_is_roused_at_the_end`, and `rooms` finds `each_worker_has_all_room`. Of the bugs of `site_limits` that are
//! kept outside the gate, `a_run_ends_by_its_limit_or_by_a_site` finds `without_a_clock_there_is_no_limit`.

use self::Step::{Announces, Ends, Greets, Hears, IsSilent, IsSpent, Repeats};
use site_limits::Ending;
use std::io;
use std::sync::atomic::{AtomicU64, Ordering};
use std::test::Fail;
use std::time::{Clock, Duration, Instant};
use udp_node::{
    EndCause, IdleTurn, Idleness, OwnTime, Plan, Savings, Schedule, Shown, Signals, Timing,
    room_for,
};

/// What a schedule is asked or told, at a time in milliseconds.
#[derive(Clone, Copy, Debug)]
enum Step {
    /// Whether the registry is to be greeted.
    Greets(u64, bool),
    /// A packet came that shows the run going on.
    Hears(u64),
    /// Whether none came for long.
    IsSilent(u64, bool),
    /// Whether what may be lost is to be said again, where so much was said in all.
    Repeats(u64, u64, bool),
    /// Whether the end was announced often enough.
    Announces(bool),
    /// Whether a site that is to end ends now, with an empty receive or not.
    Ends(u64, bool, bool),
    /// Whether the site's time is over.
    IsSpent(u64, bool),
}

/// A node of the program: greetings each five seconds, silence after thirty, and of what may be lost after 160
/// milliseconds, 320 more, 640 more and so on, up to 5,120.
static USUAL: [Step; 37] = [
    Greets(0, true),
    Greets(0, false),
    Greets(4_999, false),
    Greets(5_000, true),
    Greets(9_999, false),
    Greets(12_000, true),
    Greets(16_999, false),
    Greets(17_000, true),
    Repeats(159, 0, false),
    Repeats(160, 0, true),
    Repeats(160, 0, false),
    Repeats(479, 0, false),
    Repeats(480, 0, true),
    Repeats(1_119, 0, false),
    Repeats(1_120, 0, true),
    Repeats(2_400, 0, true),
    Repeats(4_960, 0, true),
    Repeats(10_079, 0, false),
    Repeats(10_080, 0, true),
    Repeats(15_199, 0, false),
    Repeats(15_200, 0, true),
    // something new was said: it is said again soon, and then each time later
    Repeats(16_000, 1, false),
    Repeats(16_159, 1, false),
    Repeats(16_160, 1, true),
    Repeats(16_479, 1, false),
    // what is new doesn't put off what isn't
    Repeats(16_479, 2, false),
    Repeats(16_480, 2, true),
    Repeats(16_799, 2, false),
    Repeats(16_800, 2, true),
    IsSilent(29_999, false),
    IsSilent(30_000, true),
    Hears(30_000),
    IsSilent(59_999, false),
    IsSilent(60_000, true),
    // a million turns of four seconds each
    IsSpent(3_999_999_999, false),
    IsSpent(4_000_000_000, true),
    Announces(false),
];

/// A site that another incarnation follows: its million turns are of four milliseconds each. One that is to end goes on
/// while packets come, for a second.
static FOLLOWED: [Step; 6] = [
    IsSpent(3_999_999, false),
    IsSpent(4_000_000, true),
    Ends(100, false, false),
    Ends(1_099, false, false),
    Ends(1_100, false, true),
    Ends(101, true, true),
];

/// So many milliseconds in microseconds.
fn micros(millis: u64) -> u64 {
    millis.saturating_mul(1_000)
}

/// Whether the schedule answers so.
fn is_answered(schedule: &mut Schedule, step: Step) -> bool {
    match step {
        Greets(now, answer) => schedule.greet_if_due(micros(now)) == answer,
        IsSilent(now, answer) => schedule.is_silent(micros(now)) == answer,
        Repeats(now, said, answer) => schedule.repeat_if_due(micros(now), said) == answer,
        Announces(answer) => schedule.has_announced() == answer,
        Ends(now, is_empty, answer) => schedule.end_if_quiet(micros(now), is_empty) == answer,
        IsSpent(now, answer) => schedule.is_spent(micros(now)) == answer,
        Hears(now) => {
            schedule.hear(micros(now));
            true
        }
    }
}

/// The number of the first step, if any, that is answered otherwise by a schedule of this kind.
fn first_wrong(is_last: bool, steps: &[Step]) -> Option<usize> {
    let mut schedule = Schedule::new(Timing::USUAL, 1_000_000, is_last);
    steps
        .iter()
        .position(|step| !is_answered(&mut schedule, *step))
}

/// How often the end is announced after the search was over, by looks a hundredth of a millisecond apart; none where it
/// goes on for ever.
fn announcements() -> Option<u32> {
    let mut schedule = Schedule::new(Timing::USUAL, 1_000_000, true);
    schedule.end(7_000);
    let mut count = 0u32;
    for look in 700..2_000 {
        if schedule.has_announced() {
            return Some(count);
        }
        if schedule.repeat_if_due(10 * look, 9) {
            count = count.saturating_add(1);
        }
    }
    None
}

#[test]
fn schedules(rt: HostRuntime) {
    assert_eq!(rt; first_wrong(true, &USUAL), None);
    assert_eq!(rt; first_wrong(false, &FOLLOWED), None);
    assert_eq!(rt; announcements(), Some(20));
}

/// A clock that shows these milliseconds, or can't be read where they are the greatest number.
#[derive(Drop)]
struct ToldClock {
    millis: AtomicU64,
}

impl Clock for ToldClock {
    fn monotonic(&self) -> io::Result<Duration> {
        match self.millis.load(Ordering::SeqCst) {
            u64::MAX => Err(io::Error::from(io::ErrorKind::Other)),
            millis => Ok(Duration::from_millis(millis)),
        }
    }

    fn since_1970(&self) -> io::Result<Duration> {
        self.monotonic()
    }
}

/// What a clock shows, and a thread's own time after it has looked, both in milliseconds.
static LOOKS: [(u64, u64); 9] = [
    (500, 0),
    (500, 0),
    (507, 7),
    (607, 107),
    // held up: a tenth of a second counts
    (90_607, 207),
    // it can't be read: four milliseconds count, and none when it can be read again
    (u64::MAX, 211),
    (u64::MAX, 215),
    (90_700, 215),
    (90_701, 216),
];

#[test]
fn time_that_a_process_was_held_up(rt: HostRuntime) {
    let clock = ToldClock {
        millis: AtomicU64::new(0),
    };
    let mut time = OwnTime::new();
    for (shown, own) in LOOKS {
        clock.millis.store(shown, Ordering::SeqCst);
        assert_eq!(rt; time.look(&clock), micros(own), "{shown}");
    }
}

/// A run's limit in milliseconds, if it has one, what a clock shows as the run begins and later, and why the run ends
/// then, if it does.
static LIMITS: [(Option<u64>, u64, u64, Option<EndCause>); 6] = [
    (None, 0, 1_000_000, None),
    (None, u64::MAX, u64::MAX, None),
    (Some(500), 0, 499, None),
    (Some(500), 0, 500, Some(EndCause::Time)),
    // a clock that can't be read as the run begins, or later
    (Some(500), u64::MAX, 0, Some(EndCause::Time)),
    (Some(500), 0, u64::MAX, Some(EndCause::Time)),
];

#[test]
fn a_run_ends_by_its_limit_or_by_a_site(rt: HostRuntime) {
    let clock = ToldClock {
        millis: AtomicU64::new(0),
    };
    for (limit, began, shown, cause) in LIMITS {
        clock.millis.store(began, Ordering::SeqCst);
        let ending = Ending::within(&clock, limit.map(Duration::from_millis), 1);
        clock.millis.store(shown, Ordering::SeqCst);
        assert_eq!(rt; ending.has_come(&clock), cause.is_some(), "{shown}");
        ending.raise();
        assert!(rt; ending.has_come(&clock));
        let told = cause.unwrap_or(EndCause::Stopped);
        assert_eq!(rt; ending.cause(&clock), told, "{shown}");
    }
}

/// How many idle turns in a row there were, how many workers the run has, and what comes next: 0 asks, else how many
/// microseconds it waits.
static IDLE: [(u32, u64, u64); 14] = [
    (0, 8, 0),
    (32, 8, 20),
    (64, 8, 0),
    (96, 8, 28),
    (640, 8, 0),
    (672, 8, 100),
    (1_040, 8, 148),
    (2_056, 8, 276),
    (5_121, 8, 660),
    (7_841, 8, 996),
    (7_873, 8, 1_000),
    (1_000_001, 8, 1_000),
    (1_000_001, 128, 16_000),
    (1_000_001, 1, 1_000),
];

/// What a worker does that has had so many idle turns.
fn after_idle_turns(turns: u32, workers: u64) -> IdleTurn {
    let mut idleness = Idleness::new();
    for _ in 0..turns {
        idleness.next(workers);
    }
    idleness.next(workers)
}

#[test]
fn idle_turns(rt: HostRuntime) {
    for (turns, workers, micros) in IDLE {
        let expected = match micros {
            0 => IdleTurn::Asks,
            micros => IdleTurn::Waits(Duration::from_micros(micros)),
        };
        assert_eq!(rt; after_idle_turns(turns, workers), expected, "{turns}");
    }
    assert_eq!(rt; after_idle_turns(33, 8), IdleTurn::Passes);
    let mut idleness = Idleness::new();
    idleness.next(8);
    idleness.end();
    assert_eq!(rt; idleness.next(8), IdleTurn::Asks);
}

/// Searches of a worker: how many visits each made, how many were gone by it, and what is shown then.
static SEARCHES: [(u64, u64, Shown); 9] = [
    (10, 9_999, Shown::Nothing),
    (10, 10_000, Shown::Much),
    // short searches that save little show it together
    (29_999, 60_000, Shown::Nothing),
    (1, 2, Shown::Little),
    (15_000, 14_990_000, Shown::Nothing),
    (15_000, 14_990_000, Shown::Little),
    (0, 999, Shown::Nothing),
    (0, 1_000, Shown::Much),
    (30_000, 30_000, Shown::Little),
];

#[test]
fn savings(rt: HostRuntime) {
    let mut savings = Savings::new();
    for (made, gone, shown) in SEARCHES {
        assert_eq!(rt; savings.note(made, gone), shown, "{made} {gone}");
    }
}

/// A worker that left all jobs to another doesn't wait for long once that one leaves them to all again: by itself it
/// would for a minute.
#[test]
fn a_spared_worker_is_roused(rt: HostRuntime) -> Result<(), Fail> {
    let signals = Signals::new(2, true);
    signals.work_alone(0);
    assert!(rt; signals.is_spared(1) && !signals.is_spared(0));
    signals.work_together(0);
    assert!(rt; !signals.is_spared(1));
    let begun = Instant::now(&rt)?;
    signals.wait_spared(&rt, 1);
    assert!(rt; begun.elapsed(&rt)? < Duration::from_secs(30));
    Ok(())
}

/// A worker that found nothing to do doesn't wait on once its site is to end.
#[test]
fn an_idle_worker_is_roused_at_the_end(rt: HostRuntime) -> Result<(), Fail> {
    let signals = Signals::new(2, true);
    signals.stop();
    let begun = Instant::now(&rt)?;
    signals.wait_idle(&rt, 1, Duration::from_secs(40));
    assert!(rt; begun.elapsed(&rt)? < Duration::from_secs(30));
    Ok(())
}

/// Nodes, workers of each, and how many megabytes the states of one of them may take.
static ROOMS: [(u8, u8, u64); 5] = [(1, 1, 64), (1, 4, 64), (4, 2, 32), (16, 1, 16), (16, 8, 2)];

#[test]
fn rooms(rt: HostRuntime) -> Result<(), Fail> {
    for (nodes, workers, megabytes) in ROOMS {
        let plan = Plan {
            workers,
            nodes,
            fuel: 1_000,
            seed: 1,
            turns: 1,
            timing: Timing::USUAL,
            entries: 1,
            book_bytes: 1_000_000_000,
            restarts: 0,
            limit: None,
        };
        assert_eq!(rt; room_for(plan), megabytes << 20, "{nodes} x {workers}");
    }
    Ok(())
}
