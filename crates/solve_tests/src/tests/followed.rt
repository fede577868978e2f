//! What is written of a run that has come to no answer, by how its sites ended, and of one whose jobs can't be counted.
//!
//! Of the bugs of `cover_engines` that are kept outside the gate, `a_run_without_an_answer_tells_the_first_reason`
//! finds `last_reason_stays` and `a_stopped_site_lacked_a_thread`, `searches_are_summed` finds `visits_are_not_summed`
//! and `shares_are_not_summed`, and `jobs_that_can_not_be_counted_are_told_of_once` finds
//! `each_uncounted_job_is_told_of` and `spent_jobs_are_told_of`.

ghost use Rattle.std.specs.Prelude.{◌≤◌};

use brancher::{Finding, STATE_BYTES, Searcher, Tables, Unwatched};
use cover_engines::{FollowedRun, QuietRun};
use cover_problem::{Problem, is_prefix};
use dlx_reader::{CountedWriter, Sink, read_problem};
use search_engines::{LineStyle, ProgressLog};
use std::alloc::{AllocError, Global};
use std::io::Write;
use std::sync::Wait;
use std::test::Fail;
use std::thread;
use std::time::{Clock, Duration};
use udp_node::{EndCause, Follower, SiteEnd};

/// The end of a site by this cause, whose threads all began or not.
fn ended(cause: EndCause, is_manned: bool) -> SiteEnd {
    SiteEnd {
        cause,
        is_manned,
        ..SiteEnd::NONE
    }
}

/// The node of a site, why it ended, and whether its threads all began.
type Ended = (u8, EndCause, bool);

/// Sites in the order in which they ended, and the line.
static REASONS: [(&[Ended], &str); 13] = [
    (&[], "ended: nothing was published: try again, or answer\n"),
    (
        &[(0, EndCause::Over, true)],
        "ended: nothing was published: try again, or answer\n",
    ),
    (
        &[(1, EndCause::BookFull, true)],
        "ended: a book is full: try more --entries, or answer\n",
    ),
    (
        &[(1, EndCause::BooksFull, true)],
        "ended: the books are as large as they may be: try more --megabytes, or answer\n",
    ),
    (
        &[(2, EndCause::Faults, true)],
        "ended: a socket failed: try again, or answer\n",
    ),
    (
        &[(0, EndCause::Memory, false)],
        "ended: out of memory: try fewer --nodes or --workers\n",
    ),
    (
        &[(4, EndCause::Stopped, false)],
        "ended: a thread could not be started: try fewer --nodes or --workers\n",
    ),
    (
        &[(4, EndCause::Stopped, true)],
        "ended: a site was stopped by another: try again, or answer\n",
    ),
    (
        &[(2, EndCause::Turns, true)],
        "ended: the turns of a site are over: try more --turns\n",
    ),
    (
        &[(1, EndCause::Time, false)],
        "ended: the time is over: try more --seconds\n",
    ),
    (
        &[(1, EndCause::Silence, true)],
        "ended: a site heard nothing for long: try again, or answer\n",
    ),
    (
        &[(2, EndCause::Time, true), (0, EndCause::Silence, true)],
        "ended: the time is over: try more --seconds\n",
    ),
    (
        &[(3, EndCause::Faults, true), (0, EndCause::BookFull, true)],
        "ended: a socket failed: try again, or answer\n",
    ),
];

/// What is written where these sites ended and there is an answer or not.
fn told<R: Wait + Clock>(
    rt: &R,
    alloc: Global,
    sites: &[Ended],
    is_answered: bool,
) -> Result<Vec<u8>, Fail> {
    let read = read_problem(alloc, b"a\na\n")?;
    let mut told = Vec::new(alloc);
    let mut errors = CountedWriter::new(&mut told);
    let log = ProgressLog::new(&mut errors, LineStyle::Listed);
    let run = FollowedRun::new(rt, alloc, &read.problem, log)?;
    for (node, cause, is_manned) in sites {
        run.ended(*node, &ended(*cause, *is_manned));
    }
    run.finished(is_answered);
    drop(run);
    let quiet = told_quietly(rt, alloc, sites, is_answered);
    if quiet.as_slice() != told.as_slice() {
        return Err(Fail::new("a quiet run tells something else"));
    }
    Ok(told)
}

/// The same of a run that isn't followed, once it is over.
fn told_quietly<R: Wait + Clock>(
    rt: &R,
    alloc: Global,
    sites: &[Ended],
    is_answered: bool,
) -> Vec<u8> {
    let mut told = Vec::new(alloc);
    let mut errors = CountedWriter::new(&mut told);
    let run = QuietRun::new(rt, &mut errors);
    for (node, cause, is_manned) in sites {
        run.ended(*node, &ended(*cause, *is_manned));
    }
    run.finished(is_answered);
    let reason = run.reason();
    drop(run);
    if let Some(reason) = reason {
        let _ = writeln!(errors, "ended: {reason}");
    }
    drop(errors);
    told
}

#[test]
fn a_run_without_an_answer_tells_the_first_reason(rt: HostRuntime) -> Result<(), Fail> {
    for (sites, line) in REASONS.iter() {
        let told = told(&rt, rt.alloc(), sites, false)?;
        assert!(rt; told.as_slice() == line.as_bytes(), "{line}");
    }
    Ok(())
}

#[test]
fn a_run_with_an_answer_tells_none(rt: HostRuntime) -> Result<(), Fail> {
    let told = told(&rt, rt.alloc(), &[(1, EndCause::Faults, true)], true)?;
    assert!(rt; told.is_empty());
    Ok(())
}

/// Three items and three options without a cover: the root has two children, which have none.
const TWO_CHILDREN: &[u8] = b"a b c\na b\na c\nb c\n";

/// What a search of this child of the root comes to.
fn search(alloc: Global, problem: &Problem, child: u16) -> Result<Finding, Fail> {
    let mut searcher = Searcher::new(alloc, problem)?;
    let mut prefix = Vec::new(alloc);
    prefix.push(child)?;
    if !is_prefix(problem, &prefix) {
        return Err(Fail::new("the root has another child"));
    }
    match searcher.find(prefix, 9) {
        Ok(finding) => Ok(finding),
        Err(_) => Err(Fail::new("memory ran out")),
    }
}

/// What is written of a run in which both children were searched, each with a thousand visits, the second one more than
/// a second later.
fn told_of_searches<R: Wait + Clock>(rt: &R, alloc: Global) -> Result<Vec<u8>, Fail> {
    let read = read_problem(alloc, TWO_CHILDREN)?;
    let mut told = Vec::new(alloc);
    let mut errors = CountedWriter::new(&mut told);
    let log = ProgressLog::new(&mut errors, LineStyle::Listed);
    let run = FollowedRun::new(rt, alloc, &read.problem, log)?;
    for child in 0..2u16 {
        run.begun();
        run.searched(&search(alloc, &read.problem, child)?, 1_000);
        if child == 0 {
            thread::sleep(rt, Duration::from_millis(1_100));
        }
    }
    drop(run);
    Ok(told)
}

#[test]
fn searches_are_summed(rt: HostRuntime) -> Result<(), Fail> {
    let told = told_of_searches(&rt, rt.alloc())?;
    let line = b" s: 2000 visits, 100.0000 % of the tree, 0 jobs out, fullest book 0 %\n";
    assert!(rt; told.ends_with(line.as_slice()));
    Ok(())
}

/// Items with three options each, and five that pairs don't cover: few states below very many prefixes.
fn uncounted_text(alloc: Global) -> Result<String, AllocError> {
    let mut text = String::new(alloc);
    for item in 0..60u8 {
        text.push_str(format!(in alloc; "{item} ")?.as_str())?;
    }
    text.push_str("p q r s t\n")?;
    for item in 0..60u8 {
        text.push_str(format!(in alloc; "{item}\n{item}\n{item}\n")?.as_str())?;
    }
    text.push_str("p q\np r\np s\np t\nq r\nq s\nq t\nr s\nr t\ns t\n")?;
    Ok(text)
}

/// What a search of it comes to that may count so many prefixes.
fn counted(alloc: Global, fuel: u64) -> Result<Finding, Fail>
    requires { 1 ≤ fuel }
{
    let text = uncounted_text(alloc)?;
    let read = read_problem(alloc, text.as_bytes())?;
    let tables = Tables::build(alloc, &read.problem)?;
    let mut searcher = Searcher::keeping(alloc, &tables, STATE_BYTES)?;
    match searcher.find_so_far(Vec::new(alloc), fuel, &mut Unwatched) {
        Ok(Some((finding, _))) => Ok(finding),
        _ => Err(Fail::new("the search came to nothing")),
    }
}

/// What is written of a run whose jobs came to this, so many times.
fn told_of_jobs<R: Wait + Clock>(
    rt: &R,
    alloc: Global,
    finding: &Finding,
    times: u32,
) -> Result<Vec<u8>, Fail> {
    let mut told = Vec::new(alloc);
    let mut errors = CountedWriter::new(&mut told);
    let run = QuietRun::new(rt, &mut errors);
    for _ in 0..times {
        run.searched(finding, 1);
    }
    drop(run);
    drop(errors);
    Ok(told)
}

/// The same of a run that is followed.
fn told_of_followed_jobs<R: Wait + Clock>(
    rt: &R,
    alloc: Global,
    finding: &Finding,
    times: u32,
) -> Result<Vec<u8>, Fail> {
    let read = read_problem(alloc, TWO_CHILDREN)?;
    let mut told = Vec::new(alloc);
    let mut errors = CountedWriter::new(&mut told);
    let log = ProgressLog::new(&mut errors, LineStyle::Listed);
    let run = FollowedRun::new(rt, alloc, &read.problem, log)?;
    for _ in 0..times {
        run.searched(finding, 1);
    }
    drop(run);
    drop(errors);
    Ok(told)
}

/// With how much fuel jobs are spent, how many there are of them, and what is written.
static UNCOUNTED: [(u64, u32, &str); 4] = [
    (u64::MAX, 999, ""),
    (
        u64::MAX,
        1_000,
        "many jobs count more than 2^64 - 1 prefixes, and are split without a result: try answer, which has no such limit\n",
    ),
    (
        u64::MAX,
        2_500,
        "many jobs count more than 2^64 - 1 prefixes, and are split without a result: try answer, which has no such limit\n",
    ),
    (1_000, 2_500, ""),
];

#[test]
fn jobs_that_can_not_be_counted_are_told_of_once(rt: HostRuntime) -> Result<(), Fail> {
    for (fuel, times, line) in UNCOUNTED.iter() {
        let finding = counted(rt.alloc(), (*fuel).max(1))?;
        let quiet = told_of_jobs(&rt, rt.alloc(), &finding, *times)?;
        assert!(rt; quiet.as_slice() == line.as_bytes(), "{fuel} {times}");
        let followed = told_of_followed_jobs(&rt, rt.alloc(), &finding, *times)?;
        assert!(rt;
            followed.as_slice() == line.as_bytes(),
            "{fuel} {times}, followed"
        );
    }
    Ok(())
}
