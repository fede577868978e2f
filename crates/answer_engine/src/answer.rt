//! `answer`: an answer to a file's problem, by whatever is first.

ghost use Rattle.std.specs.Prelude.{◌≡◌, ◌≢◌, IfErr, IfOk, IfSome, None};
ghost use Rattle.std.specs.Io.KnownBytes.{IsAtEnd};
ghost use Rattle.answer_engine.specs.Answers.{AnswerSays, IsWonOf};
ghost use Rattle.dlx_reader.specs.Devices.{failed_once};
ghost use Rattle.search_engines.specs.Engines.{IsEnded, refuses_none};
ghost use Rattle.search_engines.specs.Failures.{Tells, plain};
ghost use Rattle.search_engines.specs.Output.{IsOutputOf, status_in};

use crate::basis::{Basis, Won};
use crate::lanes::{learner_lane, run_lane, search_lane};
use crate::race::Race;
use crate::race_watches::{CountingWatch, LaneWatch, SearchLaneWatch};
use crate::telling::write_told;
use cover_problem::Problem;
use dlx_reader::{Sink, Source};
use search_engines::{
    EndWatch, EngineEnd, EngineFault, Failure, ProgressLog, ProgressWatch, TimeLimit, Written,
    ended_with, read_whole, search_until,
};
use std::alloc::{AllocError, Global};
use std::sync::Wait;
use std::thread::{Threads, join};
use std::time::Clock;

/// How a run of `answer` ended: with status 0 for a cover, 1 for none, 4 where the time was over.
pub type AnswerEnd = EngineEnd;

/// Where an answer is looked for, for how long, and what is written of it.
#[derive(Drop)]
pub struct Task<'a, R: Threads + Wait + Clock + Sync> {
    /// What starts threads, and tells the time.
    pub rt: &'a R,
    /// Where memory comes from.
    pub alloc: Global,
    /// How long it may last; as long as it takes where there is none.
    pub time: Option<TimeLimit>,
    /// How many threads search and learn: two, and what is more works for a run in memory. The search for a reason has
    /// one more.
    pub threads: u64,
    /// Whether what the answer rests on is written behind it.
    pub reason: bool,
}

/// What each lane has found.
#[derive(Drop)]
pub(crate) struct LaneResults {
    pub(crate) searched: Result<Option<Won>, AllocError>,
    pub(crate) learned: Result<Option<Won>, AllocError>,
    pub(crate) ran: Option<Won>,
}

/// An answer of a lane that has one; none where the search was stopped before any had. The only error is out of memory,
/// where the search ran out of it, and no other lane has an answer. (The problem is there for the contract alone.)
pub(crate) fn first_of(_problem: &Problem, found: LaneResults) -> Result<Option<Won>, AllocError>
    requires searched { IfOk found.searched (λ won. IfSome won (IsWonOf _problem.now)) }
    requires learned { IfOk found.learned (λ won. IfSome won (IsWonOf _problem.now)) }
    requires ran { IfSome found.ran (IsWonOf _problem.now) }
    ensures { IfOk result (λ found. IfSome found (IsWonOf _problem.now)) }
{
    let LaneResults {
        searched,
        learned,
        ran,
    } = found;
    match (searched, learned, ran) {
        (Ok(Some(won)), _, _) => Ok(Some(won)),
        (_, Ok(Some(won)), _) => Ok(Some(won)),
        (_, _, Some(won)) => Ok(Some(won)),
        (Ok(None), _, None) => Ok(None),
        (Err(fault), _, None) => Err(fault),
    }
}

/// A watch of a lane.
fn lane_watch<'a, 'b, R: Threads + Wait + Clock + Sync>(
    task: &Task<'a, R>,
    race: &'b Race,
) -> LaneWatch<'a, 'b, R> {
    LaneWatch {
        clock: task.rt,
        race,
        time: task.time,
    }
}

/// Lets a reason be looked for, workers run, if there are threads for them, and the search go on, until the race is
/// over.
fn run_and_search<V: EndWatch, R: Threads + Wait + Clock + Sync>(
    task: &Task<'_, R>,
    problem: &Problem,
    race: &Race,
    inner: &mut V,
) -> (Option<Won>, Result<Option<Won>, AllocError>)
    ensures ran { IfSome result.0 (IsWonOf problem.now) }
    ensures searched { IfOk result.1 (λ found. IfSome found (IsWonOf problem.now)) }
{
    let (rt, alloc, threads) = (task.rt, task.alloc, task.threads);
    let mut run = lane_watch(task, race);
    let mut search = SearchLaneWatch {
        clock: rt,
        race,
        time: task.time,
        inner,
        states: 0,
    };
    join(
        rt,
        || run_lane(rt, alloc, problem, threads, &mut run),
        || search_lane(alloc, problem, &mut search),
    )
}

/// Lets all lanes look for an answer until one of them has it or the time is over. The only error is out of memory.
fn race_lanes<V: EndWatch, R: Threads + Wait + Clock + Sync>(
    task: &Task<'_, R>,
    problem: &Problem,
    watch: &mut V,
) -> Result<Option<Won>, AllocError>
    ensures { IfOk result (λ found. IfSome found (IsWonOf problem.now)) }
{
    let (rt, alloc) = (task.rt, task.alloc);
    let race = Race::new();
    let mut learning = lane_watch(task, &race);
    // (the first closure may run in another thread, and the log of the search belongs to this one)
    let (learned, (ran, searched)) = join(
        rt,
        || learner_lane(rt, alloc, problem, &race, &mut learning),
        || run_and_search(task, problem, &race, watch),
    );
    first_of(
        problem,
        LaneResults {
            searched,
            learned,
            ran,
        },
    )
}

/// Returns an answer; none only where the time is limited, and over. The watch hears what found it. The only error is
/// out of memory.
fn decide<V: EndWatch, R: Threads + Wait + Clock + Sync>(
    task: &Task<'_, R>,
    problem: &Problem,
    watch: &mut V,
) -> Result<Option<Won>, AllocError>
    ensures right { IfOk result (λ found. IfSome found (IsWonOf problem.now)) }
    ensures decides { task.now.time ≡ None → IfOk result (λ found. found ≢ None) }
{
    let found = match (race_lanes(task, problem, watch), &task.time) {
        // (what the other lanes had is free again, and may be enough for a search alone)
        (Err(_), None) => None,
        (found, _) => found?,
    };
    or_search_alone(task, problem, watch, found)
}

/// Returns what the lanes found, or else the answer of a search alone, unless the time is limited. The watch hears what
/// the answer rests on, but no step of that search. The only error is out of memory.
pub(crate) fn or_search_alone<V: EndWatch, R: Threads + Wait + Clock + Sync>(
    task: &Task<'_, R>,
    problem: &Problem,
    watch: &mut V,
    found: Option<Won>,
) -> Result<Option<Won>, AllocError>
    requires { IfSome found (IsWonOf problem.now) }
    ensures right { IfOk result (λ found. IfSome found (IsWonOf problem.now)) }
    ensures decides { task.now.time ≡ None → IfOk result (λ found. found ≢ None) }
{
    watch.end();
    if let Some(won) = found {
        watch.tell(won.basis.line());
        return Ok(Some(won));
    }
    match &task.time {
        Some(_) => Ok(None),
        // (without a limit no lane ends before another has an answer, unless memory runs out)
        None => {
            let won = search_alone(task.alloc, problem)?;
            watch.tell(won.basis.line());
            Ok(Some(won))
        }
    }
}

/// Returns the answer of a search that nothing stops. The only error is out of memory.
#[tactic(auto, using(crate::proofs::Firsts::search_is_won))]
fn search_alone(alloc: Global, problem: &Problem) -> Result<Won, AllocError>
    ensures { IfOk result (IsWonOf problem.now) }
{
    let mut watch = CountingWatch { states: 0 };
    match search_until(alloc, problem, &mut watch)? {
        Some(answer) => {
            let basis = Basis::Search(watch.states);
            Ok(Won { answer, basis })
        }
        None => unreachable!(),
    }
}

/// Looks for an answer, writes it, or that there is none in the time, and returns how that ended.
fn write_decided<V: EndWatch, W: Sink, R: Threads + Wait + Clock + Sync>(
    task: &Task<'_, R>,
    problem: &Problem,
    watch: &mut V,
    sink: &mut W,
) -> Result<Written, EngineFault>
    ensures output { IsOutputOf (AnswerSays task.now.reason task.now.time problem.now)
        (W.contents sink.old) (W.contents sink.new) (status_in result) }
    ensures failed { result ≡ Err EngineFault.Write → W.failed sink.new ≡ failed_once (W.failed sink.old) }
{
    match decide(task, problem, watch) {
        Ok(won) => write_told(task.alloc, problem, won.as_ref(), task.reason, sink),
        Err(_) => Err(EngineFault::Memory),
    }
}

/// Reads a problem to its end, and writes an exact cover of it, with the options in the order of the file, or `none`,
/// whichever of three lanes finds it first: a search that keeps states; a learner, which begins a tenth of a second
/// later; and a reason, after a hundredth of a second, or a tenth where one thread may work, and then, where more than
/// two may, the workers of a run in memory. Where the time is limited it may write `no answer`. If that is asked for,
/// what the answer rests on is written behind it. How far the search has come, and which lane was first, goes to the
/// log.
///
/// # Errors
///
/// `Read` and `Write` if that device failed, `File` with the text's first fault, and `Memory`. After `Write` a
/// beginning of the answer's text was written, after another fault nothing. At `Memory` the source may have been read
/// in part.
pub fn answer_engine<S: Source, W: Sink, E: Sink, R: Threads + Wait + Clock + Sync>(
    task: &Task<'_, R>,
    source: &mut S,
    sink: &mut W,
    log: ProgressLog<'_, E>,
) -> Result<AnswerEnd, Failure>
    ensures ended { IfSome (S.remaining source.old) (λ text.
        IsEnded (AnswerSays task.now.reason task.now.time) refuses_none text
        (W.contents sink.old) (W.contents sink.new) (plain result)) }
    ensures read { plain result ≢ Err EngineFault.Read → plain result ≢ Err EngineFault.Memory →
        IsAtEnd (S.remaining source.new) }
    ensures read_fault { plain result ≡ Err EngineFault.Read → S.failed source.new ≡ failed_once (S.failed source.old) }
    ensures write_fault { plain result ≡ Err EngineFault.Write → W.failed sink.new ≡ failed_once (W.failed sink.old) }
    ensures told { IfSome (S.remaining source.old) (λ text. IfErr result (Tells text)) }
{
    let read = read_whole(task.alloc, source)?;
    let made = ProgressWatch::new(task.rt, task.alloc, &read.problem, u64::MAX, log);
    let Ok(mut watch) = made else {
        return Err(Failure::Other(EngineFault::Memory));
    };
    let written = write_decided(task, &read.problem, &mut watch, sink);
    ended_with(written, read.ignored)
}
