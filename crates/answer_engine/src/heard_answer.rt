//! An answer by a search or a learner, whichever is first, and what shows that there is no cover, for whoever is to
//! write that down.

ghost use Rattle.std.specs.Prelude.{◌≡◌, ◌≢◌, None, IfOk, IfSome};
ghost use Rattle.answer_engine.specs.Answers.{AnswerSays, IsWonOf};
ghost use Rattle.dlx_reader.specs.Devices.{failed_once};
ghost use Rattle.search_engines.specs.Output.{IsOutputOf, status_in};

use crate::answer::{LaneResults, Task, first_of, or_search_alone};
use crate::basis::Won;
use crate::heard_lanes::heard_search_lane;
use crate::lanes::learner_lane;
use crate::race::Race;
use crate::race_watches::{HeardWatch, SearchLaneWatch};
use crate::telling::write_told;
use cover_problem::Problem;
use decider::Trace;
use dlx_reader::Sink;
use learner::LearnerWatch;
use search_engines::{EndWatch, EngineFault, ProgressLog, ProgressWatch, ReasonListener, Written};
use std::alloc::AllocError;
use std::sync::Wait;
use std::thread::{Threads, join};
use std::time::Clock;

/// What hears of the search and of the learner, so that each can be written down. No contract speaks of it.
#[derive(Drop)]
pub struct Listeners<T: Trace + ReasonListener + Drop, L: LearnerWatch + Drop> {
    /// What hears of the search, and of a reason by which it ends.
    pub search: T,
    /// What hears of the learner's clauses. It isn't asked whether the learner is to stop.
    pub learner: L,
    /// Whether the learner found the answer, once there is one.
    pub is_learned: bool,
}

/// Lets the search and the learner look for an answer until one of them has it or the time is over. The only error is
/// out of memory.
fn race_heard_lanes<
    V: EndWatch,
    T: Trace + ReasonListener + Drop,
    L: LearnerWatch + Drop + Send,
    R: Threads + Wait + Clock + Sync,
>(
    task: &Task<'_, R>,
    problem: &Problem,
    watch: &mut V,
    hears_search: &mut T,
    hears_learner: &mut L,
) -> Result<Option<Won>, AllocError>
    ensures { IfOk result (λ found. IfSome found (IsWonOf problem.now)) }
{
    let (rt, alloc) = (task.rt, task.alloc);
    let race = Race::new();
    let mut learning = HeardWatch {
        clock: rt,
        race: &race,
        time: task.time,
        listener: hears_learner,
    };
    let mut search = SearchLaneWatch {
        clock: rt,
        race: &race,
        time: task.time,
        inner: watch,
        states: 0,
    };
    // (the first closure may run in another thread, and the log of the search belongs to this one)
    let (learned, searched) = join(
        rt,
        || learner_lane(rt, alloc, problem, &race, &mut learning),
        || heard_search_lane(alloc, problem, &mut search, hears_search),
    );
    let ran = None;
    first_of(
        problem,
        LaneResults {
            searched,
            learned,
            ran,
        },
    )
}

/// Returns an answer; none only where the time is limited, and over. The watch and the listeners hear what found it.
/// The only error is out of memory.
fn decide_heard<
    V: EndWatch,
    T: Trace + ReasonListener + Drop,
    L: LearnerWatch + Drop + Send,
    R: Threads + Wait + Clock + Sync,
>(
    task: &Task<'_, R>,
    problem: &Problem,
    watch: &mut V,
    listeners: &mut Listeners<T, L>,
) -> Result<Option<Won>, AllocError>
    ensures right { IfOk result (λ found. IfSome found (IsWonOf problem.now)) }
    ensures decides { task.now.time ≡ None → IfOk result (λ found. found ≢ None) }
{
    let Listeners {
        search,
        learner,
        ..
    } = listeners;
    let found = race_heard_lanes(task, problem, watch, search, learner)?;
    if let Some(won) = &found {
        listeners.is_learned = won.basis.is_learning();
    }
    or_search_alone(task, problem, watch, found)
}

/// Looks for an answer, writes it, or that there is none in the time, and returns how that ended.
fn write_decided_aloud<
    V: EndWatch,
    T: Trace + ReasonListener + Drop,
    L: LearnerWatch + Drop + Send,
    W: Sink,
    R: Threads + Wait + Clock + Sync,
>(
    task: &Task<'_, R>,
    problem: &Problem,
    watch: &mut V,
    listeners: &mut Listeners<T, L>,
    sink: &mut W,
) -> Result<Written, EngineFault>
    ensures output { IsOutputOf (AnswerSays task.now.reason task.now.time problem.now)
        (W.contents sink.old) (W.contents sink.new) (status_in result) }
    ensures failed { result ≡ Err EngineFault.Write → W.failed sink.new ≡ failed_once (W.failed sink.old) }
{
    match decide_heard(task, problem, watch, listeners) {
        Ok(won) => write_told(task.alloc, problem, won.as_ref(), task.reason, sink),
        Err(_) => Err(EngineFault::Memory),
    }
}

/// Writes an exact cover of a problem, with the options in the order of the file, or `none`, whichever of two lanes
/// finds it first: a search that keeps states and looks for a reason, or a learner, which begins a tenth of a second
/// later. A run in memory isn't begun: nobody could write down what shows that it found no cover. Where the time is
/// limited it may write `no answer`. If that is asked for, what the answer rests on is written behind it. How far the
/// search has come, and which lane was first, goes to the log.
///
/// The listeners hear of both lanes, of the one that isn't first, too.
///
/// # Errors
///
/// `Write` where the sink failed, after a beginning of the text, and `Memory`, before any of it.
pub fn write_heard_answer<
    'a,
    T: Trace + ReasonListener + Drop,
    L: LearnerWatch + Drop + Send,
    W: Sink,
    E: Sink,
    R: Threads + Wait + Clock + Sync,
>(
    task: &Task<'a, R>,
    problem: &'a Problem,
    listeners: &mut Listeners<T, L>,
    sink: &mut W,
    log: ProgressLog<'a, E>,
) -> Result<Written, EngineFault>
    ensures output { IsOutputOf (AnswerSays task.now.reason task.now.time problem.now)
        (W.contents sink.old) (W.contents sink.new) (status_in result) }
    ensures failed { result ≡ Err EngineFault.Write → W.failed sink.new ≡ failed_once (W.failed sink.old) }
{
    let made = ProgressWatch::new(task.rt, task.alloc, problem, u64::MAX, log);
    let Ok(mut watch) = made else {
        return Err(EngineFault::Memory);
    };
    write_decided_aloud(task, problem, &mut watch, listeners, sink)
}
