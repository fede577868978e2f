//! The threads of a site, from their start to their end.

ghost use Rattle.std.specs.Prelude.{◌≡◌, ◌+◌, ◌<◌, ◌≤◌, ◌⊎◌, IfOk, OnOk, vec_len};
ghost use Rattle.std.specs.Vec.{vec_capacity};
ghost use Rattle.site_limits.specs.declared.end_cause.EndCause.TheVariants.{Memory};

use crate::actor::Actor;
use crate::context::Context;
use crate::exchange::Exchange;
use crate::node_end::NodeEnd;
use crate::receiver::{Receiver, ReceivingThread};
use crate::schedule::Schedule;
use crate::seat_receipts::SeatReceipts;
use crate::sender::{Sender, Sent, send_all};
use crate::shared::Shared;
use crate::signals::Signals;
use crate::worker::Worker;
use brancher::Tables;
use cover_problem::Problem;
use node_core::Core;
use run_book::{CellName, Outbox, Run, SiteCell};
use site_limits::{BookBytes, EndCause, Ending, Follower, Gate, Limits, Open, Plan, SiteEnd};
use site_network::Link;
use std::alloc::{AllocError, Global};
use std::marker::PhantomData;
use std::sync::Wait;
use std::thread::{self, Threads};
use std::time::Clock;

/// What a thread is for.
#[derive(Drop)]
enum Task<L: Link> {
    /// The worker of this number.
    Work(u8),
    /// It receives.
    Receive(Receiver<L>),
}

impl<L: Link> Task<L> {
    /// Whether the site ends where the thread ended by this cause. Without the one that receives, nothing gets there
    /// any more; a worker whose turns are over leaves the rest to the others.
    fn ends_site(&self, cause: EndCause) -> bool {
        match self {
            Task::Work(_) => !matches!(cause, EndCause::Over | EndCause::Turns),
            Task::Receive(_) => true,
        }
    }
}

/// A thread of a site that acts, from its start to its end.
#[derive(Drop)]
struct ActingThread<'a, J: Run, C: Core + Drop, N: CellName, L: Link, H: Gate + Follower> {
    task: Task<L>,
    actor: Actor<'a, J, C, N, H>,
    turns: u64,
    cause: EndCause,
}

impl<'a, J: Run, C: Core + Drop, N: CellName, L: Link, H: Gate + Follower> ActingThread<
    'a,
    J,
    C,
    N,
    L,
    H,
> {
    /// A thread before its start.
    fn new(task: Task<L>, actor: Actor<'a, J, C, N, H>) -> ActingThread<'a, J, C, N, L, H> {
        ActingThread {
            task,
            actor,
            turns: 0,
            cause: EndCause::Turns,
        }
    }

    /// Runs the thread to its end.
    fn run<R: Wait + Clock>(&mut self, rt: &R) {
        let shared = self.actor.shared;
        let mut limits = Limits::new(shared.plan.turns);
        self.cause = match &mut self.task {
            Task::Work(number) => work(rt, &mut self.actor, *number, &mut limits),
            Task::Receive(receiver) => receive(rt, &mut self.actor, receiver, &mut limits),
        };
        self.turns = limits.taken();
        if self.task.ends_site(self.cause) {
            shared.signals.stop();
        }
        shared.signals.leave();
    }
}

/// Runs a worker to its end. It begins its turns once a thread of each kind has begun.
fn work<J: Run, C: Core + Drop, N: CellName, H: Gate + Follower, R: Wait + Clock>(
    rt: &R,
    actor: &mut Actor<'_, J, C, N, H>,
    number: u8,
    limits: &mut Limits,
) -> EndCause {
    let shared = actor.shared;
    // (a thread that is only started once the others have ended must not count as begun, or the site would seem manned)
    if shared.is_to_end(rt) {
        return shared.context.ending.cause(rt);
    }
    shared.signals.begin_working();
    shared.muster(rt);
    match Worker::new(rt, actor, number) {
        Ok(mut worker) => {
            let cause = worker.run(limits);
            // (the others may have left all jobs to this worker, which does none from here on)
            shared.signals.work_together(number);
            cause
        }
        Err(_) => EndCause::Memory,
    }
}

/// Runs the thread that receives to its end. It begins its turns once a thread of each kind has begun.
fn receive<J: Run, C: Core + Drop, N: CellName, L: Link, H: Gate + Follower, R: Wait + Clock>(
    rt: &R,
    actor: &mut Actor<'_, J, C, N, H>,
    receiver: &mut Receiver<L>,
    limits: &mut Limits,
) -> EndCause {
    let shared = actor.shared;
    if shared.is_to_end(rt) {
        return shared.context.ending.cause(rt);
    }
    shared.signals.begin_receiving();
    shared.muster(rt);
    let mut receiving = ReceivingThread {
        rt,
        actor,
        receiver,
    };
    receiving.run(limits)
}

/// Runs the threads of a node to their ends: its workers, one that receives and one that sends. All seats come back,
/// unless memory ran out at the start: then none does, and no thread has taken a turn.
///
/// The program calls `run_sites`, which runs all sites of a run. This is for a program that runs one site by itself,
/// over links of its own; today only tests do.
pub fn run_node<
    J: Run + Send + Sync,
    C: Core + Drop + Send,
    N: CellName + Send + Sync,
    L: Link + Send,
    H: Gate + Follower + Sync,
    R: Threads + Wait + Clock + Sync,
>(
    rt: &R,
    alloc: Global,
    cell: &SiteCell<J, C, N>,
    problem: &Problem,
    link: L,
    plan: Plan,
    hooks: &H,
) -> NodeEnd<N>
    requires { problem.now ≡ J.run.problem }
    ensures all { (vec_len result.seats ≡ plan.workers + 1) ⊎ (result.end.cause ≡ Memory) }
    ensures none { (vec_len result.seats ≡ plan.workers + 1)
        ⊎ ((vec_len result.seats ≡ 0) × (result.end.turns ≡ 0)) }
{
    let Ok(tables) = Tables::build(alloc, problem) else {
        return NodeEnd::starved(alloc);
    };
    let ending = Ending::unlimited();
    let books = BookBytes::new(plan.book_bytes);
    let context = Context {
        tables: &tables,
        hooks,
        ending: &ending,
        books: &books,
        alloc,
        run: PhantomData,
    };
    run_threads(rt, &context, cell, plan, link)
}

/// Runs the threads of the registry to their ends: one that receives and one that sends. The seat comes back, unless
/// memory ran out at the start: then it doesn't, and no thread has taken a turn.
///
/// As `run_node`, this is for a program that runs one site by itself; today only tests do.
pub fn run_root<
    J: Run + Send + Sync,
    C: Core + Drop + Send,
    N: CellName + Send + Sync,
    L: Link + Send,
    R: Threads + Wait + Clock + Sync,
>(
    rt: &R,
    alloc: Global,
    cell: &SiteCell<J, C, N>,
    problem: &Problem,
    link: L,
    plan: Plan,
) -> NodeEnd<N>
    requires { problem.now ≡ J.run.problem }
    ensures all { (vec_len result.seats ≡ 1) ⊎ (result.end.cause ≡ Memory) }
    ensures none { (vec_len result.seats ≡ 1)
        ⊎ ((vec_len result.seats ≡ 0) × (result.end.turns ≡ 0)) }
{
    let plan = Plan { workers: 0, ..plan };
    let tables = Tables::of_links(problem);
    let ending = Ending::unlimited();
    let books = BookBytes::new(plan.book_bytes);
    let context = Context {
        tables: &tables,
        hooks: &Open,
        ending: &ending,
        books: &books,
        alloc,
        run: PhantomData,
    };
    run_threads(rt, &context, cell, plan, link)
}

/// Runs the threads of a site in one of its incarnations, as `run_node` and `run_root` do, and ends them where the run
/// ends. A plan without workers is that of the registry.
pub(crate) fn run_threads<
    J: Run + Send + Sync,
    C: Core + Drop + Send,
    N: CellName + Send + Sync,
    L: Link + Send,
    H: Gate + Follower + Sync,
    R: Threads + Wait + Clock + Sync,
>(rt: &R, context: &Context<'_, J, H>, cell: &SiteCell<J, C, N>, plan: Plan, link: L) -> NodeEnd<N>
    ensures all { (vec_len result.seats ≡ plan.workers + 1) ⊎ (result.end.cause ≡ Memory) }
    ensures none { (vec_len result.seats ≡ plan.workers + 1)
        ⊎ ((vec_len result.seats ≡ 0) × (result.end.turns ≡ 0)) }
{
    let alloc = context.alloc;
    // (one handle to send by and one to receive by, so that neither thread waits for the other)
    let (Ok((outbox, drain)), Ok(twin)) = (Outbox::new(alloc), link.twin()) else {
        return NodeEnd::starved(alloc);
    };
    let Ok(exchange) = Exchange::new(alloc, plan.workers) else {
        return NodeEnd::starved(alloc);
    };
    // (the one more is the thread that receives; the one that sends puts nothing into the outbox)
    let signals = Signals::new(u64::from(plan.workers) + 1, plan.workers > 0);
    let shared = Shared {
        context,
        cell,
        outbox: &outbox,
        signals: &signals,
        exchange: &exchange,
        plan,
    };
    let Ok(crew) = Crew::new(rt, &shared, twin, plan.workers) else {
        return NodeEnd::starved(alloc);
    };
    let sender = Sender {
        outbox: &outbox,
        drain,
        link,
        signals: &signals,
    };
    let (sent, crew) = thread::join(rt, move || send_all(rt, sender), move || crew.run(rt));
    end_of(crew, sent, signals.is_manned())
}

/// The threads of a site that act, with the room for what comes of them.
#[derive(Drop)]
struct Crew<'a, J: Run, C: Core + Drop, N: CellName, L: Link, H: Gate + Follower> {
    threads: Vec<ActingThread<'a, J, C, N, L, H>>,
    seats: Vec<SeatReceipts<N>>,
    workers: u8,
    ghost many: { vec_len threads ≡ workers + 1 },
    ghost none: { vec_len seats ≡ 0 },
    ghost room: { vec_len threads ≤ vec_capacity seats },
}

impl<'a, J: Run, C: Core + Drop, N: CellName, L: Link, H: Gate + Follower> Crew<'a, J, C, N, L, H> {
    /// The threads before their start: the one that receives, and so many workers. The only error is out of memory, or
    /// that no seats are left.
    fn new<R: Wait>(
        rt: &R,
        shared: &'a Shared<'a, J, C, N, H>,
        twin: L,
        workers: u8,
    ) -> Result<Crew<'a, J, C, N, L, H>, AllocError>
        ensures { IfOk result (λ crew. crew.workers ≡ workers) }
    {
        // (taken before a thread acts: later a refusal would lose seats, and with them the site's book)
        let seats = Vec::with_capacity(shared.context.alloc, usize::from(workers) + 1)?;
        let threads = threads_for(rt, shared, twin, workers)?;
        Ok(Crew {
            threads,
            seats,
            workers,
        })
    }

    /// Runs them to their ends.
    fn run<R: Threads + Wait + Clock + Sync>(self, rt: &R) -> Crew<'a, J, C, N, L, H>
    where
        J: Send + Sync,
        C: Send,
        N: Send + Sync,
        L: Send,
        H: Sync,
        ensures { result.workers ≡ self.entry.workers }
    {
        let Crew {
            mut threads,
            seats,
            workers,
        } = self;
        run_acting(rt, &mut threads);
        Crew {
            threads,
            seats,
            workers,
        }
    }
}

/// Runs the threads that act, each to its end, at once.
fn run_acting<
    J: Run + Send + Sync,
    C: Core + Drop + Send,
    N: CellName + Send + Sync,
    L: Link + Send,
    H: Gate + Follower + Sync,
    R: Threads + Wait + Clock + Sync,
>(rt: &R, threads: &mut Vec<ActingThread<'_, J, C, N, L, H>>)
    ensures { vec_len threads.new ≡ vec_len threads.old }
{
    let count = threads.len();
    // (never so, as a crew has a thread that receives; the call below asks for one thread at least)
    if count == 0 {
        return;
    }
    // (the threads stay where they are and no list of results is made, so that no seat is lost where memory runs out)
    thread::for_each_mut(
        rt,
        threads.as_mut_slice(),
        count,
        &|_, acting_thread| { acting_thread.run(rt) },
    );
}

/// The threads before their start: the one that receives, and so many workers. The only error is out of memory, or that
/// no seats are left.
fn threads_for<'a, J: Run, C: Core + Drop, N: CellName, L: Link, H: Gate + Follower, R: Wait>(
    rt: &R,
    shared: &'a Shared<'a, J, C, N, H>,
    twin: L,
    workers: u8,
) -> Result<Vec<ActingThread<'a, J, C, N, L, H>>, AllocError>
    ensures { IfOk result (λ threads. vec_len threads ≡ workers + 1) }
{
    let mut threads = Vec::with_capacity(shared.context.alloc, usize::from(workers) + 1)?;
    let schedule = Schedule::new(shared.plan.timing, shared.plan.turns, shared.is_last());
    let receiver = Receiver::new(shared.context.alloc, twin, schedule);
    add_thread(rt, shared, &mut threads, Task::Receive(receiver))?;
    for worker in 0..workers {
        add_thread(rt, shared, &mut threads, Task::Work(worker))?;
    }
    Ok(threads)
}

/// Adds a thread before its start. The only error is out of memory, or that no seats are left.
fn add_thread<'a, J: Run, C: Core + Drop, N: CellName, L: Link, H: Gate + Follower, R: Wait>(
    rt: &R,
    shared: &'a Shared<'a, J, C, N, H>,
    threads: &mut Vec<ActingThread<'a, J, C, N, L, H>>,
    task: Task<L>,
) -> Result<(), AllocError>
    ensures { OnOk result (vec_len threads.new ≡ vec_len threads.old + 1) }
{
    let actor = Actor::new(rt, shared)?;
    threads.push(ActingThread::new(task, actor))?;
    Ok(())
}

/// Returns how the threads of a site ended, and whether there was one of each kind.
fn end_of<J: Run, C: Core + Drop, N: CellName, L: Link, H: Gate + Follower>(
    crew: Crew<'_, J, C, N, L, H>,
    sent: Sent,
    is_manned: bool,
) -> NodeEnd<N>
    ensures { vec_len result.seats ≡ crew.entry.workers + 1 }
{
    let Crew {
        threads,
        seats,
        workers: _,
    } = crew;
    let sending = SiteEnd {
        losses: sent.losses,
        failures: sent.failures,
        is_manned,
        ..SiteEnd::NONE
    };
    let mut end = NodeEnd {
        end: sending,
        seats,
    };
    for acting_thread in threads {
        end = with_thread(end, acting_thread);
    }
    end
}

/// The end of a site with that of one thread more.
fn with_thread<J: Run, C: Core + Drop, N: CellName, L: Link, H: Gate + Follower>(
    end: NodeEnd<N>,
    acting_thread: ActingThread<'_, J, C, N, L, H>,
) -> NodeEnd<N>
    requires { vec_len end.seats < vec_capacity end.seats }
    ensures one { vec_len result.seats ≡ vec_len end.seats + 1 }
    ensures capacity { vec_capacity result.seats ≡ vec_capacity end.seats }
{
    let ActingThread {
        task,
        actor,
        turns,
        cause,
    } = acting_thread;
    let (dropped, failures) = match &task {
        Task::Receive(receiver) => receiver.counts(),
        Task::Work(_) => (0, 0),
    };
    let own = SiteEnd {
        cause,
        losses: actor.losses,
        dropped,
        failures,
        turns,
        is_manned: false,
    };
    let mut end = end;
    end.end = end.end.with(own);
    end.seats.push_reserved(actor.into_receipts());
    end
}
