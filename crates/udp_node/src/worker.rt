//! A worker of a node.

ghost use Rattle.std.specs.Prelude.{◌≡◌, ◌≤◌, true};
ghost use Rattle.cover_problem.specs.Prefix.{is_prefix};
ghost use Rattle.udp_node.specs.Hands.{IsPosted};

use crate::actor::Actor;
use crate::exchange::INBOX;
use crate::few_visits::FewVisits;
use crate::hand::{Hand, SearchJob, Searched};
use crate::idleness::{IdleTurn, Idleness};
use crate::looks::Looks;
use crate::savings::{Savings, Shown};
use crate::seat_receipts::Refused;
use crate::turns::note_turn;
use brancher::{Finding, Outcome, STATE_BYTES, Searcher};
use cover_problem::Numbers;
use node_core::{ActFault, Core, Event, Reply};
use rand_core::utils::NextWord;
use rand_pcg::Pcg32;
use run_book::{BookFault, CellName, Run, Step};
use site_limits::{EndCause, Follower, Gate, Limits, Pace, Plan, SearchWatch, Turn};
use spawn_frame::Job;
use std::alloc::AllocError;
use std::marker::PhantomData;
use std::mem;
use std::sync::Wait;
use std::time::Clock;

/// A prefix without a cover is worth telling of if a search of it takes so many visits: each other worker copies it
/// into its own table. Chosen, not measured.
const WORTH_TELLING: u64 = 4_096;

/// So many visits show whether there is no cover below a prefix of which all children are known: a look for each child
/// and a few visits more. Chosen, not measured.
const CLIMB: u64 = 256;

/// A worker of a node, between its turns.
#[derive(Drop)]
pub struct Worker<
    'r,
    't,
    's,
    J: Run,
    C: Core + Drop,
    N: CellName,
    H: Gate + Follower,
    R: Wait + Clock,
> {
    rt: &'r R,
    actor: &'t mut Actor<'s, J, C, N, H>,
    searcher: Searcher<'s>,
    hand: Hand<J>,
    pace: Pace,
    rng: Pcg32,
    idleness: Idleness,
    looks: Looks,
    savings: Savings,
    /// How many visits `Pace` gave the last search; where states are kept, its quota may be more.
    limit: u64,
    number: u8,
    ghost same: { searcher.problem ≡ J.run.problem },
}

impl<'r, 't, 's, J: Run, C: Core + Drop, N: CellName, H: Gate + Follower, R: Wait + Clock> Worker<
    'r,
    't,
    's,
    J,
    C,
    N,
    H,
    R,
> {
    /// The worker of this number that acts so, before its first turn. The only error is out of memory.
    pub fn new(
        rt: &'r R,
        actor: &'t mut Actor<'s, J, C, N, H>,
        number: u8,
    ) -> Result<Worker<'r, 't, 's, J, C, N, H, R>, AllocError> {
        let shared = actor.shared;
        let (tables, alloc, plan) = (shared.context.tables, shared.context.alloc, shared.plan);
        // (a stream for each worker of the run: on one stream two workers would draw the same victims)
        let stream = u64::from(shared.cell.site().node) * 16 + u64::from(number);
        let alone = plan.nodes == 1 && plan.workers == 1;
        Ok(Worker {
            rt,
            actor,
            searcher: Searcher::keeping(alloc, tables, room_for(plan))?,
            hand: Hand::Nothing,
            // (each option of a prefix covers a primary item, so no prefix has more options than these)
            pace: Pace::new(alloc, plan.fuel, alone, tables.problem().primary() + 1)?,
            rng: Pcg32::new(plan.seed, stream),
            idleness: Idleness::new(),
            looks: Looks::new(),
            savings: Savings::new(),
            limit: 1,
            number,
        })
    }

    /// Takes turns until one ends the thread, or these limits do.
    pub fn run(&mut self, limits: &mut Limits) -> EndCause {
        // (a range in place of a loop without end, so that the prover sees it end; the limits end it long before)
        for _turn in 0..u64::MAX {
            if limits.is_spent() {
                break;
            }
            let turn = self.turn();
            if let Some(cause) = note_turn(self.rt, limits, turn) {
                return cause;
            }
        }
        EndCause::Turns
    }

    /// One turn: goes on with what is in hand, or takes up work, unless the site is to end.
    fn turn(&mut self) -> Turn {
        if self.actor.shared.signals.is_stopped() {
            return Turn::Ended(EndCause::Stopped);
        }
        match mem::replace(&mut self.hand, Hand::Nothing) {
            // (only with nothing in hand: a job that was taken up is known to no other worker)
            Hand::Nothing if self.actor.shared.signals.is_spared(self.number) => {
                self.actor.shared.signals.wait_spared(self.rt, self.number);
                Turn::Free
            }
            Hand::Nothing => self.take(),
            Hand::Search(search_job) => self.search(search_job),
            Hand::Post(searched) => self.post(searched),
        }
    }

    /// Takes up work: a unit is searched, a settled frame finished; where there is none it asks another site.
    fn take(&mut self) -> Turn {
        // (a Take that is answered Idle is an entry, too, and idle workers would soon fill the book)
        if !self.looks.begin_if_new(self.actor.shared.signals) {
            return self.rest();
        }
        let taken = match self.actor.act(self.rt, Event::Take) {
            Ok(step) => step.into_reply(),
            Err(back) => return after_refusal(back.1),
        };
        match taken {
            Reply::Taken(job, prefix) => {
                self.idleness.end();
                let limit = self.pace.visits(
                    prefix.as_slice().len(),
                    self.actor.shared.signals.hunger(),
                );
                self.search(SearchJob::new(job, prefix, limit))
            }
            Reply::Ripe(unit) => {
                self.idleness.end();
                after(self.actor.act(self.rt, Event::Finish(unit)))
            }
            Reply::Idle | Reply::Moved | Reply::Ignored => {
                self.looks.note_nothing();
                // (it has nothing to do itself, so the others have no reason to leave it all jobs)
                self.actor.shared.signals.work_together(self.number);
                self.rest()
            }
        }
    }

    /// There is nothing to do: another site is asked for work now and then.
    fn rest(&mut self) -> Turn {
        let plan = self.actor.shared.plan;
        match self.idleness.next(workers_of(plan)) {
            IdleTurn::Asks => {
                let victim = self.victim(plan.nodes);
                after(self.actor.act(self.rt, Event::Ask(victim)))
            }
            IdleTurn::Waits(nap) => {
                self.actor
                    .shared
                    .signals
                    .wait_idle(self.rt, self.number, nap);
                Turn::Free
            }
            IdleTurn::Passes => Turn::Free,
        }
    }

    /// Another site, picked at random: in place of the own node the registry.
    fn victim(&mut self, nodes: u8) -> u8 {
        let node = self.actor.shared.cell.site().node;
        let drawn = self.rng.next_word() % (u32::from(nodes) + 1);
        if drawn == u32::from(node) {
            return 0;
        }
        // (at most the number of nodes, which has eight bits)
        drawn as u8
    }

    /// Searches a job's prefix, and posts what comes of it; it is given up once the site receives no more.
    fn search(&mut self, search_job: SearchJob<J>) -> Turn {
        let SearchJob {
            job,
            prefix,
            limit,
            run,
        } = search_job;
        // (a finding has a fuel of at least 1, which no type says of the job's limit)
        self.limit = limit.max(1);
        let keeps = self.searcher.keeps();
        let fuel = search_fuel(keeps, self.limit);
        let (hooks, signals) = (self.actor.shared.context.hooks, self.actor.shared.signals);
        self.keep_shared();
        hooks.begun();
        let length = prefix.as_slice().len();
        let quota = self.pace.quota(length, self.limit);
        let mut watch = SearchWatch::new(signals.stop_flag(), hooks, length, fuel, quota);
        match self
            .searcher
            .find_so_far(prefix.into_vec(), fuel, &mut watch)
        {
            Ok(Some((finding, count))) if !watch.is_called_off() => {
                let made = watch.made_visits();
                hooks.searched(&finding, made);
                if keeps {
                    self.choose_alone_or_together(&watch);
                    self.tell_if_barren(&finding, count);
                }
                self.pace.note(length, finding.outcome(), made);
                self.post(Searched { job, finding, run })
            }
            Ok(_) => Turn::Ended(EndCause::Stopped),
            Err(prefix) => self.end_unsearched(job, Numbers::from_vec(prefix)),
        }
    }

    /// Ends the site, since there was no room for a search: tried again and again, as a refused Post is, it would do
    /// nothing for hours.
    fn end_unsearched(&mut self, job: Job, prefix: Numbers) -> Turn
        requires { is_prefix J.run.problem prefix ≡ true }
    {
        self.hand = Hand::Search(SearchJob::new(job, prefix, self.limit));
        Turn::Ended(EndCause::Memory)
    }

    /// Keeps what the node's other workers found to have no cover.
    fn keep_shared(&mut self) {
        let exchange = self.actor.shared.exchange;
        for _ in 0..INBOX {
            // (an inbox full at most: others may add to it as fast as it is read, and the job waits)
            let Some(heard) = exchange.hear(self.rt, self.number) else {
                return;
            };
            self.searcher
                .keep_shared(heard.prefix.as_slice(), heard.count);
        }
    }

    /// Tells the node's other workers of a finding, if there is no cover and another search for it would take so many
    /// visits.
    fn tell_if_barren(&mut self, finding: &Finding, count: u64)
        requires { is_prefix J.run.problem finding.now.prefix ≡ true }
    {
        if finding.outcome() == Outcome::Barren && count >= WORTH_TELLING {
            self.tell(finding.prefix());
        }
    }

    /// Tells the node's other workers that there is no cover below a prefix, and the same of those before it, as far as
    /// what is kept shows it: a frame of which all children are done is no job of anybody's, so nobody else finds it
    /// out.
    fn tell(&mut self, prefix: &[u16])
        requires { is_prefix J.run.problem prefix.now ≡ true }
    {
        let shared = self.actor.shared;
        for length in (0..prefix.len() + 1).rev() {
            let front = &prefix[..length];
            let mut few = FewVisits::new(CLIMB);
            // (each shorter front has this one below it, so the first that isn't done is the last to look at)
            let Some(count) = self.searcher.barren_visits(front, &mut few) else {
                return;
            };
            shared
                .exchange
                .tell(self.rt, shared.context.alloc, self.number, front, count);
        }
    }

    /// Works alone or together with the node's other workers, by what the states saved: where they save very much, each
    /// other worker would find the same states once more, and all would take longer than one does.
    fn choose_alone_or_together(&mut self, watch: &SearchWatch<'_, H>) {
        let signals = self.actor.shared.signals;
        match self.savings.note(watch.made_visits(), watch.gone()) {
            Shown::Much => signals.work_alone(self.number),
            Shown::Little => signals.work_together(self.number),
            Shown::Nothing => {}
        }
    }

    /// Posts what a search came to, once the gate lets it pass.
    fn post(&mut self, searched: Searched<J>) -> Turn {
        let hooks = self.actor.shared.context.hooks;
        if !hooks.pass(self.number, &searched.job) {
            self.hand = Hand::Post(searched);
            return Turn::Counted;
        }
        let Searched {
            job,
            finding,
            run: _,
        } = searched;
        let outcome = finding.outcome();
        match self.actor.act(self.rt, Event::Post(job, finding)) {
            Ok(_step) => {
                if outcome == Outcome::Spent {
                    self.actor.shared.signals.hunger().feed();
                }
                hooks.posted(self.number, &job);
                Turn::Counted
            }
            Err(back) => {
                let (event, refused) = back;
                self.after_refused_post(event, refused)
            }
        }
    }

    /// A job is to be searched again, with sixteen times the visits.
    fn search_again(&mut self, job: Job, finding: &Finding) -> Turn
        requires { is_prefix J.run.problem finding.now.prefix ≡ true }
    {
        match Vec::from_slice(self.actor.shared.context.alloc, finding.prefix()) {
            Ok(prefix) => {
                let limit = self.limit.saturating_mul(16);
                let prefix = Numbers::from_vec(prefix);
                self.hand = Hand::Search(SearchJob::new(job, prefix, limit));
                Turn::Counted
            }
            Err(_) => Turn::Ended(EndCause::Memory),
        }
    }

    /// Takes a refused Post in hand: it is posted again where memory ran out, and searched again, with sixteen times
    /// the visits, where no names are left for its children.
    fn after_refused_post(&mut self, event: Event, refused: Refused) -> Turn
        requires { IsPosted J.run.problem event }
    {
        match (event, refused) {
            (Event::Post(job, finding), Refused::Cell(BookFault::Memory)) => {
                let run = PhantomData;
                self.hand = Hand::Post(Searched { job, finding, run });
                Turn::Starved
            }
            (Event::Post(job, finding), Refused::Cell(BookFault::Core(ActFault::NamesSpent))) =>
                self.search_again(job, &finding),
            (_, refused) => after_refusal(refused),
        }
    }
}

/// The fuel of a search that may make so many visits. Where states are kept it is the greatest: fuel also counts visits
/// that they save, and prefixes with very many would be split for ever, so the watch limits those that are made.
fn search_fuel(keeps: bool, limit: u64) -> u64
    requires { 1 ≤ limit }
    ensures { 1 ≤ result }
{
    if keeps { u64::MAX } else { limit }
}

/// How many workers there are in a run of this plan.
fn workers_of(plan: Plan) -> u64 {
    u64::from(plan.nodes) * u64::from(plan.workers)
}

/// The room for states that one searcher of the run has: all of them together have what four searches by one thread
/// have.
pub fn room_for(plan: Plan) -> u64 {
    (4 * STATE_BYTES / workers_of(plan).max(1)).min(STATE_BYTES)
}

/// Whether a thread ends whose event was refused, and why.
pub fn after_refusal(refused: Refused) -> Turn {
    match refused {
        Refused::NoRoom => Turn::Ended(EndCause::Memory),
        Refused::BooksFull => Turn::Ended(EndCause::BooksFull),
        Refused::Cell(BookFault::BookFull(_)) => Turn::Ended(EndCause::BookFull),
        Refused::Cell(BookFault::Core(ActFault::Over)) => Turn::Ended(EndCause::Over),
        Refused::Cell(BookFault::Memory) => Turn::Starved,
        // (nothing changed: packets that come late, and results of jobs that were aborted meanwhile, are refused)
        Refused::Cell(_) => Turn::Counted,
    }
}

/// The same of an event that may have been entered.
pub fn after(acted: Result<Step, (Event, Refused)>) -> Turn {
    match acted {
        Ok(_step) => Turn::Counted,
        Err(back) => after_refusal(back.1),
    }
}
