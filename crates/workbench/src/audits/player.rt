//! Events of a book, made fit to be handed to a core once more.

ghost use Rattle.std.specs.Prelude.{◌≡◌, IfOk, IfSome};
ghost use Rattle.node_core.specs.Refusal.{IsFit};

use crate::audits::fault::TrialFault;
use brancher::{Finding, STATE_BYTES, Searcher, Tables};
use cover_problem::{Problem, is_prefix};
use node_core::Event;
use packet_wire::is_well_formed;
use run_book::Run;
use spawn_frame::Job;
use std::alloc::{AllocError, Global};
use std::marker::PhantomData;

/// Hands out the events of a run's books once more. A search that was posted is made again, by a searcher that keeps
/// states, as the one was that made it: its visits may be more than could be made one by one.
#[derive(Drop)]
pub struct Player<'a, J: Run> {
    searcher: Searcher<'a>,
    problem: &'a Problem,
    alloc: Global,
    run: PhantomData<J>,
    ghost one: { problem.now ≡ J.run.problem },
    ghost same: { searcher.problem ≡ J.run.problem },
}

impl<'a, J: Run> Player<'a, J> {
    /// A player of books of the run, over tables of its problem. The only error is out of memory.
    pub fn new(alloc: Global, tables: &'a Tables<'a>) -> Result<Player<'a, J>, AllocError>
        requires { tables.now ≡ J.run.problem }
    {
        Ok(Player {
            searcher: Searcher::keeping(alloc, tables, STATE_BYTES)?,
            problem: tables.problem(),
            alloc,
            run: PhantomData,
        })
    }

    /// The problem.
    pub fn problem(&self) -> &'a Problem
        ensures { result.now ≡ J.run.problem }
    {
        self.problem
    }

    /// The event as a core may be handed it; none where it may not.
    pub fn fit(&mut self, event: Event) -> Result<Option<Event>, TrialFault>
        ensures { IfOk result (λ fit. IfSome fit (IsFit J.run.problem)) }
    {
        match event {
            Event::Deliver(packet) if is_well_formed(&packet) => Ok(Some(Event::Deliver(packet))),
            Event::Deliver(_) => Ok(None),
            Event::Post(job, finding) => self.searched(job, &finding),
            other => Ok(Some(other)),
        }
    }

    /// The post of a job whose prefix is searched as it was for this finding.
    fn searched(&mut self, job: Job, finding: &Finding) -> Result<Option<Event>, TrialFault>
        ensures { IfOk result (λ fit. IfSome fit (IsFit J.run.problem)) }
    {
        let fuel = finding.fuel();
        if fuel == 0 || !is_prefix(self.problem, finding.prefix()) {
            return Ok(None);
        }
        let prefix = Vec::from_slice(self.alloc, finding.prefix())?;
        match self.searcher.find(prefix, fuel) {
            Ok(found) => Ok(Some(Event::Post(job, found))),
            Err(_) => Err(TrialFault::Memory),
        }
    }
}
