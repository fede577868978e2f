//! What threads of one site borrow. What changes has its synchronization inside: the cell is a mutex, outbox and
//! exchange are queues, and signals are mostly atomics.

use crate::context::Context;
use crate::exchange::Exchange;
use crate::signals::Signals;
use node_core::Core;
use run_book::{CellName, Outbox, Run, SiteCell};
use site_limits::{EndCause, Follower, Gate, Plan};
use std::time::Clock;

/// What the threads of a site share.
#[derive(Drop)]
pub struct Shared<'a, J: Run, C: Core + Drop, N: CellName, H: Gate + Follower> {
    /// What they share with those of the run's other sites.
    pub context: &'a Context<'a, J, H>,
    /// The core and its history.
    pub cell: &'a SiteCell<J, C, N>,
    /// What waits to be sent.
    pub outbox: &'a Outbox,
    /// What they signal to one another without the lock of the core.
    pub signals: &'a Signals,
    /// Where its workers tell each other what has no cover.
    pub exchange: &'a Exchange<J>,
    /// How the site works in this incarnation.
    pub plan: Plan,
}

impl<J: Run, C: Core + Drop, N: CellName, H: Gate + Follower> Shared<'_, J, C, N, H> {
    /// Waits until a thread of each kind has begun, for some two seconds at most. Then the nodes may begin, if the site
    /// is the registry's: they wait for it, so that it gets its threads where few can be started. Where a thread is
    /// missing the site ends.
    pub fn muster<R: Clock>(&self, rt: &R) {
        self.signals.muster(rt);
        if self.cell.site().node == 0 && self.signals.is_manned() {
            self.context.ending.begin_registry();
        }
    }

    /// Whether no incarnation of the site follows: node 1 alone restarts.
    pub fn is_last(&self) -> bool {
        let site = self.cell.site();
        site.node != 1 || site.incarnation > u32::from(self.plan.restarts)
    }

    /// Whether the site is to end, by itself or with the run.
    pub fn is_to_end<R: Clock>(&self, rt: &R) -> bool {
        self.signals.is_stopped() || self.context.ending.has_come(rt)
    }

    /// Why the thread that receives is to end once a receive is empty, if it is: with the site or the run, or since no
    /// worker is left.
    pub fn cause_once_drained<R: Clock>(&self, rt: &R) -> Option<EndCause> {
        // (the registry has no workers, so its one thread that acts is alone from the start)
        let is_deserted = self.cell.site().node != 0 && self.signals.is_deserted();
        if is_deserted || self.is_to_end(rt) {
            Some(self.context.ending.cause(rt))
        } else {
            None
        }
    }
}
