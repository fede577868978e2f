//! Which unit is next, and what is worked on.
//!
//! A worker goes depth first, as in Cilk: it takes the own child of greatest serial, which was made last. So few frames
//! are open at a time, as a rule. Guests come last: what they are split into are own children, and these come first.

ghost use Rattle.std.specs.Prelude.{◌≡◌, IfSome, MatchOption, option_map, true};
ghost use Rattle.std.specs.Bool.{OnTrue};
ghost use Rattle.spawn_frame.specs.Picks.{is_ready, ready_unit, ripe_unit};
ghost use Rattle.spawn_frame.specs.Tables.{has_status, is_at_work, IsAtWork, IsSeen};
ghost use Rattle.spawn_frame.specs.declared.status.Status.{Status};
ghost use Rattle.spawn_frame.specs.Units.{table_gets, unit_of};

use crate::prefixes::has_prefix;
use crate::status::Status;
use crate::table::Table;
use crate::unit::{Job, Unit};
use crate::wanted::Wanted;

impl Table {
    ghost use Rattle.spawn_frame.specs.Works.{wanted_status, wanted_unit};

    /// The settled frame that is finished next: the own child of greatest serial, else the least guest. It costs a look
    /// at each page, a pass through one page, and where no page has such a child one through the open guests.
    pub fn ripe(&self) -> Option<Unit>
        ensures { result ≡ ripe_unit self.now }
    {
        self.picked(Wanted::Ripe)
    }

    /// The ready unit that is taken up next: the own child of greatest serial, else the least guest. It costs what
    /// `ripe` does.
    pub fn ready(&self) -> Option<Unit>
        ensures unit { result ≡ ready_unit self.now }
        ensures ready { IfSome result (λ unit. has_status is_ready (unit_of self.now unit) ≡ true) }
    {
        self.picked(Wanted::Ready)
    }

    /// Takes up this unit, which is ready, and is here then. It costs looks for the unit, and passes through its page.
    pub fn take_up(&mut self, unit: Unit) -> Job
        requires { has_status is_ready (unit_of self.old unit) ≡ true }
        ensures unit { result.unit ≡ unit }
        ensures ready { IsSeen (unit_of self.old unit) result.attempt Status.Ready }
        ensures after { self.new ≡ table_gets self.old unit Status.Here }
    {
        let attempt = match self.work(unit) {
            Some(work) => work.attempt,
            None => unreachable!(),
        };
        self.set_status(unit, Status::Here);
        Job { unit, attempt }
    }

    /// Takes up the ready unit that is taken up next, if there is one. It is `ready` and `take_up` in one, and costs
    /// what they do; cores call these two, and take memory between them.
    pub fn take(&mut self) -> Option<Job>
        ensures unit { option_map (λ job. job.unit) result ≡ ready_unit self.old }
        ensures ready { IfSome result (λ job.
            IsSeen (unit_of self.old job.unit) job.attempt Status.Ready) }
        ensures after { MatchOption result (self.new ≡ self.old) (λ job.
            self.new ≡ table_gets self.old job.unit Status.Here) }
    {
        let unit = self.ready()?;
        Some(self.take_up(unit))
    }

    /// Whether a job is still worked on: its unit is here, at that attempt and with this prefix. It takes no memory,
    /// and costs a look for the unit, and steps upwards from its last option until two options differ.
    pub fn has_job(&self, job: Job, prefix: &[u16]) -> bool
        ensures tested { result ≡ is_at_work job.attempt prefix.now (unit_of self.now job.unit) }
        ensures at_work { OnTrue result
            (IsAtWork job.attempt prefix.now (unit_of self.now job.unit)) }
    {
        match self.work(job.unit) {
            Some(work) => {
                work.is_here_at(job.attempt)
                    && has_prefix(&self.own, self.guests.as_slice(), job.unit, prefix)
            }
            None => false,
        }
    }

    /// The own child of greatest serial that is wanted, else the least guest.
    fn picked(&self, wanted: Wanted) -> Option<Unit>
        ensures unit { result ≡ wanted_unit wanted self.now }
        ensures status { IfSome result (λ unit.
            has_status (wanted_status wanted) (unit_of self.now unit) ≡ true) }
    {
        // (the newest child first, so that a site goes deep before it begins another guest)
        match self.own.last(wanted) {
            Some(unit) => Some(unit),
            None => self.guests.first(wanted),
        }
    }
}
