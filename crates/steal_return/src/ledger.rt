//! The ledger of a site: its units, what it knows of the other sites, and how frames end.

ghost use Rattle.std.specs.Prelude.{◌≡◌, ◌+◌, ◌<◌, ◌≤◌, ◌↔◌, length, option_map, slice_index, true, IfOk, IfSome, IsErrOf, IsSome, MatchOption, OnErr, OnOk, Some};
ghost use Rattle.spawn_frame.specs.Frames.{frame, frame_result};
ghost use Rattle.spawn_frame.specs.Pages.{pages_for};
ghost use Rattle.spawn_frame.specs.Picks.{is_ready, is_split, ready_unit};
ghost use Rattle.spawn_frame.specs.Splits.{with_result};
ghost use Rattle.spawn_frame.specs.Tables.{has_status, is_here, may_end, outs_of, parent_heard, IsSeen};
ghost use Rattle.spawn_frame.specs.Units.{unit_of};
ghost use Rattle.spawn_frame.specs.declared.site.TheConstants.{LAST_NODE};
ghost use Rattle.steal_return.specs.Finishing.{Appends, FinishesFrame};
ghost use Rattle.steal_return.specs.Invariant.{IsLedger};
ghost use Rattle.steal_return.specs.Ledger.{ledger_gets, ledger_split, opening_ledger, root_ledger};
ghost use Rattle.steal_return.specs.Steals.{is_older};

use crate::known::Known;
use abort_tree::{Descendants, Out, parents_decide};
use spawn_frame::{ChildResult, Heard, Job, Site, SpawnFault, Status, Table, Unit};
use std::alloc::{AllocError, Global};
use std::marker::Model;

/// The units of work of a site, with the incarnation of each node that it knows of.
#[derive(Drop)]
pub struct Ledger {
    pub(crate) table: Table,
    pub(crate) known: Known,
    pub(crate) alloc: Global,
}

impl Model for Ledger {
    ghost use Rattle.std.specs.Prelude.{◌-◌, length};
    ghost use Rattle.steal_return.specs.Invariant.{IsLedger};
    ghost use Rattle.steal_return.specs.Ledger.{Ledger as LedgerValue};

    ghost Value = { LedgerValue };

    ghost view = { λ l. record { table = l.table; nodes = length l.known - 1; known = l.known } };

    ghost invariant = { λ l. IsLedger (record {
      table = l.table;
      nodes = length l.known - 1;
      known
          = l.known;
    }) };
}

impl Ledger {
    /// The ledger of a node that begins, one of so many: no units, and the first incarnation known of the registry and
    /// of every node. It may name so many children. The only error is out of memory.
    pub fn start(
        alloc: Global,
        site: Site,
        nodes: u8,
        names_limit: u32,
    ) -> Result<Ledger, AllocError>
        requires some { 1 ≤ nodes }
        requires most { nodes ≤ LAST_NODE }
        requires first { 1 ≤ site.node }
        requires last { site.node ≤ nodes }
        requires incarnation { 1 ≤ site.incarnation }
        ensures { IfOk result (λ ledger. ledger ≡ opening_ledger site nodes names_limit) }
    {
        Ok(Ledger {
            table: Table::start(alloc, site, names_limit),
            known: Known::start(alloc, nodes)?,
            alloc,
        })
    }

    /// The registry's ledger when the search of so many nodes begins: the root alone, and the first incarnation known
    /// of every node. The only error is out of memory.
    pub fn with_root(alloc: Global, nodes: u8) -> Result<Ledger, AllocError>
        requires some { 1 ≤ nodes }
        requires most { nodes ≤ LAST_NODE }
        ensures { IfOk result (λ ledger. ledger ≡ root_ledger nodes) }
    {
        Ok(Ledger {
            table: Table::with_root(alloc)?,
            known: Known::start(alloc, nodes)?,
            alloc,
        })
    }

    /// The units of work. The other clause says what is true of every ledger.
    pub fn table(&self) -> &Table
        ensures table { result.now ≡ self.now.table }
        ensures ledger { IsLedger self.now }
    {
        &self.table
    }

    /// How many nodes there are beside the registry.
    pub fn nodes(&self) -> u8
        ensures { result ≡ self.now.nodes }
    {
        self.known.nodes()
    }

    /// The known incarnation of a node, or of the registry at 0.
    pub fn known(&self, node: u8) -> u32
        requires { node ≤ self.now.nodes }
        ensures { result ≡ slice_index self.now.known node }
    {
        self.known.of(node)
    }

    /// The known incarnation of the registry, then of each node.
    pub fn incarnations(&self) -> &[u32]
        ensures { result.now ≡ self.now.known }
    {
        self.known.as_slice()
    }

    /// Whether a later incarnation of the site's node is known. It costs nothing.
    pub fn is_older(&self, site: Site) -> bool
        ensures { result ≡ is_older self.now.known site }
    {
        self.known.is_older(site)
    }

    /// Takes up this unit, which is ready, as `Table::take_up` does.
    pub fn take_up(&mut self, unit: Unit) -> Job
        requires { has_status is_ready (unit_of self.old.table unit) ≡ true }
        ensures unit { result.unit ≡ unit }
        ensures ready { IsSeen (unit_of self.old.table unit) result.attempt Status.Ready }
        ensures after { self.new ≡ ledger_gets self.old unit Status.Here }
    {
        self.table.take_up(unit)
    }

    /// Takes up the ready unit that is taken up next, as `Table::take` does. The cores call `ready` and `take_up`.
    pub fn take(&mut self) -> Option<Job>
        ensures unit { option_map (λ job. job.unit) result ≡ ready_unit self.old.table }
        ensures ready { IfSome result (λ job.
            IsSeen (unit_of self.old.table job.unit) job.attempt Status.Ready) }
        ensures after { MatchOption result (self.new ≡ self.old) (λ job.
            self.new ≡ ledger_gets self.old job.unit Status.Here) }
    {
        let unit = self.table.ready()?;
        Some(self.take_up(unit))
    }

    /// Splits a unit that is here, as `Table::spawn` does; a fault changes nothing.
    pub fn spawn(&mut self, unit: Unit, options: &[u16]) -> Result<u32, SpawnFault>
        requires here { has_status is_here (unit_of self.old.table unit) ≡ true }
        requires some { 0 < length options.now }
        ensures first { IfOk result (λ first. first ≡ length self.old.own) }
        ensures split { OnOk result (self.new ≡ ledger_split self.old unit options.now) }
        ensures spent { IsErrOf result SpawnFault.NamesSpent ↔
            (self.old.limit < length self.old.own + length options.now) }
        ensures within { pages_for (length self.old.own + length options.now)
            ≡ pages_for (length self.old.own) → ¬ IsErrOf result SpawnFault.Memory }
        ensures err { OnErr result (self.new ≡ self.old) }
    {
        self.table.spawn(unit, options)
    }

    /// Gives a unit its result, as `Table::set_result` does.
    pub fn set_result(&mut self, unit: Unit, child_result: ChildResult) -> Heard
        requires { has_status may_end (unit_of self.old.table unit) ≡ true }
        ensures after { self.new ≡ ledger_gets self.old unit (with_result unit child_result) }
        ensures heard { result ≡ parent_heard self.new.table unit }
    {
        self.table.set_result(unit, child_result)
    }

    /// Gives a settled frame its result: the cover of its child of least serial that has one, else Empty. All open
    /// units below become Aborted, and each of them that was out is appended to the list, by serial. The only error is
    /// out of memory, which changes nothing.
    ///
    /// It costs the copy of the cover, a walk down to what is below the frame, and the aborts, however many other units
    /// there are.
    pub fn finish(&mut self, unit: Unit, list: &mut Vec<Out>) -> Result<(), AllocError>
        requires split { has_status is_split (unit_of self.old.table unit) ≡ true }
        requires settled { IsSome (frame_result (frame unit self.old.own)) }
        ensures ok { OnOk result (Appends list.old.items list.new.items (λ outs.
            FinishesFrame self.old unit outs self.new)) }
        ensures few { OnOk result
            (length list.new.items ≤ length list.old.items + outs_of self.old.own) }
        ensures err { OnErr result (self.new ≡ self.old) }
        ensures list { OnErr result (list.new.items ≡ list.old.items) }
    {
        // (a copy: the child keeps its cover, with which a Return that comes once more is answered)
        let came = self.frame_result(unit)?;
        let reach = Descendants::below(self.alloc, &self.table, &[unit])?;
        list.reserve(reach.outs(&self.table))?;
        // (whether the parent's frame is settled now isn't asked: the next Take looks for settled frames)
        self.table.set_result(unit, came);
        // (a law: no parent has changed, so what was found below the unit is still below it)
        parents_decide();
        reach.abort(&mut self.table, list);
        Ok(())
    }

    /// What a settled frame came to; the only error is out of memory. It costs looks for the unit and for the child
    /// that has the cover, and the copy of it.
    pub fn frame_result(&self, unit: Unit) -> Result<ChildResult, AllocError>
        requires split { has_status is_split (unit_of self.now.table unit) ≡ true }
        requires settled { IsSome (frame_result (frame unit self.now.own)) }
        ensures { IfOk result (λ came. frame_result (frame unit self.now.own) ≡ Some came) }
    {
        let Some(winner) = self.table.winner(unit) else {
            return Ok(ChildResult::Empty);
        };
        match self.table.unit(Unit::Own(winner)) {
            Some(view) => match view.status {
                Status::Done(child_result) => child_result.copy(),
                _ => unreachable!(),
            },
            None => unreachable!(),
        }
    }
}
