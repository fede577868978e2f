//! Searches and frames that come to a result.

ghost use Rattle.std.specs.Prelude.{◌≡◌, ◌<◌, [], true, length, IfOk, IsSome, None, OnErr, OnOk};
ghost use Rattle.cover_problem.specs.Branching.{children};
ghost use Rattle.cover_problem.specs.Prefix.{is_prefix};
ghost use Rattle.node_core.specs.Acting.{refusal_told, Answered, MaySend};
ghost use Rattle.node_core.specs.Outgoing.{Sends};
ghost use Rattle.node_core.specs.Refusal.{finish_refusal, post_refusal, split_refusal};
ghost use Rattle.node_core.specs.Results.{return_packets, split_up, IsRight, EndStep, FinishStep, IsReadyReturn, PostStep, SplitStep};
ghost use Rattle.node_core.specs.SiteView.{unit_in};
ghost use Rattle.spawn_frame.specs.Frames.{frame, frame_result};
ghost use Rattle.spawn_frame.specs.Picks.{is_split};
ghost use Rattle.spawn_frame.specs.Tables.{has_status, is_here, longer_prefixes, may_end, prefix_in};

use crate::act_fault::ActFault;
use crate::outgoing::{Outgoing, ReadyPacket};
use crate::reply::Reply;
use crate::site_state::SiteState;
use brancher::{Branch, Finding, Outcome, branch, children, choose_prefix};
use dancing_links::Links;
use packet_wire::Body;
use spawn_frame::{ChildResult, Heard, Job, SpawnFault, Unit};
use std::alloc::AllocError;
use steal_return::aborts_are_few;

impl SiteState {
    /// A worker has searched the prefix of a job: the unit gets its result, or is split where the fuel was spent.
    pub fn post(
        &mut self,
        links: &mut Links,
        job: Job,
        finding: Finding,
        out: &mut Outgoing,
    ) -> Result<Reply, ActFault>
        requires right { IsRight links.old.problem finding }
        requires prefix { has_status is_here (unit_in self.old job.unit) ≡ true →
            is_prefix links.old.problem (prefix_in (unit_in self.old job.unit)) ≡ true }
        ensures problem { links.new.problem ≡ links.old.problem }
        ensures step { Answered result out.old out.new (λ reply sent.
            (reply ≡ Reply.Moved) × PostStep links.old.problem self.old job finding sent self.new) }
        ensures refusal { refusal_told result
            ≡ post_refusal links.old.problem self.old job finding }
        ensures err { OnErr result (self.new ≡ self.old) }
        ensures list { OnErr result (MaySend out.old out.new) }
    {
        if !self.ledger.table().has_job(job, finding.prefix()) {
            return Err(ActFault::StaleJob);
        }
        match finding.outcome() {
            Outcome::Cover => {
                let cover = finding.into_cover();
                self.end(job.unit, ChildResult::Cover(cover), out)
            }
            Outcome::Barren => self.end(job.unit, ChildResult::Empty, out),
            Outcome::Spent => {
                self.split(links, job.unit, finding.prefix())?;
                Ok(Reply::Moved)
            }
        }
    }

    /// Gives a unit its result; a guest's goes to its owner.
    fn end(
        &mut self,
        unit: Unit,
        child_result: ChildResult,
        out: &mut Outgoing,
    ) -> Result<Reply, ActFault>
        requires { has_status may_end (unit_in self.old unit) ≡ true }
        ensures step { Answered result out.old out.new (λ reply sent.
            (reply ≡ Reply.Moved) × EndStep self.old unit child_result sent self.new) }
        ensures refusal { refusal_told result ≡ None }
        ensures err { OnErr result (self.new ≡ self.old) }
        ensures list { OnErr result (MaySend out.old out.new) }
    {
        self.send_return(unit, &child_result, out)?;
        self.ledger.set_result(unit, child_result);
        Ok(Reply::Moved)
    }

    /// Returns the result of a guest to its owner; of an own child nothing is told.
    fn send_return(
        &self,
        unit: Unit,
        child_result: &ChildResult,
        out: &mut Outgoing,
    ) -> Result<(), AllocError>
        ensures ok { OnOk result
            (Sends out.old (return_packets self.now.site unit child_result.now) out.new) }
        ensures err { OnErr result (Sends out.old [] out.new) }
    {
        let Unit::Guest(name, attempt) = unit else {
            return Ok(());
        };
        let body = Body::Return {
            serial: name.serial,
            attempt,
            result: child_result.copy()?,
        };
        out.send(self.packet_to(name.site, body))
    }

    /// Splits a unit into the children of its prefix.
    fn split(&mut self, links: &mut Links, unit: Unit, prefix: &[u16]) -> Result<(), ActFault>
        requires here { has_status is_here (unit_in self.old unit) ≡ true }
        requires prefix { prefix_in (unit_in self.old unit) ≡ prefix.now }
        requires lawful { is_prefix links.old.problem prefix.now ≡ true }
        requires some { 0 < length (children links.old.problem prefix.now) }
        ensures problem { links.new.problem ≡ links.old.problem }
        ensures step { OnOk result (SplitStep links.old.problem self.old unit prefix.now self.new) }
        ensures refusal { refusal_told result
            ≡ split_refusal links.old.problem self.old prefix.now }
        ensures err { OnErr result (self.new ≡ self.old) }
    {
        let options = self.branch_options(links, prefix)?;
        match self.ledger.spawn(unit, &options) {
            Ok(_) => {
                // (for what the getter says: that the names are within the limit)
                let _issued = self.ledger.table().issued();
                Ok(())
            }
            Err(SpawnFault::NamesSpent) => Err(ActFault::NamesSpent),
            Err(SpawnFault::Memory) => Err(ActFault::Memory),
        }
    }

    /// The options by which a prefix goes on, if the site may name so many children.
    fn branch_options(&self, links: &mut Links, prefix: &[u16]) -> Result<Vec<u16>, ActFault>
        requires lawful { is_prefix links.old.problem prefix.now ≡ true }
        requires some { 0 < length (children links.old.problem prefix.now) }
        ensures problem { links.new.problem ≡ links.old.problem }
        ensures children { IfOk result (λ options.
            children links.old.problem prefix.now ≡ longer_prefixes prefix.now options.items) }
        ensures some { IfOk result (λ options. 0 < length options.items) }
        ensures refusal { refusal_told result
            ≡ split_refusal links.old.problem self.now prefix.now }
    {
        choose_prefix(links, prefix);
        // (a prefix that used up its fuel goes on, so there is an item to branch on)
        let Branch::Item(item) = branch(links) else {
            unreachable!();
        };
        let table = self.ledger.table();
        // (`spawn` tests it, too, but only after memory was taken for this list, and this fault goes before that of
        // memory)
        if ((table.names_limit() - table.issued()) as usize) < links.count(item) {
            return Err(ActFault::NamesSpent);
        }
        let mut options = Vec::new(self.alloc);
        children(links, item, &mut options)?;
        Ok(options)
    }

    /// Gives a settled frame its result; a guest's goes to its owner, and the thieves below are told that their
    /// children are wanted no more.
    pub fn finish(&mut self, unit: Unit, out: &mut Outgoing) -> Result<Reply, ActFault>
        ensures step { Answered result out.old out.new (λ reply sent.
            (reply ≡ Reply.Moved) × FinishStep self.old unit sent self.new) }
        ensures refusal { refusal_told result ≡ finish_refusal self.old unit }
        ensures err { OnErr result (self.new ≡ self.old) }
        ensures list { OnErr result (MaySend out.old out.new) }
    {
        let table = self.ledger.table();
        if !table.status(unit).is_some_and(|status| status.is_split()) {
            return Err(ActFault::NotOpen);
        }
        if table.heard(unit) == Heard::Open {
            return Err(ActFault::NotSettled);
        }
        let site = self.site();
        // (made before anything changes, but put behind the aborts, as the protocol orders them)
        let load = self.return_load(unit, out)?;
        out.reserve(self.out_count() + 1)?;
        let mut stolen = Vec::new(self.alloc);
        self.ledger.finish(unit, &mut stolen)?;
        aborts_are_few();
        out.put_aborts(site, &stolen);
        out.put_ready(load);
        Ok(Reply::Moved)
    }

    /// What a settled frame will return to its owner, if it is a guest.
    fn return_load(&self, unit: Unit, out: &Outgoing) -> Result<Option<ReadyPacket>, AllocError>
        requires split { has_status is_split (unit_in self.now unit) ≡ true }
        requires settled { IsSome (frame_result (frame unit self.now.own)) }
        ensures { IfOk result
            (IsReadyReturn self.now.site unit
            (frame_result (frame unit self.now.own)) out.now.both) }
    {
        let Unit::Guest(name, attempt) = unit else {
            return Ok(None);
        };
        let body = Body::Return {
            serial: name.serial,
            attempt,
            result: self.ledger.frame_result(unit)?,
        };
        let load = out.load(self.packet_to(name.site, body))?;
        Ok(Some(load))
    }
}
