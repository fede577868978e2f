//! Packets that arrive.

ghost use Rattle.std.specs.Prelude.{◌≡◌, ◌≤◌, [], None, IfOk, OnErr};
ghost use Rattle.std.specs.List.{list_all, AllByRecursion};
ghost use Rattle.node_core.specs.Acting.{refusal_told, Answered, GivesShareTo, MaySend};
ghost use Rattle.node_core.specs.Arrivals.{is_lawful, AcceptStep, GiveStep, RefuseStep, ReturnStep, StealStep};
ghost use Rattle.node_core.specs.NodeStep.{over_now};
ghost use Rattle.node_core.specs.Refusal.{give_refusal};
ghost use Rattle.packet_wire.specs.Gifts.{gifts_in, is_gift};
ghost use Rattle.spawn_frame.specs.Gifts.{sibling_gift};
ghost use Rattle.steal_return.specs.Shares.{gifts_of, is_spelled};

use crate::act_fault::ActFault;
use crate::longer::is_longer;
use crate::outgoing::Outgoing;
use crate::reply::Reply;
use crate::site_state::SiteState;
use cover_problem::{Problem, is_prefix};
use packet_wire::{Body, Packet};
use spawn_frame::{Attempt, ChildResult, Gift, Sibling, Site};
use steal_return::{Given, Judged, aborts_are_few};

impl SiteState {
    /// Children of another site are given to this one: those that aren't there already become ready guests, unless the
    /// packet is of an earlier incarnation. Whether they may is tested before any memory is taken.
    pub fn receive_give(
        &mut self,
        problem: &Problem,
        from: Site,
        given: Given,
    ) -> Result<Reply, ActFault>
        requires { AllByRecursion (λ g. 1 ≤ g.attempt) (gifts_of given) }
        ensures step { IfOk result (λ reply.
            GiveStep problem.now self.old from (gifts_of given) reply [] self.new) }
        ensures refusal { refusal_told result
            ≡ give_refusal problem.now self.old from (gifts_of given) }
        ensures err { OnErr result (self.new ≡ self.old) }
    {
        // (first: a Give is repeated until its child is done, and a repeat needs no test of its prefix)
        if self.ledger.is_older(from) || self.ledger.are_there(from, &given) {
            return Ok(Reply::Ignored);
        }
        if !self.are_lawful(problem, from, &given) {
            return Err(ActFault::BadPrefix);
        }
        let gifts = given.into_gifts(self.alloc)?;
        // (not by the ledger's `receive_give`, which would look for these guests again)
        self.ledger.admit_each(from, gifts)?;
        Ok(Reply::Moved)
    }

    /// Whether each child that is given is a guest already or has a prefix.
    fn are_lawful(&self, problem: &Problem, from: Site, given: &Given) -> bool
        ensures { result ≡ list_all (is_lawful problem.now from self.now.guests)
            (gifts_of given.now) }
    {
        match given {
            Given::One(gift) => {
                self.ledger.has_guest(from, gift.serial, gift.attempt)
                    || is_prefix(problem, gift.prefix.as_slice())
            }
            Given::Several { prefix, siblings } => {
                self.each_is_lawful(problem, from, prefix.as_slice(), siblings.as_slice())
            }
        }
    }

    /// The same of children of a parent with this prefix.
    fn each_is_lawful(
        &self,
        problem: &Problem,
        from: Site,
        prefix: &[u16],
        siblings: &[Sibling],
    ) -> bool
        ensures { result ≡ list_all (λ s. is_lawful problem.now from self.now.guests
            (sibling_gift prefix.now s)) siblings.now }
    {
        siblings
            .iter()
            .all(|sibling| self.is_lawful(problem, from, prefix, *sibling))
    }

    /// Whether a child of a parent with this prefix is a guest already or has a prefix.
    fn is_lawful(&self, problem: &Problem, from: Site, prefix: &[u16], sibling: Sibling) -> bool
        ensures { result ≡ is_lawful problem.now from self.now.guests
            (sibling_gift prefix.now sibling) }
    {
        self.ledger.has_guest(from, sibling.serial, sibling.attempt)
            || is_longer(problem, prefix, sibling.option)
    }

    /// The owner of a guest sends the result that the child has.
    pub fn receive_accept(
        &mut self,
        from: Site,
        serial: u32,
        attempt: Attempt,
        child_result: ChildResult,
    ) -> Reply
        ensures { AcceptStep self.old
            (record { site = from; serial = serial }) attempt child_result result [] self.new }
    {
        if self
            .ledger
            .receive_accept(from, serial, attempt, child_result)
        {
            Reply::Moved
        } else {
            Reply::Ignored
        }
    }

    /// Another site asks for work: it gets its share of the ready own children, or is told that there is none.
    pub fn receive_steal(&mut self, from: Site, out: &mut Outgoing) -> Result<Reply, ActFault>
        ensures step { Answered result out.old out.new (λ reply sent.
            (reply ≡ Reply.Moved) × StealStep self.old from sent self.new
            × GivesShareTo self.old from sent) }
        ensures refusal { refusal_told result ≡ None }
        ensures err { OnErr result (self.new ≡ self.old) }
        ensures list { OnErr result (MaySend out.old out.new) }
    {
        let site = self.site();
        let Some(serials) = self.ledger.ready_share(from) else {
            out.send(answer_packet(site, from, Body::NoWork))?;
            return Ok(Reply::Moved);
        };
        let given = self.ledger.given(&serials)?;
        // (before the children are out: nothing behind this can fail)
        out.send(answer_packet(site, from, given_body(given)))?;
        self.ledger.give_each(&serials, from);
        Ok(Reply::Moved)
    }

    /// A thief returns the result of an own child: it enters, or the held result is told, or it is refused.
    pub fn receive_return(
        &mut self,
        from: Site,
        serial: u32,
        attempt: Attempt,
        child_result: ChildResult,
        out: &mut Outgoing,
    ) -> Result<Reply, ActFault>
        ensures step { Answered result out.old out.new (λ reply sent.
            (reply ≡ Reply.Moved) × ReturnStep self.old from serial attempt child_result sent
            self.new) }
        ensures refusal { refusal_told result ≡ None }
        ensures err { OnErr result (self.new ≡ self.old) }
        ensures list { OnErr result (MaySend out.old out.new) }
    {
        let site = self.site();
        match self.ledger.judge(from, serial, attempt) {
            Judged::Enters => {
                // (the packet takes a copy; the result itself stays, to answer a Return that comes once more)
                let result = child_result.copy()?;
                let body = Body::Accept {
                    serial,
                    attempt,
                    result,
                };
                out.send(answer_packet(site, from, body))?;
                self.ledger.enter(serial, child_result);
            }
            Judged::Holds(held) => {
                let result = held.copy()?;
                let body = Body::Accept {
                    serial,
                    attempt,
                    result,
                };
                out.send(answer_packet(site, from, body))?;
            }
            Judged::Refuses(cause) => {
                let body = Body::Refuse {
                    serial,
                    attempt,
                    cause,
                };
                out.send(answer_packet(site, from, body))?;
            }
        }
        Ok(Reply::Moved)
    }

    /// A guest is wanted no more, since its owner refused its result or aborted it: it is dropped, and the thieves
    /// below are told.
    pub fn receive_refuse(
        &mut self,
        from: Site,
        serial: u32,
        attempt: Attempt,
        out: &mut Outgoing,
    ) -> Result<Reply, ActFault>
        ensures step { Answered result out.old out.new (λ reply sent.
            RefuseStep self.old (record { site = from; serial = serial }) attempt reply sent
            self.new) }
        ensures refusal { refusal_told result ≡ None }
        ensures err { OnErr result (self.new ≡ self.old) }
        ensures list { OnErr result (MaySend out.old out.new) }
    {
        let site = self.site();
        // (for as many as an abort can reach at most: how many it does reach is known only when it is done)
        out.reserve(self.out_count())?;
        let mut stolen = Vec::new(self.alloc);
        let dropped = self
            .ledger
            .receive_refuse(from, serial, attempt, &mut stolen)?;
        aborts_are_few();
        if dropped {
            out.put_aborts(site, &stolen);
            Ok(Reply::Moved)
        } else {
            Ok(Reply::Ignored)
        }
    }

    /// The search is over.
    pub fn receive_over(&mut self) -> Reply
        ensures reply { result ≡ Reply.Moved }
        ensures after { self.new ≡ over_now self.old }
    {
        self.over = true;
        Reply::Moved
    }
}

/// One packet back to the sender.
fn answer_packet(from: Site, to: Site, body: Body) -> Packet
    ensures { result ≡ record { from = from; to = to; body = body } }
{
    Packet { from, to, body }
}

/// What a thief is told of one child that it gets.
pub(crate) fn gift_body(gift: Gift) -> Body
    ensures { result ≡ Body.Give gift.serial gift.attempt gift.prefix }
{
    let Gift {
        serial,
        attempt,
        prefix,
    } = gift;
    Body::Give {
        serial,
        attempt,
        prefix,
    }
}

/// What a thief is told of what it gets.
fn given_body(given: Given) -> Body
    ensures gifts { gifts_in result ≡ gifts_of given }
    ensures spelled { is_gift result ≡ is_spelled given }
{
    match given {
        Given::One(gift) => gift_body(gift),
        Given::Several { prefix, siblings } => Body::GiveMany { prefix, siblings },
    }
}
