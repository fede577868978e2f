//! A node: it takes up, splits and finishes units, steals from others, and gives to them. Stealing and redoing are
//! Cilk-NOW's; attempts and answers to results are this project's.
//!
//! It doesn't search. A worker does that outside, without the lock, and posts a finding. The node only splits a prefix
//! whose search ran out of fuel, and for that it has links of its own. They are set to the prefix again for each split,
//! so nothing of them is part of the view.
//!
//! Once the search is over every event is refused. A packet is still looked at, since `OtherSite` comes before `Over`.

ghost use Rattle.std.specs.Prelude.{◌≡◌, ◌≢◌, ◌<◌, ◌≤◌, ◌^◌, true, false, IfOk, OnErr};
ghost use Rattle.node_core.specs.Acting.{is_delivery, refusal_told, Answered, AnswersDelivery, AnswersHeard, GivesShare, HasPrefixes, MaySend};
ghost use Rattle.node_core.specs.Formed.{IsFormedNode};
ghost use Rattle.node_core.specs.NodeStep.{EventStep, NodeStep};
ghost use Rattle.node_core.specs.Refusal.{event_refusal, hear_refusal, is_misdirected, node_refusal, IsFit};
ghost use Rattle.packet_wire.specs.WellFormed.{is_body, is_well_formed};
ghost use Rattle.packet_wire.specs.declared.packet.Body.{Body};
ghost use Rattle.node_core.specs.declared.event.Event.{Event};
ghost use Rattle.packet_wire.specs.declared.packet.Packet.{Packet};
ghost use Rattle.spawn_frame.specs.declared.site.TheConstants.{LAST_NODE};

use crate::act_fault::ActFault;
use crate::core_trait::Core;
use crate::event::Event;
use crate::formed::nodes_stay_formed;
use crate::outgoing::Outgoing;
use crate::reply::Reply;
use crate::site_state::SiteState;
use cover_problem::Problem;
use dancing_links::Links;
use packet_wire::{Body, Packet};
use spawn_frame::{Gift, Site};
use std::alloc::{AllocError, Global};
use std::marker::Model;
use steal_return::{Given, Ledger};

/// The core of a node.
///
/// It has its units, what it knows of the other sites, and the links of the problem, by which it splits a unit into the
/// children of its prefix.
#[derive(Drop)]
pub struct NodeCore<'a> {
    state: SiteState,
    links: Links<'a>,
}

impl<'a> Model for NodeCore<'a> {
    ghost use Rattle.node_core.specs.Acting.{SiteCore};
    ghost use Rattle.node_core.specs.Formed.{IsFormedNode};

    ghost Value = { SiteCore };

    ghost view = { λ c. record { problem = c.links.problem; view = c.state } };

    ghost invariant = { λ c. IsFormedNode c.links.problem c.state };
}

impl<'a> NodeCore<'a> {
    ghost use Rattle.node_core.specs.Acting.{opening_core};

    /// A node that begins, one of 1 to 16, in an incarnation from 1 on: it has no units yet, knows the first
    /// incarnation of the registry and of every node, and may name so many children. The only error is out of memory.
    pub fn start(
        alloc: Global,
        problem: &'a Problem,
        site: Site,
        nodes: u8,
        names_limit: u32,
    ) -> Result<NodeCore<'a>, AllocError>
        requires most { nodes ≤ LAST_NODE }
        requires first { 1 ≤ site.node }
        requires last { site.node ≤ nodes }
        requires incarnation { 1 ≤ site.incarnation }
        ensures { IfOk result (λ core. core ≡ opening_core problem.now site nodes names_limit) }
    {
        let ledger = Ledger::start(alloc, site, nodes, names_limit)?;
        let links = Links::build(alloc, problem)?;
        // (for the proof alone, which gets from it what is true of every problem)
        problem.recall_rules();
        // (read so that the prover knows its range)
        let _incarnation = site.incarnation;
        nodes_stay_formed();
        Ok(NodeCore {
            state: SiteState::new(alloc, ledger),
            links,
        })
    }

    /// All that the node knows. The other clause says what is true of it.
    pub fn state(&self) -> &SiteState
        ensures state { result.now ≡ self.now.view }
        ensures formed { IsFormedNode self.now.problem self.now.view }
    {
        &self.state
    }
}

impl<'a> Core for NodeCore<'a> {
    ghost use Rattle.node_core.specs.NodeStep.{NodeStep};
    ghost use Rattle.node_core.specs.Refusal.{node_refusal};

    ghost problem = { λ c. c.problem };

    ghost view = { λ c. c.view };

    ghost step = { NodeStep };

    ghost refusal = { node_refusal };

    fn site(&self) -> Site {
        self.state.site()
    }

    fn allocator(&self) -> Global {
        self.state.allocator()
    }

    fn answer(&mut self, event: Event, out: &mut Outgoing) -> Result<Reply, ActFault> {
        nodes_stay_formed();
        answer_event(&mut self.state, &mut self.links, event, out)
    }
}

/// One event of a node.
fn answer_event(
    state: &mut SiteState,
    links: &mut Links,
    event: Event,
    out: &mut Outgoing,
) -> Result<Reply, ActFault>
    requires formed { IsFormedNode links.old.problem state.old }
    requires fit { IsFit links.old.problem event }
    ensures problem { links.new.problem ≡ links.old.problem }
    ensures step { Answered result out.old out.new (λ reply sent.
        NodeStep links.old.problem state.old event reply sent state.new
        × GivesShare state.old event sent) }
    ensures refusal { refusal_told result ≡ node_refusal links.old.problem state.old event }
    ensures err { OnErr result (state.new ≡ state.old) }
    ensures list { OnErr result (MaySend out.old out.new) }
{
    // (before the test for over: a packet for another site is refused as such, also at a node that is over)
    if let Event::Deliver(packet) = event {
        return deliver(state, links.problem(), packet, out);
    }
    if state.is_over() {
        return Err(ActFault::Over);
    }
    work(state, links, event, out)
}

/// A packet arrives at a node from a site.
fn hear(
    state: &mut SiteState,
    problem: &Problem,
    from: Site,
    body: Body,
    out: &mut Outgoing,
) -> Result<Reply, ActFault>
    requires formed { is_body body ≡ true }
    requires heard { body ≢ Body.Hello }
    ensures step { Answered result out.old out.new
        (AnswersHeard problem.now state.old from body state.new) }
    ensures refusal { refusal_told result ≡ hear_refusal problem.now state.old from body }
    ensures err { OnErr result (state.new ≡ state.old) }
    ensures list { OnErr result (MaySend out.old out.new) }
{
    match body {
        // (a Hello goes to the registry alone: one to a node has no spelling)
        Body::Hello => unreachable!(),
        Body::Members(incarnations) => state.receive_members(incarnations.as_slice(), out),
        Body::Steal => state.receive_steal(from, out),
        Body::Give {
            serial,
            attempt,
            prefix,
        } => {
            let gift = Gift {
                serial,
                attempt,
                prefix,
            };
            state.receive_give(problem, from, Given::One(gift))
        }
        Body::GiveMany { prefix, siblings } => {
            state.receive_give(problem, from, Given::Several { prefix, siblings })
        }
        Body::NoWork => Ok(Reply::Ignored),
        Body::Return {
            serial,
            attempt,
            result,
        } => state.receive_return(from, serial, attempt, result, out),
        Body::Accept {
            serial,
            attempt,
            result,
        } => Ok(state.receive_accept(from, serial, attempt, result)),
        // (the cause isn't read: whatever it is, the guest isn't wanted any more)
        Body::Refuse {
            serial,
            attempt,
            ..
        }
        | Body::Abort { serial, attempt } => state.receive_refuse(from, serial, attempt, out),
        Body::Over => Ok(state.receive_over()),
    }
}

/// A packet is delivered to a node: it may be misdirected, or the node over.
fn deliver(
    state: &mut SiteState,
    problem: &Problem,
    packet: Packet,
    out: &mut Outgoing,
) -> Result<Reply, ActFault>
    requires fit { is_well_formed packet ≡ true }
    requires node { 1 ≤ state.old.site.node }
    ensures step { Answered result out.old out.new
        (AnswersDelivery problem.now state.old packet state.new) }
    ensures refusal { refusal_told result
        ≡ node_refusal problem.now state.old (Event.Deliver packet) }
    ensures err { OnErr result (state.new ≡ state.old) }
    ensures list { OnErr result (MaySend out.old out.new) }
{
    if is_misdirected(state, &packet) {
        return Err(ActFault::OtherSite);
    }
    if state.is_over() {
        return Err(ActFault::Over);
    }
    hear(state, problem, packet.from, packet.body, out)
}

/// Whether a packet is for another site, or from a node that there isn't.
pub fn is_misdirected(state: &SiteState, packet: &Packet) -> bool
    ensures { result ≡ is_misdirected state.now packet.now }
{
    packet.to != state.site() || state.ledger().nodes() < packet.from.node
}

/// What a node that takes part does of itself.
fn work(
    state: &mut SiteState,
    links: &mut Links,
    event: Event,
    out: &mut Outgoing,
) -> Result<Reply, ActFault>
    requires fit { IsFit links.old.problem event }
    requires own { is_delivery event ≡ false }
    requires prefixes { HasPrefixes links.old.problem state.old }
    ensures problem { links.new.problem ≡ links.old.problem }
    ensures step { Answered result out.old out.new (λ reply sent.
        EventStep links.old.problem state.old event reply sent state.new) }
    ensures refusal { refusal_told result ≡ event_refusal links.old.problem state.old event }
    ensures err { OnErr result (state.new ≡ state.old) }
    ensures list { OnErr result (MaySend out.old out.new) }
{
    match event {
        Event::Take => state.take(),
        Event::Post(job, finding) => state.post(links, job, finding, out),
        Event::Finish(unit) => state.finish(unit, out),
        Event::Ask(victim) => state.ask(victim, out),
        Event::Redo(serial) => state.redo(serial),
        Event::Deliver(_) => unreachable!(),
        Event::Again => state.again(out),
        Event::Greet => {
            state.greet(out)?;
            Ok(Reply::Moved)
        }
    }
}
