//! The registry, Cilk-NOW's clearinghouse: it knows who takes part, has the job as a whole, and says when it is over.
//!
//! It is a site like others, with one own child, the root, whose prefix is empty. The first thief that asks gets it;
//! its result is the answer. If a restart of that thief is known, the root is redone. The registry itself never
//! restarts, so a run that loses it ends.
//!
//! It tests a cover (`check_cover`) before it lets the root have it, so of a node's word only "none" is believed
//! without a test; for that there are the books and their audit.

ghost use Rattle.std.specs.Prelude.{◌≡◌, ◌≤◌, true, IfOk, OnErr, OnOk, option_map};
ghost use Rattle.node_core.specs.Acting.{refusal_told, MaySend, Sending};
ghost use Rattle.node_core.specs.Refusal.{IsFit};
ghost use Rattle.node_core.specs.declared.event.Event.{Event};
ghost use Rattle.packet_wire.specs.WellFormed.{is_well_formed};
ghost use Rattle.root_registry.specs.Core.{goes_to_registry, AnswersBody, AnswersEvent};
ghost use Rattle.root_registry.specs.Formed.{IsFormedRegistry};
ghost use Rattle.root_registry.specs.Published.{entering, entering_with, published_by, publishing};
ghost use Rattle.root_registry.specs.Refusal.{registry_refusal, root_hear_refusal};
ghost use Rattle.spawn_frame.specs.declared.site.TheConstants.{LAST_NODE};

use crate::again::say_again;
use crate::formed::the_registry_stays_formed;
use crate::greeting::receive_hello;
use crate::laws::the_root_has_what_enters;
use crate::publication::Publication;
use crate::root::{Returned, receive_return, receive_steal};
use cover_problem::{Answer, Problem};
use node_core::{ActFault, Core, Event, Outgoing, Reply, SiteState, is_misdirected};
use packet_wire::{Body, Packet};
use spawn_frame::Site;
use std::alloc::{AllocError, Global};
use std::marker::Model;
use steal_return::Ledger;

/// The core of the registry.
///
/// It has the root, knows the incarnations of the nodes, publishes the answer, and does no work of its own.
#[derive(Drop)]
pub struct Registry<'a> {
    state: SiteState,
    publication: Publication<'a>,
}

impl<'a> Model for Registry<'a> {
    ghost use Rattle.node_core.specs.Acting.{SiteCore};
    ghost use Rattle.root_registry.specs.Published.{IsPublishing};

    ghost Value = { SiteCore };

    ghost view = { λ c. record { problem = c.publication.problem; view = c.state } };

    ghost invariant = { λ c. IsPublishing c.publication.problem c.state c.publication.answer };
}

impl<'a> Registry<'a> {
    ghost use Rattle.root_registry.specs.Core.{opening_registry_core};

    /// The registry that begins, of 1 to 16 nodes: it has the root alone, which is ready, and knows the first
    /// incarnation of every node. The only error is out of memory.
    pub fn start(alloc: Global, problem: &'a Problem, nodes: u8) -> Result<Registry<'a>, AllocError>
        requires some { 1 ≤ nodes }
        requires most { nodes ≤ LAST_NODE }
        ensures { IfOk result (λ registry. registry ≡ opening_registry_core problem.now nodes) }
    {
        let ledger = Ledger::with_root(alloc, nodes)?;
        problem.recall_rules();
        the_registry_stays_formed();
        Ok(Registry {
            state: SiteState::new(alloc, ledger),
            publication: Publication::new(problem),
        })
    }

    /// What is published: the result of the root once that is done, as a cover with its options in the order of the
    /// file, or that there is none. Once there, it stays.
    pub fn published(&self) -> Option<&Answer>
        ensures { option_map (λ answer. answer.now) result
            ≡ published_by self.now.problem self.now.view }
    {
        self.publication.answer()
    }

    /// All that the registry knows. The other clause says what is true of it.
    pub fn state(&self) -> &SiteState
        ensures state { result.now ≡ self.now.view }
        ensures formed { IsFormedRegistry self.now.problem self.now.view }
    {
        &self.state
    }
}

impl<'a> Core for Registry<'a> {
    ghost use Rattle.root_registry.specs.Refusal.{registry_refusal};
    ghost use Rattle.root_registry.specs.RegistryStep.{RegistryStep};

    ghost problem = { λ c. c.problem };

    ghost view = { λ c. c.view };

    ghost step = { RegistryStep };

    ghost refusal = { registry_refusal };

    fn site(&self) -> Site {
        self.state.site()
    }

    fn allocator(&self) -> Global {
        self.state.allocator()
    }

    fn answer(&mut self, event: Event, out: &mut Outgoing) -> Result<Reply, ActFault> {
        // (laws, for the type's invariant: the view stays formed, and what is published is the root's result)
        the_registry_stays_formed();
        the_root_has_what_enters();
        answer_event(&mut self.state, &mut self.publication, event, out)
    }
}

/// One event of the registry, which does no work of its own.
fn answer_event(
    state: &mut SiteState,
    publication: &mut Publication,
    event: Event,
    out: &mut Outgoing,
) -> Result<Reply, ActFault>
    requires formed { IsFormedRegistry publication.old.problem state.old }
    requires fit { IsFit publication.old.problem event }
    ensures step { IfOk result (λ reply. Sending out.old out.new
        (AnswersEvent publication.old.problem state.old event state.new reply)) }
    ensures refusal { refusal_told result
        ≡ registry_refusal publication.old.problem state.old event }
    ensures err { OnErr result (state.new ≡ state.old) }
    ensures list { OnErr result (MaySend out.old out.new) }
    ensures published { OnOk result (publication.new
        ≡ publishing publication.old (entering state.old event)) }
    ensures unpublished { OnErr result (publication.new ≡ publication.old) }
{
    match event {
        Event::Redo(serial) => state.redo(serial),
        Event::Deliver(packet) => deliver(state, publication, packet, out),
        Event::Again => say_again(state, out),
        _ => Err(ActFault::OtherSite),
    }
}

/// A packet is delivered to the registry: it may be misdirected.
fn deliver(
    state: &mut SiteState,
    publication: &mut Publication,
    packet: Packet,
    out: &mut Outgoing,
) -> Result<Reply, ActFault>
    requires formed { IsFormedRegistry publication.old.problem state.old }
    requires fit { is_well_formed packet ≡ true }
    ensures step { IfOk result (λ reply. Sending out.old out.new
        (AnswersEvent publication.old.problem state.old (Event.Deliver packet) state.new reply)) }
    ensures refusal { refusal_told result
        ≡ registry_refusal publication.old.problem state.old (Event.Deliver packet) }
    ensures err { OnErr result (state.new ≡ state.old) }
    ensures list { OnErr result (MaySend out.old out.new) }
    ensures published { OnOk result (publication.new
        ≡ publishing publication.old (entering state.old (Event.Deliver packet))) }
    ensures unpublished { OnErr result (publication.new ≡ publication.old) }
{
    if is_misdirected(state, &packet) {
        return Err(ActFault::OtherSite);
    }
    hear(state, publication, packet.from, packet.body, out)
}

/// A packet arrives at the registry from a node.
fn hear(
    state: &mut SiteState,
    publication: &mut Publication,
    from: Site,
    body: Body,
    out: &mut Outgoing,
) -> Result<Reply, ActFault>
    requires most { state.old.nodes ≤ LAST_NODE }
    requires some { 1 ≤ from.node }
    requires there { from.node ≤ state.old.nodes }
    requires heard { goes_to_registry body ≡ true }
    ensures step { IfOk result (λ reply. Sending out.old out.new
        (AnswersBody publication.old.problem state.old from body state.new reply)) }
    ensures refusal { refusal_told result
        ≡ root_hear_refusal publication.old.problem state.old from body }
    ensures err { OnErr result (state.new ≡ state.old) }
    ensures list { OnErr result (MaySend out.old out.new) }
    ensures published { OnOk result (publication.new
        ≡ publishing publication.old (entering_with state.old from body)) }
    ensures unpublished { OnErr result (publication.new ≡ publication.old) }
{
    match body {
        Body::Hello => receive_hello(state, from, out),
        Body::Steal => receive_steal(state, publication.problem(), from, out),
        Body::Return {
            serial,
            attempt,
            result,
        } => {
            let returned = Returned {
                serial,
                attempt,
                result,
            };
            receive_return(state, publication, from, returned, out)
        }
        // (no other packet for the registry has a spelling)
        _ => unreachable!(),
    }
}
