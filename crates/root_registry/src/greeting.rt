//! Nodes that tell the registry that they are there.

ghost use Rattle.std.specs.Prelude.{◌≡◌, ◌<◌, ◌≤◌, drop, length, max, IfOk, OnErr, OnOk};
ghost use Rattle.node_core.specs.Acting.{refusal_told, MaySend, Sending};
ghost use Rattle.node_core.specs.Outgoing.{Sends};
ghost use Rattle.root_registry.specs.Core.{members_packets};
ghost use Rattle.root_registry.specs.Refusal.{hello_refusal};
ghost use Rattle.root_registry.specs.RegistryStep.{raised, HelloStep};
ghost use Rattle.spawn_frame.specs.declared.site.TheConstants.{LAST_NODE};

use crate::telling::send_to_each;
use node_core::{ActFault, Outgoing, Reply, SiteState};
use packet_wire::{Body, Incarnations};
use spawn_frame::Site;
use std::alloc::{AllocError, Global};

/// The incarnations of the nodes once that of one of them is learnt; the only error is out of memory.
fn raised_incarnations(
    alloc: Global,
    incarnations: &[u32],
    from: Site,
) -> Result<Vec<u32>, AllocError>
    requires some { 1 ≤ from.node }
    requires there { from.node < length incarnations.now }
    ensures { IfOk result (λ later.
        later.items ≡ drop 1 (raised incarnations.now from.node from.incarnation)) }
{
    let mut later = incarnations[1..].to_vec(alloc)?;
    let place = from.node as usize - 1;
    later[place] = later_of(later[place], from.incarnation);
    Ok(later)
}

/// The later of two incarnations of a node.
fn later_of(first: u32, second: u32) -> u32
    ensures { result ≡ max first second }
{
    first.max(second)
}

/// Sends every node the incarnations that will be known; the only error is out of memory.
fn send_members(state: &SiteState, from: Site, out: &mut Outgoing) -> Result<(), AllocError>
    requires most { state.now.nodes ≤ LAST_NODE }
    requires some { 1 ≤ from.node }
    requires there { from.node ≤ state.now.nodes }
    ensures ok { OnOk result
        (Sends out.old (members_packets state.now.site
        (drop 1 (raised state.now.known from.node from.incarnation))) out.new) }
    ensures err { OnErr result (MaySend out.old out.new) }
{
    let ledger = state.ledger();
    // (for what the getter says: that an incarnation is known of the registry and of each node)
    let _table = ledger.table();
    let later = raised_incarnations(state.allocator(), ledger.incarnations(), from)?;
    let incarnations = Incarnations::from_vec(later);
    // (a copy, since the same numbers also address the packets)
    let body = Body::Members(incarnations.copy()?);
    send_to_each(state.site(), &body, incarnations.as_slice(), out)
}

/// A node says that it is there: every node is told, then its incarnation is learnt.
pub(crate) fn receive_hello(
    state: &mut SiteState,
    from: Site,
    out: &mut Outgoing,
) -> Result<Reply, ActFault>
    requires most { state.old.nodes ≤ LAST_NODE }
    requires some { 1 ≤ from.node }
    requires there { from.node ≤ state.old.nodes }
    ensures step { IfOk result (λ reply.
        Sending out.old out.new (λ sent.
        (reply ≡ Reply.Moved) × HelloStep state.old from sent state.new)) }
    ensures refusal { refusal_told result ≡ hello_refusal state.old from }
    ensures err { OnErr result (state.new ≡ state.old) }
    ensures list { OnErr result (MaySend out.old out.new) }
{
    if !state.ledger().may_learn_hello(from) {
        return Err(ActFault::NamesSpent);
    }
    // (also to nodes that know it already: nothing else repeats a Members that was lost)
    send_members(state, from, out)?;
    // (tested above, and without memory, so it can't fail once the packets are out)
    state.learn_hello(from)?;
    Ok(Reply::Moved)
}
