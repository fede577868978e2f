//! What the registry tells every node.

ghost use Rattle.std.specs.Prelude.{◌≤◌, ◌∷◌, [], length, OnErr, OnOk};
ghost use Rattle.node_core.specs.Acting.{MaySend};
ghost use Rattle.node_core.specs.Outgoing.{Sends};
ghost use Rattle.root_registry.specs.RegistryStep.{if_done, over_packets, root_result, to_each};
ghost use Rattle.spawn_frame.specs.declared.site.TheConstants.{LAST_NODE};

use crate::root::is_done;
use node_core::{Outgoing, SiteState};
use packet_wire::{Body, Packet};
use spawn_frame::Site;
use std::alloc::AllocError;

/// Sends this body to each of the nodes from 1 on, whose incarnations these are; the only error is out of memory.
pub(crate) fn send_to_each(
    from: Site,
    body: &Body,
    incarnations: &[u32],
    out: &mut Outgoing,
) -> Result<(), AllocError>
    requires { length incarnations.now ≤ LAST_NODE }
    ensures ok { OnOk result (Sends out.old (to_each from body.now 1 incarnations.now) out.new) }
    ensures err { OnErr result (MaySend out.old out.new) }
{
    for place in 0..incarnations.len() {
        let node = place as u8 + 1;
        send_to_node(from, body, node, incarnations[place], out)?;
    }
    Ok(())
}

/// Sends this body to a node in this incarnation.
fn send_to_node(
    from: Site,
    body: &Body,
    node: u8,
    incarnation: u32,
    out: &mut Outgoing,
) -> Result<(), AllocError>
    ensures ok { OnOk result
        (Sends out.old (to_each from body.now node (incarnation ∷ [])) out.new) }
    ensures err { OnErr result (Sends out.old [] out.new) }
{
    let body = body.copy()?;
    let to = Site { node, incarnation };
    out.send(Packet { from, to, body })
}

/// Tells each node that the search is over; the only error is out of memory.
pub(crate) fn send_over(state: &SiteState, out: &mut Outgoing) -> Result<(), AllocError>
    requires { state.now.nodes ≤ LAST_NODE }
    ensures ok { OnOk result (Sends out.old (over_packets state.now) out.new) }
    ensures err { OnErr result (MaySend out.old out.new) }
{
    let ledger = state.ledger();
    // (for what the getter says: that an incarnation is known of the registry and of each node)
    let _table = ledger.table();
    let body = Body::Over;
    send_to_each(state.site(), &body, &ledger.incarnations()[1..], out)
}

/// Tells each node that the search is over, if it is; the only error is out of memory.
pub(crate) fn send_over_again(state: &SiteState, out: &mut Outgoing) -> Result<(), AllocError>
    requires { state.now.nodes ≤ LAST_NODE }
    ensures ok { OnOk result
        (Sends out.old (if_done (root_result state.now) (over_packets state.now)) out.new) }
    ensures err { OnErr result (MaySend out.old out.new) }
{
    if is_done(state) {
        send_over(state, out)
    } else {
        Ok(())
    }
}
