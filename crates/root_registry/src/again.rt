//! What the registry says again.

ghost use Rattle.std.specs.Prelude.{◌≡◌, ◌≤◌, None, IfOk, OnErr};
ghost use Rattle.node_core.specs.Acting.{refusal_told, MaySend, Sending};
ghost use Rattle.root_registry.specs.Core.{SaysAgain};
ghost use Rattle.spawn_frame.specs.declared.site.TheConstants.{LAST_NODE};

use crate::telling::send_over_again;
use node_core::{ActFault, Outgoing, Reply, SiteState};

/// Says again what may have been lost: a Give if the root is out, then to every node that the search is over if it is.
pub(crate) fn say_again(state: &SiteState, out: &mut Outgoing) -> Result<Reply, ActFault>
    requires { state.now.nodes ≤ LAST_NODE }
    ensures step { IfOk result (λ reply. Sending out.old out.new (SaysAgain state.now reply)) }
    ensures refusal { refusal_told result ≡ None }
    ensures list { OnErr result (MaySend out.old out.new) }
{
    let before = out.count();
    state.give_again(out)?;
    send_over_again(state, out)?;
    if out.count() == before {
        Ok(Reply::Ignored)
    } else {
        Ok(Reply::Moved)
    }
}
