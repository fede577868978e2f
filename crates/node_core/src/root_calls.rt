//! What only the registry asks of its state.

ghost use Rattle.std.specs.Prelude.{◌≡◌, ◌≤◌, slice_get, true, IfErr, OnErr, OnOk};
ghost use Rattle.node_core.specs.SiteView.{with_ledger};
ghost use Rattle.spawn_frame.specs.Tables.{has_status, is_out};
ghost use Rattle.steal_return.specs.Members.{IsSpentForHello, LearnsHello};
ghost use Rattle.steal_return.specs.Returns.{returned, Enters};

use crate::act_fault::ActFault;
use crate::site_state::SiteState;
use spawn_frame::{ChildResult, Site};

impl SiteState {
    /// The result of a child that is out enters: the child is done with it. It takes no memory.
    pub fn enter(&mut self, serial: u32, child_result: ChildResult)
        requires { has_status is_out (slice_get self.old.own serial) ≡ true }
        ensures { self.new ≡ with_ledger self.old
            (returned self.old.ledger serial child_result Enters) }
    {
        self.ledger.enter(serial, child_result);
    }

    /// Learns that a node is in this incarnation: the later incarnation of it is kept, and each child that is out to an
    /// earlier one is redone. `NamesSpent`, the only fault, comes where one of them is at its last attempt; then
    /// nothing changes. It takes no memory.
    pub fn learn_hello(&mut self, from: Site) -> Result<(), ActFault>
        requires { from.node ≤ self.old.nodes }
        ensures ok { OnOk result (LearnsHello self.old.ledger from self.new.ledger) }
        ensures over { self.new ≡ with_ledger self.old self.new.ledger }
        ensures spent { OnErr result (IsSpentForHello self.old.ledger from) }
        ensures fault { IfErr result (λ fault. fault ≡ ActFault.NamesSpent) }
        ensures err { OnErr result (self.new ≡ self.old) }
    {
        match self.ledger.learn_hello(from) {
            Ok(()) => Ok(()),
            Err(_) => Err(ActFault::NamesSpent),
        }
    }
}
