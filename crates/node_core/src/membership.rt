//! What a node learns of the others.

ghost use Rattle.std.specs.Prelude.{◌≡◌, if◌then◌else◌, IfOk, OnErr};
ghost use Rattle.node_core.specs.Acting.{named_fault, refusal_told, Answered, MaySend};
ghost use Rattle.node_core.specs.Membership.{MembersStep};
ghost use Rattle.node_core.specs.NodeStep.{Tells};
ghost use Rattle.node_core.specs.Refusal.{members_refusal};

use crate::act_fault::ActFault;
use crate::outgoing::Outgoing;
use crate::reply::Reply;
use crate::site_state::SiteState;
use steal_return::{LearnFault, aborts_are_few};

impl SiteState {
    /// Learns the incarnations of the nodes: children out to earlier ones are redone, guests of earlier ones dropped
    /// with all below, and the thieves below told.
    pub fn receive_members(
        &mut self,
        incarnations: &[u32],
        out: &mut Outgoing,
    ) -> Result<Reply, ActFault>
        ensures step { Answered result out.old out.new (λ reply sent.
            MembersStep self.old incarnations.now sent self.new
            × Tells self.old sent self.new reply) }
        ensures refusal { refusal_told result ≡ members_refusal self.old incarnations.now }
        ensures err { OnErr result (self.new ≡ self.old) }
        ensures list { OnErr result (MaySend out.old out.new) }
    {
        let site = self.site();
        // (no `?` here: that a child is at its last attempt is reported even where memory runs out)
        if out.reserve(self.out_count()).is_err() {
            return Err(self.learning_fault(incarnations));
        }
        let mut stolen = Vec::new(self.alloc);
        match self.ledger.learn_members(incarnations, &mut stolen) {
            Ok(moved) => {
                aborts_are_few();
                out.put_aborts(site, &stolen);
                Ok(told_reply(moved))
            }
            Err(LearnFault::NamesSpent) => Err(ActFault::NamesSpent),
            Err(LearnFault::Memory) => Err(ActFault::Memory),
        }
    }

    /// What is told if memory runs out: that the incarnations can't be learnt comes first.
    fn learning_fault(&self, incarnations: &[u32]) -> ActFault
        ensures { named_fault result ≡ members_refusal self.now incarnations.now }
    {
        if self.ledger.may_learn(incarnations) {
            ActFault::Memory
        } else {
            ActFault::NamesSpent
        }
    }
}

/// Whether anything changed, as a reply.
fn told_reply(moved: bool) -> Reply
    ensures { result ≡ (if moved then Reply.Moved else Reply.Ignored) }
{
    if moved { Reply::Moved } else { Reply::Ignored }
}
