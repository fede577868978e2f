//! Which unit is taken up.

ghost use Rattle.std.specs.Prelude.{◌≡◌, [], IfErr, IfOk, OnErr};
ghost use Rattle.node_core.specs.Taking.{TakeStep};

use crate::act_fault::ActFault;
use crate::reply::Reply;
use crate::site_state::SiteState;
use cover_problem::Numbers;

impl SiteState {
    /// A worker asks for work: a settled frame is told, else a ready unit is taken up with its prefix.
    pub fn take(&mut self) -> Result<Reply, ActFault>
        ensures step { IfOk result (λ reply. TakeStep self.old reply [] self.new) }
        ensures memory { IfErr result (λ fault. fault ≡ ActFault.Memory) }
        ensures err { OnErr result (self.new ≡ self.old) }
    {
        // (a settled frame comes first: its end may abort what is ready below it)
        if let Some(unit) = self.ledger.table().ripe() {
            return Ok(Reply::Ripe(unit));
        }
        let Some(unit) = self.ledger.table().ready() else {
            return Ok(Reply::Idle);
        };
        let mut prefix = Vec::new(self.alloc);
        // (read before the unit is taken up: where memory runs out, it stays ready)
        self.ledger.table().prefix_into(unit, &mut prefix)?;
        let job = self.ledger.take_up(unit);
        Ok(Reply::Taken(job, Numbers::from_vec(prefix)))
    }
}
