//! What the site learns of the incarnations of the others.

ghost use Rattle.std.specs.Prelude.{◌≡◌, ◌≢◌, ◌+◌, ◌≤◌, ◌↔◌, length, IfOk, IsErrOf, OnErr, OnOk};
ghost use Rattle.std.specs.Bool.{OnFalse, OnTrue};
ghost use Rattle.spawn_frame.specs.Tables.{outs_of};
ghost use Rattle.steal_return.specs.Finishing.{Appends};
ghost use Rattle.steal_return.specs.Members.{is_earlier_incarnation, now_known, raised, Differs, IsAlike, IsRedoable, IsSpent, IsSpentForHello, IsSpentForMembers, LearnsHello, LearnsMembers};
ghost use Rattle.steal_return.specs.Steals.{is_older};

use crate::children::{is_redoable, redo_lost};
use crate::guests::{drop_guests, lost_guests};
use crate::known::Known;
use crate::learn_fault::LearnFault;
use crate::ledger::Ledger;
use crate::news::News;
use abort_tree::{Descendants, Out, parents_decide};
use spawn_frame::{Site, Unit};

impl Ledger {
    /// Whether the incarnations of nodes 1, 2, .. can be learnt: no own child that would have to be redone stands at
    /// its last attempt. It costs a walk over the own children that are out.
    pub fn may_learn(&self, incarnations: &[u32]) -> bool
        ensures able { OnTrue result
            (IsRedoable (is_older
            (now_known self.now.site.node self.now.known incarnations.now)) self.now.own) }
        ensures spent { OnFalse result (IsSpent (is_older
            (now_known self.now.site.node self.now.known incarnations.now)) self.now.own) }
    {
        let news = News::Members(self.table.site().node, incarnations);
        is_redoable(&self.table, &self.known, news)
    }

    /// Learns the incarnations of nodes 1, 2, ..: of each other node the greater one is kept; what is told beyond the
    /// nodes that there are is passed over. Then each own child that is out to an earlier incarnation than is known now
    /// is redone. Then each open guest of such an owner is dropped, and all open units below these guests become
    /// Aborted; each of them that is out then is appended to the list, by serial. True where anything changed.
    ///
    /// `NamesSpent` comes exactly where a child that would have to be redone stands at its last attempt, `Memory` only
    /// where memory ran out; a fault changes nothing. It costs walks over the own children that are out and a pass
    /// through the guests; where anything changes, also what the redos and the aborts do.
    pub fn learn_members(
        &mut self,
        incarnations: &[u32],
        list: &mut Vec<Out>,
    ) -> Result<bool, LearnFault>
        ensures learns { OnOk result (Appends list.old.items list.new.items (λ outs.
            LearnsMembers self.old incarnations.now outs self.new)) }
        ensures few { OnOk result
            (length list.new.items ≤ length list.old.items + outs_of self.old.own) }
        ensures moved { IfOk result (λ moved. OnTrue moved (self.new ≢ self.old)) }
        ensures same { IfOk result (λ moved. OnFalse moved (self.new ≡ self.old)) }
        ensures spent { IsErrOf result LearnFault.NamesSpent ↔ IsSpentForMembers self.old
            incarnations.now }
        ensures err { OnErr result (self.new ≡ self.old) }
        ensures list { OnErr result (list.new.items ≡ list.old.items) }
    {
        let own = self.table.site().node;
        if !is_redoable(&self.table, &self.known, News::Members(own, incarnations)) {
            return Err(LearnFault::NamesSpent);
        }
        let known = self.known.learnt(own, incarnations)?;
        let lost = lost_guests(self.alloc, &self.table, &known)?;
        // (a Members of incarnations that are all known costs no more than these looks)
        if !self.differs(&known, &lost) {
            return Ok(false);
        }
        let reach = Descendants::below(self.alloc, &self.table, &lost)?;
        list.reserve(reach.outs(&self.table))?;
        // (before the aborts: a child whose thief is gone is ready by then, so no Abort goes to that thief)
        redo_lost(&mut self.table, &known);
        drop_guests(&mut self.table, &lost);
        parents_decide();
        reach.abort(&mut self.table, list);
        self.known = known;
        Ok(true)
    }

    /// Whether it can be learnt that a node is in this incarnation: no child that would have to be redone is at its
    /// last attempt. It takes no memory, and costs a walk over the own children that are out.
    pub fn may_learn_hello(&self, from: Site) -> bool
        ensures able { OnTrue result
            (IsRedoable (is_earlier_incarnation from.node
            (raised self.now.known from.node from.incarnation)) self.now.own) }
        ensures spent { OnFalse result (IsSpentForHello self.now from) }
    {
        is_redoable(&self.table, &self.known, News::Hello(from))
    }

    /// Learns that a node is in this incarnation: the later incarnation of it is kept, and each child that is out to an
    /// earlier one is redone. `NamesSpent`, the only fault, comes exactly where one of them is at its last attempt;
    /// then nothing changes. It takes no memory, and costs two walks over the own children that are out, and the redos.
    pub fn learn_hello(&mut self, from: Site) -> Result<(), LearnFault>
        requires { from.node ≤ self.old.nodes }
        ensures ok { OnOk result (LearnsHello self.old from self.new) }
        ensures spent { IsErrOf result LearnFault.NamesSpent ↔ IsSpentForHello self.old from }
        ensures no_other { OnErr result (IsErrOf result LearnFault.NamesSpent) }
        ensures err { OnErr result (self.new ≡ self.old) }
    {
        if !is_redoable(&self.table, &self.known, News::Hello(from)) {
            return Err(LearnFault::NamesSpent);
        }
        // (before the redos, which go by what is known now: a greeting that comes late redoes nothing)
        self.known.raise(from.node, from.incarnation);
        redo_lost(&mut self.table, &self.known);
        Ok(())
    }

    /// Whether it makes a difference that these incarnations are known and these guests lost. Without a new incarnation
    /// no child has to be redone, since none is out to an earlier one than is known.
    fn differs(&self, known: &Known, lost: &[Unit]) -> bool
        ensures differs { OnTrue result (Differs self.now known.now lost.now) }
        ensures alike { OnFalse result (IsAlike self.now known.now lost.now) }
    {
        known.as_slice() != self.known.as_slice() || !lost.is_empty()
    }
}
