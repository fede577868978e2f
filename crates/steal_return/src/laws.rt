//! What the definitions of ledgers say of one another.

ghost use Rattle.std.specs.Prelude.{◌≤◌, ℕ, List, length};
ghost use Rattle.spawn_frame.specs.Aborts.{reached, Reached};
ghost use Rattle.spawn_frame.specs.Tables.{outs_of};
ghost use Rattle.spawn_frame.specs.Units.{Entry};
ghost use Rattle.spawn_frame.specs.declared.site.ChildName.{ChildName};
ghost use Rattle.spawn_frame.specs.declared.unit.Unit.{Unit as WorkUnit};
ghost use Rattle.steal_return.specs.Finishing.{FinishesFrame};
ghost use Rattle.steal_return.specs.Guests.{DropsGuest};
ghost use Rattle.steal_return.specs.Ledger.{Ledger};
ghost use Rattle.steal_return.specs.Members.{LearnsMembers};

/// Aborts have no more thieves to tell than own children were out before: so there can be room for all that is told
/// before anything changes.
pub fn aborts_are_few()
    ensures reached { (serial : ℕ) (old new : List Entry) →
        length (reached serial old new) ≤ outs_of old }
    ensures finished { (old new : Ledger) (unit : WorkUnit) (outs : List Reached) →
        FinishesFrame old unit outs new → length outs ≤ outs_of old.own }
    ensures dropped { (old new : Ledger) (name : ChildName) (attempt : ℕ) (outs : List Reached) →
        DropsGuest old name attempt outs new → length outs ≤ outs_of old.own }
    ensures learnt { (old new : Ledger) (incarnations : List ℕ) (outs : List Reached) →
        LearnsMembers old incarnations outs new → length outs ≤ outs_of old.own }
{}
