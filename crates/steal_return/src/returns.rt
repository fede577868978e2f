//! Results that come back for own children, and whether they enter.

ghost use Rattle.std.specs.Prelude.{◌≡◌, slice_get, true, IfOk, OnErr, OnOk};
ghost use Rattle.spawn_frame.specs.Tables.{has_status, is_out};
ghost use Rattle.steal_return.specs.Returns.{judged, judgement_of, reply_to, returned, Enters};

use crate::judged::Judged;
use crate::ledger::Ledger;
use crate::return_reply::ReturnReply;
use spawn_frame::{Attempt, Cause, ChildResult, Site, Status, Unit};
use std::alloc::AllocError;

impl Ledger {
    /// Judges a result that a site returns for an own child at an attempt. It enters where the child is out to that
    /// very site at that attempt; a child that is done answers with the result that it has. It takes no memory, and
    /// costs nothing.
    pub fn judge(&self, from: Site, serial: u32, attempt: Attempt) -> Judged<'_>
        ensures judged { judgement_of result ≡ judged (slice_get self.now.own serial) from attempt }
        ensures out { judgement_of result ≡ Enters →
            has_status is_out (slice_get self.now.own serial) ≡ true }
    {
        let Some(view) = self.table.unit(Unit::Own(serial)) else {
            return Judged::Refuses(Cause::Unknown);
        };
        if view.attempt < attempt {
            return Judged::Refuses(Cause::Unknown);
        }
        match view.status {
            Status::Aborted => Judged::Refuses(Cause::Aborted),
            // (whoever returns what, at any attempt that there was: so all thieves of a child settle on one result)
            Status::Done(held) => Judged::Holds(held),
            Status::Out(thief) if *thief == from && view.attempt == attempt => Judged::Enters,
            _ => Judged::Refuses(Cause::Superseded),
        }
    }

    /// The result of a child that is out enters: the child is done with it, and its frame hears of it. It takes no
    /// memory, and costs a look for the parent.
    pub fn enter(&mut self, serial: u32, child_result: ChildResult)
        requires { has_status is_out (slice_get self.old.own serial) ≡ true }
        ensures { self.new ≡ returned self.old serial child_result Enters }
    {
        self.table.set_result(Unit::Own(serial), child_result);
    }

    /// Judges a result that a site returns for an own child at an attempt, and lets it enter where it may: the child is
    /// done with it. The answer says what is accepted or why nothing is. The only error is out of memory, which changes
    /// nothing.
    ///
    /// It is `judge` and `enter` in one. The cores call these two, and make room for the answer between them; only
    /// tests call this.
    pub fn receive_return(
        &mut self,
        from: Site,
        serial: u32,
        attempt: Attempt,
        child_result: &ChildResult,
    ) -> Result<ReturnReply, AllocError>
        ensures reply { IfOk result (λ reply.
            reply ≡ reply_to child_result.now
            (judged (slice_get self.old.own serial) from attempt)) }
        ensures after { OnOk result (self.new
            ≡ returned self.old serial child_result.now
            (judged (slice_get self.old.own serial) from attempt)) }
        ensures err { OnErr result (self.new ≡ self.old) }
    {
        match self.judge(from, serial, attempt) {
            Judged::Enters => {
                let accepted = child_result.copy()?;
                // (both copies are made before the result enters, so a refusal of memory leaves the child out)
                self.enter(serial, child_result.copy()?);
                Ok(ReturnReply::Accept(accepted))
            }
            Judged::Holds(held) => Ok(ReturnReply::Accept(held.copy()?)),
            Judged::Refuses(cause) => Ok(ReturnReply::Refuse(cause)),
        }
    }
}
