//! What a site does of itself: it asks for work, greets, and redoes a child.

ghost use Rattle.std.specs.Prelude.{◌≡◌, ◌<◌, ◌∷◌, [], length, slice_get, IfOk, None, OnErr, OnOk};
ghost use Rattle.node_core.specs.Acting.{refusal_told, Answered, MaySend};
ghost use Rattle.node_core.specs.Outgoing.{Sends};
ghost use Rattle.node_core.specs.Refusal.{ask_refusal, redo_refusal};
ghost use Rattle.spawn_frame.specs.Tables.{open_guests};
ghost use Rattle.node_core.specs.Requests.{all_again, given_again, gives_again, hello_packet, moved_by, returned_again, returns_again, AskStep, RedoStep};

use crate::act_fault::ActFault;
use crate::arrivals::gift_body;
use crate::outgoing::Outgoing;
use crate::reply::Reply;
use crate::site_state::SiteState;
use packet_wire::Body;
use spawn_frame::{Site, Status, Unit};
use std::alloc::AllocError;
use steal_return::RedoFault;

// (known to each node from the beginning, since the registry never restarts)
/// The site of the registry.
const REGISTRY: Site = Site {
    node: 0,
    incarnation: 1,
};

impl SiteState {
    /// Asks another node, or the registry, for work.
    pub fn ask(&self, victim: u8, out: &mut Outgoing) -> Result<Reply, ActFault>
        ensures step { Answered result out.old out.new (λ reply sent.
            (reply ≡ Reply.Moved) × AskStep self.now victim sent self.now) }
        ensures refusal { refusal_told result ≡ ask_refusal self.now victim }
        ensures list { OnErr result (MaySend out.old out.new) }
    {
        if victim == self.site().node || self.ledger.nodes() < victim {
            return Err(ActFault::OtherSite);
        }
        let to = Site {
            node: victim,
            incarnation: self.ledger.known(victim),
        };
        out.send(self.packet_to(to, Body::Steal))?;
        Ok(Reply::Moved)
    }

    /// Tells the registry that the node is there.
    pub fn greet(&self, out: &mut Outgoing) -> Result<(), AllocError>
        ensures step { OnOk result (Sends out.old (hello_packet self.now.site ∷ []) out.new) }
        ensures list { OnErr result (MaySend out.old out.new) }
    {
        out.send(self.packet_to(REGISTRY, Body::Hello))
    }

    /// Makes an own child that is out ready again, at the next attempt.
    pub fn redo(&mut self, serial: u32) -> Result<Reply, ActFault>
        ensures step { IfOk result (λ reply.
            (reply ≡ Reply.Moved) × RedoStep self.old serial [] self.new) }
        ensures refusal { refusal_told result ≡ redo_refusal self.old serial }
        ensures err { OnErr result (self.new ≡ self.old) }
    {
        match self.ledger.redo(serial) {
            Ok(()) => Ok(Reply::Moved),
            Err(RedoFault::NotOut) => Err(ActFault::NotOut),
            Err(RedoFault::NamesSpent) => Err(ActFault::NamesSpent),
        }
    }

    /// Says again what may have been lost: a Give for each child that is out, by serial, then a Return for each
    /// finished guest, in order.
    pub fn again(&self, out: &mut Outgoing) -> Result<Reply, ActFault>
        ensures step { Answered result out.old out.new (λ reply sent.
            (sent ≡ all_again self.now) × (reply ≡ moved_by sent)) }
        ensures refusal { refusal_told result ≡ None }
        ensures list { OnErr result (MaySend out.old out.new) }
    {
        let before = out.count();
        self.give_again(out)?;
        self.return_again(out)?;
        if out.count() == before {
            Ok(Reply::Ignored)
        } else {
            Ok(Reply::Moved)
        }
    }

    /// A Give for each child that is out, by serial. It costs a look at each page of the table, and a pass through the
    /// pages that have such a child.
    pub fn give_again(&self, out: &mut Outgoing) -> Result<(), AllocError>
        ensures ok { OnOk result
            (Sends out.old (gives_again self.now.site 0 self.now.own) out.new) }
        ensures err { OnErr result (MaySend out.old out.new) }
    {
        let table = self.ledger.table();
        let issued = table.issued();
        let mut from = 0;
        while from < issued {
            let Some(serial) = table.next_out(from) else {
                return Ok(());
            };
            self.give_one_again(serial, out)?;
            from = serial + 1;
        }
        Ok(())
    }

    /// A Give for a child, if it is out.
    fn give_one_again(&self, serial: u32, out: &mut Outgoing) -> Result<(), AllocError>
        requires { serial < length self.now.own }
        ensures ok { OnOk result
            (Sends out.old (given_again self.now.site serial
            (slice_get self.now.own serial)) out.new) }
        ensures err { OnErr result (Sends out.old [] out.new) }
    {
        let Some(Status::Out(thief)) = self.ledger.table().status(Unit::Own(serial)) else {
            return Ok(());
        };
        // (by itself, even if it went with others: some of these may be done)
        let gift = self.ledger.gift(serial)?;
        out.send(self.packet_to(*thief, gift_body(gift)))
    }

    /// A Return for each finished guest, in order. It costs a pass through the open guests.
    fn return_again(&self, out: &mut Outgoing) -> Result<(), AllocError>
        ensures ok { OnOk result
            (Sends out.old (returns_again self.now.site self.now.guests) out.new) }
        ensures err { OnErr result (MaySend out.old out.new) }
    {
        for place in 0..self.ledger.table().open_count() {
            self.return_one_again(place, out)?;
        }
        Ok(())
    }

    /// A Return for the open guest at a place among the open ones, if it is finished.
    fn return_one_again(&self, place: usize, out: &mut Outgoing) -> Result<(), AllocError>
        requires { place < length (open_guests self.now.guests) }
        ensures ok { OnOk result
            (Sends out.old (returned_again self.now.site
            (slice_get (open_guests self.now.guests) place)) out.new) }
        ensures err { OnErr result (Sends out.old [] out.new) }
    {
        let guest = self.ledger.table().open_guest(place);
        let Status::Finished(result) = guest.status else {
            return Ok(());
        };
        let body = Body::Return {
            serial: guest.name.serial,
            attempt: guest.attempt,
            // (a copy: until the owner answers, the guest keeps its result to say it again)
            result: result.copy()?,
        };
        out.send(self.packet_to(guest.name.site, body))
    }
}
