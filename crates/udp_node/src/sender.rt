//! The thread of a site that sends.

ghost use Rattle.std.specs.Prelude.{◌≡◌};

use crate::signals::Signals;
use run_book::{Drain, Outbox};
use site_network::Link;
use std::sync::Wait;
use std::time::Clock;

/// How many parcels a look sends at most, so that the looks of a thread come to an end: an outbox full. Chosen, not
/// measured.
const BURST: u64 = 1_024;

/// How sending ended. Counts stop at the greatest number.
#[derive(Clone, Copy, Debug, PartialEq, Eq)]
pub struct Sent {
    /// How many parcels could not be sent: each is a loss.
    pub losses: u64,
    /// How many calls of the link failed.
    pub failures: u64,
}

/// What the thread that sends is given.
#[derive(Drop)]
pub struct Sender<'a, L: Link> {
    /// What waits to be sent.
    pub outbox: &'a Outbox,
    /// The right to take it out.
    pub drain: Drain,
    /// Where it is sent.
    pub link: L,
    /// Where it reads that the other threads of the site are done.
    pub signals: &'a Signals,
    pub ghost same: { drain.outbox ≡ outbox.now },
}

/// Sends what is in the outbox, in its order, until no other thread of the site is at work and the outbox is empty.
/// Where the site is to end already, nothing is sent.
pub fn send_all<L: Link, R: Wait + Clock>(rt: &R, sender: Sender<'_, L>) -> Sent {
    if sender.signals.is_stopped() {
        return Sent {
            losses: 0,
            failures: sender.link.failures(),
        };
    }
    sender.signals.begin_sending();
    sender.signals.muster(rt);
    send_each(rt, sender)
}

/// Sends what is in the outbox, as `send_all` does, once the site has begun.
fn send_each<L: Link, R: Wait>(rt: &R, sender: Sender<'_, L>) -> Sent {
    let Sender {
        outbox,
        mut drain,
        mut link,
        signals,
    } = sender;
    let mut losses = 0u64;
    // (a range in place of a loop without end, so that the prover sees it end; the other threads end it long before)
    for _look in 0..u64::MAX {
        // (read before the look: a thread leaves after its last put, so this look finds whatever it put in)
        let is_last = signals.all_have_left();
        let found = send_waiting(rt, outbox, &mut drain, &mut link);
        losses = losses.saturating_add(found.losses);
        // (while it sent, more may have come in, so it looks again before it dozes or ends)
        if found.parcels > 0 {
            continue;
        }
        if is_last {
            break;
        }
        signals.doze(rt);
    }
    // (a site that sends nothing can't go on; if the others have left already, this changes nothing)
    signals.stop();
    Sent {
        losses,
        failures: link.failures(),
    }
}

/// What one look found.
#[derive(Clone, Copy)]
struct Found {
    parcels: u64,
    /// How many of them could not be sent.
    losses: u64,
}

/// Sends what waits in the outbox, up to a burst.
fn send_waiting<L: Link, R: Wait>(rt: &R, outbox: &Outbox, drain: &mut Drain, link: &mut L) -> Found
    requires { drain.old.outbox ≡ outbox.now }
    ensures { drain.new.outbox ≡ drain.old.outbox }
{
    let mut found = Found {
        parcels: 0,
        losses: 0,
    };
    for _parcel in 0..BURST {
        let Some(parcel) = outbox.take(rt, drain) else {
            break;
        };
        found.parcels = found.parcels.saturating_add(1);
        // (the site goes on: a send that failed is one packet lost, which is repeated if it matters)
        if link.send(rt, parcel.to, &parcel.bytes).is_err() {
            found.losses = found.losses.saturating_add(1);
        }
    }
    found
}
