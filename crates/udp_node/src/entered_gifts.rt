//! What an incarnation of a site has entered, and need not receive again.
//!
//! A Give is said again for as long as the job lasts, since the thief's answer is the result. Each repeat would be an
//! entry of the thief's book and a turn of two threads, and in long runs most packets are such. Of Return, Steal and
//! Hello the answer may have been lost, and Abort, Refuse and Accept are ignored only until what they speak of comes,
//! so these are heard each time.

use packet_wire::{Body, Packet};
use spawn_frame::{Attempt, Site};
use std::alloc::Global;

/// How many children are kept at most: more than a site has of others at one time, as a rule. Chosen, not measured;
/// what isn't kept is received once more.
const MOST: usize = 1_024;

/// A child of another site, at one of its attempts.
#[derive(Clone, Copy, PartialEq, Eq)]
struct Gift {
    owner: Site,
    serial: u32,
    attempt: Attempt,
}

/// The children that an incarnation of a site was given most recently, and the most recent Members.
///
/// A guest never leaves the table, whatever becomes of it, and incarnations that are known only grow. So the core
/// ignores a Give more of such a child, and the same Members once more, for as long as the incarnation lasts: they need
/// not be delivered. Of what else is said again the answer may have been lost, so that is delivered each time. Whole
/// keys are kept, since a hash that two children share would lose one of them.
#[derive(Drop)]
pub struct EnteredGifts {
    gifts: Vec<Gift>,
    /// Where the next gift is put once there are as many as are kept: in the place of the oldest.
    oldest: usize,
    members: Option<Packet>,
}

impl EnteredGifts {
    /// Nothing so far. It takes no memory.
    pub fn new(alloc: Global) -> EnteredGifts {
        EnteredGifts {
            gifts: Vec::new(alloc),
            oldest: 0,
            members: None,
        }
    }

    /// Whether the packet brings this site only what it has entered.
    pub fn has_all(&self, here: Site, packet: &Packet) -> bool {
        // (the keys below lack the receiver: a packet to another incarnation goes on to the core, which refuses it)
        if packet.to != here {
            return false;
        }
        let owner = packet.from;
        match &packet.body {
            Body::Give {
                serial,
                attempt,
                ..
            } => self.has(owner, *serial, *attempt),
            Body::GiveMany { siblings, .. } => siblings
                .as_slice()
                .iter()
                .all(|sibling| self.has(owner, sibling.serial, sibling.attempt)),
            Body::Members(_) => match &self.members {
                Some(members) => members.is_same(packet),
                None => false,
            },
            _ => false,
        }
    }

    /// Notes a packet that was entered. What isn't kept, as memory ran out, is only delivered again.
    pub fn note(&mut self, packet: &Packet) {
        let owner = packet.from;
        match &packet.body {
            Body::Give {
                serial,
                attempt,
                ..
            } => self.keep(owner, *serial, *attempt),
            Body::GiveMany { siblings, .. } => {
                for sibling in siblings.as_slice() {
                    self.keep(owner, sibling.serial, sibling.attempt);
                }
            }
            Body::Members(_) => self.members = packet.copy().ok(),
            _ => {}
        }
    }

    /// Whether a child is kept.
    fn has(&self, owner: Site, serial: u32, attempt: Attempt) -> bool {
        let wanted = Gift {
            owner,
            serial,
            attempt,
        };
        self.gifts.iter().any(|gift| *gift == wanted)
    }

    /// Keeps a child that isn't kept yet.
    fn keep(&mut self, owner: Site, serial: u32, attempt: Attempt) {
        if self.has(owner, serial, attempt) {
            return;
        }
        let gift = Gift {
            owner,
            serial,
            attempt,
        };
        if self.gifts.len() < MOST {
            let _ = self.gifts.push(gift);
            return;
        }
        // (always there: oldest is below MOST, and so many gifts are kept by now)
        if let Some(place) = self.gifts.get_mut(self.oldest) {
            *place = gift;
        }
        self.oldest = self.oldest.saturating_add(1) % MOST;
    }
}
