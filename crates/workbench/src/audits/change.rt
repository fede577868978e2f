//! Changes of what happened at a site.

ghost use Rattle.std.specs.Prelude.{◌<◌, vec_len};

use crate::audits::fault::TrialFault;
use node_core::Event;
use packet_wire::{Packet, is_well_formed, read_packet, write_packet};
use rand_core::utils::NextWord;
use rand_pcg::Pcg32;
use run_book::Entry;
use std::alloc::{AllocError, Global};

/// What is changed at one entry of a book.
#[derive(Clone, Copy, Debug, PartialEq, Eq)]
pub enum Change {
    /// The event doesn't happen.
    Dropped,
    /// The event happens twice.
    Repeated,
    /// The event comes after the next one.
    Swapped,
    /// One bit of the packet's bytes is another, and they still are a packet.
    Altered,
    /// The packet of another entry of the book is delivered.
    Exchanged,
}

/// A number below the bound.
pub fn below(rng: &mut Pcg32, bound: usize) -> usize
    requires { 0 < bound }
    ensures { result < bound }
{
    rng.next_word() as usize % bound
}

/// A change.
pub fn drawn_change(rng: &mut Pcg32) -> Change {
    match below(rng, 5) {
        0 => Change::Dropped,
        1 => Change::Repeated,
        2 => Change::Swapped,
        3 => Change::Altered,
        _ => Change::Exchanged,
    }
}

/// The events of a book, in their order. The only error is out of memory.
pub fn events_of(alloc: Global, entries: &[Entry]) -> Result<Vec<Event>, AllocError> {
    let mut events = Vec::with_capacity(alloc, entries.len())?;
    for entry in entries {
        events.push(entry.event().copy()?)?;
    }
    Ok(events)
}

/// The packet with one bit of its bytes changed; none where these bytes are no packet.
fn altered(alloc: Global, rng: &mut Pcg32, packet: &Packet) -> Result<Option<Packet>, TrialFault> {
    if !is_well_formed(packet) {
        return Ok(None);
    }
    let mut bytes = Vec::new(alloc);
    write_packet(alloc, packet, &mut bytes)?;
    if bytes.is_empty() {
        return Ok(None);
    }
    let at = below(rng, bytes.len());
    bytes[at] ^= 1u8 << (below(rng, 8) as u32);
    Ok(read_packet(alloc, &bytes).ok())
}

/// Makes a change at a place of the events. False where it can't be made there, and the events are the same.
pub fn make_change(
    alloc: Global,
    rng: &mut Pcg32,
    events: &mut Vec<Event>,
    place: usize,
    change: Change,
) -> Result<bool, TrialFault>
    requires { place < vec_len events.old }
{
    match change {
        Change::Dropped => {
            events.remove(place);
        }
        Change::Repeated => {
            let again = events[place].copy()?;
            events.insert(place, again)?;
        }
        Change::Swapped => {
            if place + 1 == events.len() {
                return Ok(false);
            }
            events.swap(place, place + 1);
        }
        Change::Altered => {
            let Event::Deliver(packet) = &events[place] else {
                return Ok(false);
            };
            let Some(packet) = altered(alloc, rng, packet)? else {
                return Ok(false);
            };
            events[place] = Event::Deliver(packet);
        }
        Change::Exchanged => {
            let other = below(rng, events.len());
            let Event::Deliver(packet) = &events[other] else {
                return Ok(false);
            };
            if !matches!(&events[place], Event::Deliver(_)) {
                return Ok(false);
            }
            events[place] = Event::Deliver(packet.copy()?);
        }
    }
    Ok(true)
}
