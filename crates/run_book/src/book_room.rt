//! How many bytes entries take in their books.

use crate::entry::Entry;
use crate::step::Step;
use brancher::Finding;
use node_core::{Event, Reply};
use packet_wire::{Body, Packet};
use spawn_frame::ChildResult;
use std::mem::{size_of, size_of_val};

/// How many bytes an allocator keeps beside what it gives out, for each piece: a word for its size and what rounding up
/// to 16 takes, as in the C library. An estimate.
const BESIDE: u64 = 16;

/// What an entry takes in the list of its book, which has room for twice as many at most.
const PLACE: u64 = 2 * size_of::<Entry>() as u64;

/// What a step takes by itself, without its lists: it is behind two counts of its owners.
const STEP: u64 = BESIDE + 2 * size_of::<u64>() as u64 + size_of::<Step>() as u64;

/// Returns how many bytes an entry of this step takes in its book; one that shares the step of an earlier entry takes
/// its place alone.
pub(crate) fn entry_bytes(step: &Step, is_shared: bool) -> u64 {
    if is_shared {
        return PLACE;
    }
    (PLACE + STEP)
        .saturating_add(event_bytes(step.event()))
        .saturating_add(reply_bytes(step.reply()))
        .saturating_add(list_bytes(step.packet_room()))
        .saturating_add(packets_bytes(step.packets()))
}

/// What a list takes that has so many bytes of room: nothing where it has none.
fn list_bytes(room: usize) -> u64 {
    if room == 0 {
        0
    } else {
        BESIDE.saturating_add(room as u64)
    }
}

/// What the lists of an event take.
fn event_bytes(event: &Event) -> u64 {
    match event {
        Event::Post(_, finding) => finding_bytes(finding),
        Event::Deliver(packet) => packet_bytes(packet),
        Event::Take
        | Event::Finish(_)
        | Event::Ask(_)
        | Event::Redo(_)
        | Event::Again
        | Event::Greet => 0,
    }
}

/// What the lists of a finding take.
fn finding_bytes(finding: &Finding) -> u64 {
    list_bytes(size_of_val(finding.prefix())).saturating_add(list_bytes(size_of_val(
        finding.cover(),
    )))
}

/// What the prefix of a reply takes.
fn reply_bytes(reply: &Reply) -> u64 {
    match reply {
        Reply::Taken(_, prefix) => list_bytes(size_of_val(prefix.as_slice())),
        Reply::Ripe(_) | Reply::Idle | Reply::Moved | Reply::Ignored => 0,
    }
}

/// What the lists in these packets take.
fn packets_bytes(packets: &[Packet]) -> u64 {
    let mut bytes = 0u64;
    for packet in packets {
        bytes = bytes.saturating_add(packet_bytes(packet));
    }
    bytes
}

/// What the lists in a packet take.
fn packet_bytes(packet: &Packet) -> u64 {
    match &packet.body {
        Body::Members(incarnations) => list_bytes(size_of_val(incarnations.as_slice())),
        Body::Give { prefix, .. } => list_bytes(size_of_val(prefix.as_slice())),
        Body::GiveMany { prefix, siblings } => list_bytes(size_of_val(
            prefix.as_slice(),
        )).saturating_add(list_bytes(size_of_val(siblings.as_slice()))),
        Body::Return { result: found, .. } | Body::Accept { result: found, .. } => result_bytes(
            found,
        ),
        Body::Hello
        | Body::Steal
        | Body::NoWork
        | Body::Refuse { .. }
        | Body::Abort { .. }
        | Body::Over => 0,
    }
}

/// What the cover of a result takes.
fn result_bytes(found: &ChildResult) -> u64 {
    match found {
        ChildResult::Cover(options) => list_bytes(size_of_val(options.as_slice())),
        ChildResult::Empty => 0,
    }
}
