//! Packets that are read where memory is refused: the fault is `Memory`, and what is read then is what the row says.
//!
//! No memory is refused here: `trials/try_memory.py` does it from outside, and sees by marks where a packet begins and
//! ends.

use super::packets::{FIRST_FAULTS, SPELLINGS, is_at};
use growth_marks::{begin, end};
use packet_wire::{Packet, WireFault, read_packet};
use std::alloc::Global;
use std::process::Abort;

/// The number of a packet that is read.
const PACKET: usize = 92;

/// What is read between marks, and where memory is refused, what is read then.
fn packet_read<R: Abort>(rt: &R, alloc: Global, bytes: &[u8]) -> Result<Packet, WireFault> {
    begin(alloc, PACKET).expect(rt, "memory");
    let read = read_packet(alloc, bytes);
    let refused = matches!(&read, Err(WireFault::Memory));
    end(alloc, refused).expect(rt, "memory");
    if refused {
        return read_packet(alloc, bytes);
    }
    read
}

#[test]
fn refused_memory_at_a_packet(rt: HostRuntime) {
    for (place, (from, to, bytes)) in SPELLINGS.iter().enumerate() {
        let read = packet_read(&rt, rt.alloc(), bytes).expect(&rt, "a packet");
        assert!(rt;
            is_at(&rt, rt.alloc(), place, (*from, *to), &read),
            "{place}"
        );
    }
}

#[test]
fn refused_memory_at_a_bad_packet(rt: HostRuntime) {
    for (bytes, fault) in FIRST_FAULTS.iter() {
        let found = packet_read(&rt, rt.alloc(), bytes).err();
        assert!(rt; found == Some(*fault), "{bytes:?}");
    }
}
