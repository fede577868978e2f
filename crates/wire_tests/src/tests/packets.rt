//! Packets and their bytes, worked out by hand from the format.

use cover_problem::Numbers;
use packet_wire::WireFault::{Field, Kind, Magic, Short, Trailing, Version};
use packet_wire::*;
use spawn_frame::{Cause, ChildResult, Sibling, Siblings, Site};
use std::alloc::Global;
use std::process::Abort;

/// Of each kind one packet, as bytes. Those that name a child name the root.
const GIVE: &[u8] = b"CN\x01\x04\0\0\0\0\x01\x02\0\0\0\x01\0\0\0\0\0\0\0\x01\0\0";

const RETURN_EMPTY: &[u8] = b"CN\x01\x06\x02\0\0\0\x01\0\0\0\0\x01\0\0\0\0\0\0\0\x01\0";

const RETURN_COVER: &[u8] =
    b"CN\x01\x06\x02\0\0\0\x01\0\0\0\0\x01\0\0\0\0\0\0\0\x01\x01\0\x03\0\x03\0\x04\0\0";

const STEAL: &[u8] = b"CN\x01\x03\x02\0\0\0\x01\0\0\0\0\x01";

const HELLO: &[u8] = b"CN\x01\x01\x10\x01\x02\x03\x04\0\0\0\0\x01";

const MEMBERS: &[u8] = b"CN\x01\x02\0\0\0\0\x01\x02\0\0\0\x03\x02\0\0\0\x01\0\0\x01\0";

const NO_WORK: &[u8] = b"CN\x01\x05\x01\0\0\0\x01\x02\0\0\0\x01";

const ACCEPT: &[u8] =
    b"CN\x01\x07\x02\0\0\0\x01\x01\0\0\0\x05\0\0\0\x07\0\0\0\x02\x01\0\x01\x4e\x1f";

const REFUSE: &[u8] = b"CN\x01\x08\0\0\0\0\x01\x01\0\0\0\x01\0\0\0\0\0\0\0\x01\x02";

const ABORT: &[u8] = b"CN\x01\x09\x01\0\0\0\x01\x02\0\0\0\x01\0\0\x01\0\xff\xff\xff\xff";

const OVER: &[u8] = b"CN\x01\x0a\0\0\0\0\x01\x01\0\0\0\x09";

/// Two children of a node's root, by the options 0 and 1.
const GIVE_MANY: &[u8] = b"CN\x02\x04\x01\0\0\0\x01\x02\0\0\0\x01\x02\0\0\
    \0\0\0\0\0\0\0\x01\0\0\0\0\0\x01\0\0\0\x01\0\x01";

/// A child below the first option and the last that there can be.
const GIVE_BELOW_THE_LAST: &[u8] =
    b"CN\x01\x04\x01\0\0\0\x01\x02\0\0\0\x01\0\0\0\0\0\0\0\x01\0\x02\0\0\x4e\x1f";

/// A Return of a cover of 1,001 options, before these.
const RETURN_OF_1001: &[u8] = b"CN\x01\x06\x02\0\0\0\x01\0\0\0\0\x01\0\0\0\0\0\0\0\x01\x01\x03\xe9";

/// The sender's node and incarnation, the receiver's, and the packet.
pub static SPELLINGS: [((u8, u32), (u8, u32), &[u8]); 12] = [
    ((0, 1), (2, 1), GIVE),
    ((2, 1), (0, 1), RETURN_EMPTY),
    ((2, 1), (0, 1), RETURN_COVER),
    ((2, 1), (0, 1), STEAL),
    ((16, 0x0102_0304), (0, 1), HELLO),
    ((0, 1), (2, 3), MEMBERS),
    ((1, 1), (2, 1), NO_WORK),
    ((2, 1), (1, 5), ACCEPT),
    ((0, 1), (1, 1), REFUSE),
    ((1, 1), (2, 1), ABORT),
    ((0, 1), (1, 9), OVER),
    ((1, 1), (2, 1), GIVE_MANY),
];

fn list<R: Abort>(rt: &R, alloc: Global, options: &[u16]) -> Numbers {
    Numbers::from_vec(Vec::from_slice(alloc, options).expect(rt, "memory"))
}

fn cover<R: Abort>(rt: &R, alloc: Global, options: &[u16]) -> ChildResult {
    ChildResult::Cover(list(rt, alloc, options))
}

fn members<R: Abort>(rt: &R, alloc: Global) -> Incarnations {
    Incarnations::from_vec(vec![in alloc; 1, 256].expect(rt, "memory"))
}

/// A Return of the root at its first attempt.
fn returned(told: ChildResult) -> Body {
    Body::Return {
        serial: 0,
        attempt: 1,
        result: told,
    }
}

/// So many children of the parent with this prefix, at their first attempts; their serials and options go from 0 on.
fn together<R: Abort>(rt: &R, alloc: Global, prefix: &[u16], count: u16) -> Body {
    let mut siblings = Vec::new(alloc);
    for option in 0..count {
        siblings
            .push(Sibling {
                serial: u32::from(option),
                attempt: 1,
                option,
            })
            .expect(rt, "memory");
    }
    Body::GiveMany {
        prefix: list(rt, alloc, prefix),
        siblings: Siblings::from_vec(siblings),
    }
}

/// What the packet at this place says.
fn body_of<R: Abort>(rt: &R, alloc: Global, place: usize) -> Body {
    match place {
        0 => Body::Give {
            serial: 0,
            attempt: 1,
            prefix: list(rt, alloc, &[]),
        },
        1 => returned(ChildResult::Empty),
        2 => returned(cover(rt, alloc, &[3, 4, 0])),
        3 => Body::Steal,
        4 => Body::Hello,
        5 => Body::Members(members(rt, alloc)),
        6 => Body::NoWork,
        7 => Body::Accept {
            serial: 7,
            attempt: 2,
            result: cover(rt, alloc, &[19_999]),
        },
        8 => Body::Refuse {
            serial: 0,
            attempt: 1,
            cause: Cause::Superseded,
        },
        9 => Body::Abort {
            serial: 256,
            attempt: u32::MAX,
        },
        10 => Body::Over,
        _ => together(rt, alloc, &[], 2),
    }
}

/// An incarnation of a node.
fn site(node: u8, incarnation: u32) -> Site {
    Site { node, incarnation }
}

/// A packet between these sites.
fn packet(from: (u8, u32), to: (u8, u32), body: Body) -> Packet {
    Packet {
        from: site(from.0, from.1),
        to: site(to.0, to.1),
        body,
    }
}

/// A list with the packet written behind a byte 7.
fn written<R: Abort>(rt: &R, alloc: Global, packet: &Packet) -> Vec<u8> {
    assert!(rt; is_well_formed(packet));
    let mut out = vec![in alloc; 7u8].expect(rt, "memory");
    write_packet(alloc, packet, &mut out).expect(rt, "memory");
    out
}

/// Whether these bytes, and no others, are written behind the 7.
fn is_written<R: Abort>(rt: &R, alloc: Global, packet: &Packet, bytes: &[u8]) -> bool {
    matches!(written(rt, alloc, packet).as_slice(), [7, rest @ ..] if rest == bytes)
}

/// Whether the packet is written so, and a copy of it is the same.
fn writes<R: Abort>(rt: &R, alloc: Global, packet: &Packet, bytes: &[u8]) -> bool {
    is_written(rt, alloc, packet, bytes) && packet.copy().expect(rt, "memory").is_same(packet)
}

/// Whether the packet at this place is written so.
fn writes_at<R: Abort>(
    rt: &R,
    alloc: Global,
    place: usize,
    (from, to): ((u8, u32), (u8, u32)),
    bytes: &[u8],
) -> bool {
    writes(
        rt,
        alloc,
        &packet(from, to, body_of(rt, alloc, place)),
        bytes,
    )
}

#[test]
fn each_packet_is_written_behind_what_is_there(rt: HostRuntime) {
    for (place, (from, to, bytes)) in SPELLINGS.iter().enumerate() {
        assert!(rt;
            writes_at(&rt, rt.alloc(), place, (*from, *to), bytes),
            "{place}"
        );
    }
}

/// The packet of these bytes.
fn read<R: Abort>(rt: &R, alloc: Global, bytes: &[u8]) -> Packet {
    read_packet(alloc, bytes).expect(rt, "a packet")
}

/// Whether it is the packet at this place.
pub fn is_at<R: Abort>(
    rt: &R,
    alloc: Global,
    place: usize,
    (from, to): ((u8, u32), (u8, u32)),
    read: &Packet,
) -> bool {
    *read == packet(from, to, body_of(rt, alloc, place))
}

#[test]
fn each_packet_is_read_from_its_bytes(rt: HostRuntime) {
    for (place, (from, to, bytes)) in SPELLINGS.iter().enumerate() {
        assert!(rt;
            is_at(
                &rt,
                rt.alloc(),
                place,
                (*from, *to),
                &read(&rt, rt.alloc(), bytes)
            ),
            "{place}"
        );
    }
}

/// Whether the bytes are read as a return of this cover.
fn reads_return<R: Abort>(rt: &R, alloc: Global, bytes: &[u8], options: &[u16]) -> bool {
    read(rt, alloc, bytes) == cover_returned(rt, alloc, options)
}

#[test]
fn a_cover_is_read_in_its_order(rt: HostRuntime) {
    assert!(rt; reads_return(&rt, rt.alloc(), RETURN_COVER, &[3, 4, 0]));
}

/// The packet that gives the first child of node 1 to node 2, with this prefix.
fn given<R: Abort>(rt: &R, alloc: Global, options: &[u16]) -> Packet {
    let body = Body::Give {
        serial: 0,
        attempt: 1,
        prefix: list(rt, alloc, options),
    };
    packet((1, 1), (2, 1), body)
}

#[test]
fn the_last_option_is_given(rt: HostRuntime) {
    let packet = given(&rt, rt.alloc(), &[0, 19_999]);
    assert!(rt; writes(&rt, rt.alloc(), &packet, GIVE_BELOW_THE_LAST));
    assert!(rt; read(&rt, rt.alloc(), GIVE_BELOW_THE_LAST) == packet);
}

/// Why these bytes aren't read.
fn fault_of(alloc: Global, bytes: &[u8]) -> Option<WireFault> {
    read_packet(alloc, bytes).err()
}

/// Each beginning is short.
fn is_short_before_its_end<R: Abort>(rt: &R, alloc: Global, bytes: &[u8]) {
    for end in 0..bytes.len() {
        assert!(rt;
            fault_of(alloc, &bytes[..end]) == Some(Short),
            "{bytes:?} {end}"
        );
    }
}

/// Whatever byte is behind it, it is one too many.
fn trails<R: Abort>(rt: &R, alloc: Global, bytes: &[u8]) {
    let mut longer = Vec::from_slice(alloc, bytes).expect(rt, "memory");
    longer.push(0).expect(rt, "memory");
    for _ in 0..=255u8 {
        assert!(rt; fault_of(alloc, &longer) == Some(Trailing), "{bytes:?}");
        if let Some(last) = longer.get_mut(bytes.len()) {
            *last = last.wrapping_add(1);
        }
    }
}

#[test]
fn beginnings_are_short(rt: HostRuntime) {
    for (_, _, bytes) in SPELLINGS.iter() {
        is_short_before_its_end(&rt, rt.alloc(), bytes);
        trails(&rt, rt.alloc(), bytes);
    }
}

/// How many of some bytes are read, and how many have each fault, from `Short` to `Trailing` in the order of their
/// numbers.
type Counts = [usize; 7];

/// What is counted of a packet's beginnings, of its bytes with one more behind them, and of its changes of one byte. A
/// reader of `trials/try_bytes.py` counted the same.
static COUNTS: [(&[u8], Counts); 12] = [
    (GIVE, [3088, 282, 510, 254, 246, 1760, 260]),
    (RETURN_EMPTY, [3088, 24, 510, 254, 247, 1763, 258]),
    (RETURN_COVER, [4087, 286, 510, 254, 247, 2547, 261]),
    (STEAL, [1050, 15, 510, 254, 247, 1508, 256]),
    (HELLO, [1036, 15, 510, 254, 247, 1522, 256]),
    (MEMBERS, [3073, 38, 510, 254, 247, 1762, 260]),
    (NO_WORK, [2068, 19, 510, 254, 247, 486, 256]),
    (ACCEPT, [4216, 285, 510, 254, 247, 1395, 261]),
    (REFUSE, [3090, 24, 510, 254, 247, 1760, 259]),
    (ABORT, [4107, 26, 510, 254, 247, 486, 258]),
    (OVER, [1035, 19, 510, 254, 247, 1519, 256]),
    (GIVE_MANY, [5789, 300, 510, 254, 255, 2364, 256]),
];

/// Whether the packet is written so, behind nothing.
fn is_spelled<R: Abort>(rt: &R, alloc: Global, packet: &Packet, bytes: &[u8]) -> bool {
    assert!(rt; is_well_formed(packet));
    let mut out = Vec::new(alloc);
    write_packet(alloc, packet, &mut out).expect(rt, "memory");
    out.as_slice() == bytes
}

/// The place of what is read of some bytes. A packet has to be spelled so.
fn place_of<R: Abort>(rt: &R, alloc: Global, bytes: &[u8]) -> usize {
    match read_packet(alloc, bytes) {
        Ok(packet) => {
            assert!(rt; is_spelled(rt, alloc, &packet, bytes), "{bytes:?}");
            0
        }
        Err(Short) => 1,
        Err(Magic) => 2,
        Err(Version) => 3,
        Err(Kind) => 4,
        Err(Field) => 5,
        Err(Trailing) => 6,
        // (none of these packets takes that much memory)
        Err(WireFault::Memory) => 7,
    }
}

/// Counts what is read of some bytes.
fn count<R: Abort>(rt: &R, alloc: Global, bytes: &[u8], counts: &mut Counts) {
    if let Some(count) = counts.get_mut(place_of(rt, alloc, bytes)) {
        *count = count.wrapping_add(1);
    }
}

/// Counts the same with each other byte at a place.
fn change_byte<R: Abort>(
    rt: &R,
    alloc: Global,
    bytes: &mut [u8],
    place: usize,
    counts: &mut Counts,
) {
    for _ in 1..=255u8 {
        if let Some(byte) = bytes.get_mut(place) {
            *byte = byte.wrapping_add(1);
        }
        count(rt, alloc, bytes, counts);
    }
}

/// Counts each beginning, and each change of one byte.
fn change_each_byte<R: Abort>(rt: &R, alloc: Global, bytes: &[u8], counts: &mut Counts) {
    for place in 0..bytes.len() {
        count(rt, alloc, &bytes[..place], counts);
        let mut changed = Vec::from_slice(alloc, bytes).expect(rt, "memory");
        change_byte(rt, alloc, &mut changed, place, counts);
    }
}

/// Counts each byte behind all.
fn lengthen<R: Abort>(rt: &R, alloc: Global, bytes: &[u8], counts: &mut Counts) {
    let mut longer = Vec::from_slice(alloc, bytes).expect(rt, "memory");
    longer.push(0).expect(rt, "memory");
    count(rt, alloc, &longer, counts);
    change_byte(rt, alloc, &mut longer, bytes.len(), counts);
}

#[test]
fn changed_bytes_are_read_or_refused(rt: HostRuntime) {
    for (bytes, expected) in COUNTS.iter() {
        let mut counts: Counts = [0; 7];
        change_each_byte(&rt, rt.alloc(), bytes, &mut counts);
        lengthen(&rt, rt.alloc(), bytes, &mut counts);
        assert!(rt; counts == *expected, "{bytes:?} {counts:?}");
    }
}

pub static FIRST_FAULTS: [(&[u8], WireFault); 41] = [
    (b"DN\x01\x03\x02\0\0\0\x01\0\0\0\0\x01", Magic),
    (b"D", Short),
    (b"DN", Magic),
    (b"CN\x03", Version),
    // In the second version there is but one kind.
    (b"CN\x02", Short),
    (b"CN\x02\x03", Kind),
    (b"CN\x02\x05", Kind),
    (b"CN\x02\x0b", Kind),
    // A GiveMany goes from a node to another one, and has 2 to 8 children and at most 999 options before them.
    (b"CN\x02\x04\0\0\0\0\x01\x02\0\0\0\x01", Field),
    (b"CN\x02\x04\x01\0\0\0\x01\0\0\0\0\x01", Field),
    (b"CN\x02\x04\x01\0\0\0\x01\x01\0\0\0\x02", Field),
    (b"CN\x02\x04\x01\0\0\0\x01\x02\0\0\0\x01\x01", Field),
    (b"CN\x02\x04\x01\0\0\0\x01\x02\0\0\0\x01\x09", Field),
    (b"CN\x02\x04\x01\0\0\0\x01\x02\0\0\0\x01\x08\x03\xe8", Field),
    (b"CN\x02\x04\x01\0\0\0\x01\x02\0\0\0\x01\x08\x03\xe7", Short),
    // Serials rise.
    (
        b"CN\x02\x04\x01\0\0\0\x01\x02\0\0\0\x01\x02\0\0\0\0\0\x01\0\0\0\x01\0\0\0\0\0\x01",
        Field,
    ),
    (
        b"CN\x02\x04\x01\0\0\0\x01\x02\0\0\0\x01\x02\0\0\0\0\0\x01\0\0\0\x01\0\0\0\0\0\x02",
        Short,
    ),
    (
        b"CN\x02\x04\x01\0\0\0\x01\x02\0\0\0\x01\x02\0\0\0\0\0\x01\0\0\0\x01\0\0\0\0\0\0",
        Field,
    ),
    // A child has an attempt and an option.
    (
        b"CN\x02\x04\x01\0\0\0\x01\x02\0\0\0\x01\x02\0\0\0\0\0\x01\0\0\0\0",
        Field,
    ),
    (
        b"CN\x02\x04\x01\0\0\0\x01\x02\0\0\0\x01\x02\0\0\0\0\0\x01\0\0\0\x01\x4e\x20",
        Field,
    ),
    (
        b"CN\x02\x04\x01\0\0\0\x01\x02\0\0\0\x01\x02\0\0\0\0\0\x01\0\0\0\x01\x4e\x1f",
        Short,
    ),
    (b"CN\0\x0b\x11", Version),
    (b"CN\x01\x0b\x02\0\0\0\x01\0\0\0\0\x01", Kind),
    (b"CN\x01\0", Kind),
    (b"CN\x01\x03\x11\0\0\0\x01\0\0\0\0\x01", Field),
    (b"CN\x01\x03\x11", Field),
    // Incarnations: none is 0, and the registry's is 1.
    (b"CN\x01\x03\x02\0\0\0\0", Field),
    (b"CN\x01\x02\0\0\0\0\x02", Field),
    // A Hello from a node to a node, whole and but for a byte; a Steal from a site to itself.
    (b"CN\x01\x01\x01\0\0\0\x01\x02\0\0\0\x01", Field),
    (b"CN\x01\x01\x01\0\0\0\x01\x02\0\0\0", Short),
    (b"CN\x01\x03\x01\0\0\0\x01\x01\0\0\0\x02", Field),
    // Counts of nodes.
    (b"CN\x01\x02\0\0\0\0\x01\x02\0\0\0\x01\0", Field),
    (b"CN\x01\x02\0\0\0\0\x01\x02\0\0\0\x01\x11", Field),
    (b"CN\x01\x02\0\0\0\0\x01\x02\0\0\0\x01\x10", Short),
    // An attempt, an option, and counts of options.
    (
        b"CN\x01\x04\0\0\0\0\x01\x02\0\0\0\x01\0\0\0\0\0\0\0\0",
        Field,
    ),
    (
        b"CN\x01\x04\0\0\0\0\x01\x02\0\0\0\x01\0\0\0\0\0\0\0\x01\0\x01\x4e\x20",
        Field,
    ),
    (
        b"CN\x01\x04\0\0\0\0\x01\x02\0\0\0\x01\0\0\0\0\0\0\0\x01\x03\xe9",
        Field,
    ),
    (
        b"CN\x01\x04\0\0\0\0\x01\x02\0\0\0\x01\0\0\0\0\0\0\0\x01\x03\xe8",
        Short,
    ),
    (
        b"CN\x01\x06\x02\0\0\0\x01\0\0\0\0\x01\0\0\0\0\0\0\0\x01\x01\0\0",
        Field,
    ),
    // A result that is neither 0 nor 1, and a cause above 3.
    (
        b"CN\x01\x06\x02\0\0\0\x01\0\0\0\0\x01\0\0\0\0\0\0\0\x01\x02",
        Field,
    ),
    (
        b"CN\x01\x08\0\0\0\0\x01\x01\0\0\0\x01\0\0\0\0\0\0\0\x01\x04",
        Field,
    ),
];

#[test]
fn the_first_fault_is_told(rt: HostRuntime) {
    for (bytes, fault) in FIRST_FAULTS.iter() {
        assert!(rt; fault_of(rt.alloc(), bytes) == Some(*fault), "{bytes:?}");
    }
}

/// The options from 19,000 on, as many as a list can have.
fn most_options<R: Abort>(rt: &R, alloc: Global) -> Vec<u16> {
    (19_000..20_000u16).collect(alloc).expect(rt, "memory")
}

/// The packet that returns a cover of the root.
fn cover_returned<R: Abort>(rt: &R, alloc: Global, options: &[u16]) -> Packet {
    packet((2, 1), (0, 1), returned(cover(rt, alloc, options)))
}

/// Whether these are the bytes of the longest packet of the first version, behind a 7: its list has 1,000 options,
/// 19,000 to 19,999.
fn is_longest(bytes: &[u8]) -> bool {
    bytes.len() == 2026
        && &bytes[23..28] == b"\x01\x03\xe8\x4a\x38".as_slice()
        && &bytes[2024..] == b"\x4e\x1f".as_slice()
}

/// Whether the bytes behind the 7 are read as a return of this cover.
fn reads_behind_7<R: Abort>(rt: &R, alloc: Global, bytes: &[u8], options: &[u16]) -> bool {
    matches!(bytes, [7, rest @ ..] if reads_return(rt, alloc, rest, options))
}

/// Whether a Return of these options is spelled as the longest of those, and read again.
fn spells_longest<R: Abort>(rt: &R, alloc: Global, options: &[u16]) -> bool {
    let bytes = written(rt, alloc, &cover_returned(rt, alloc, options));
    is_longest(&bytes) && reads_behind_7(rt, alloc, &bytes, options)
}

#[test]
fn longest_packet_is_written_and_read(rt: HostRuntime) {
    assert!(rt; spells_longest(&rt, rt.alloc(), &most_options(&rt, rt.alloc())));
}

/// Whether eight children below 999 options make the longest packet of all.
fn spells_longest_of_all<R: Abort>(rt: &R, alloc: Global, options: &[u16]) -> bool {
    let packet = packet((1, 1), (2, 1), together(rt, alloc, options, 8));
    let bytes = written(rt, alloc, &packet);
    let behind = matches!(bytes.as_slice(), [7, rest @ ..] if read(rt, alloc, rest) == packet);
    bytes.len() == 2096 && behind
}

#[test]
fn longest_packet_of_all_is_written_and_read(rt: HostRuntime) {
    let mut options = most_options(&rt, rt.alloc());
    options.truncate(999);
    assert!(rt; spells_longest_of_all(&rt, rt.alloc(), &options));
}

/// Whether so many children below these options are well formed.
fn may_give<R: Abort>(rt: &R, alloc: Global, options: &[u16], count: u16) -> bool {
    is_well_formed(&packet((1, 1), (2, 1), together(rt, alloc, options, count)))
}

#[test]
fn other_numbers_of_children_are_not_well_formed(rt: HostRuntime) {
    assert!(rt; may_give(&rt, rt.alloc(), &[], 2) && may_give(&rt, rt.alloc(), &[], 8));
    assert!(rt; !may_give(&rt, rt.alloc(), &[], 1) && !may_give(&rt, rt.alloc(), &[], 9));
    assert!(rt; !may_give(&rt, rt.alloc(), &most_options(&rt, rt.alloc()), 2));
}

/// A Return with 1,001 options, which all are there.
fn return_of_1001<R: Abort>(rt: &R, alloc: Global) -> Vec<u8> {
    let mut bytes = Vec::from_slice(alloc, RETURN_OF_1001).expect(rt, "memory");
    for _ in 0..2 * 1_001 {
        bytes.push(0).expect(rt, "memory");
    }
    bytes
}

#[test]
fn longer_list_is_refused_where_it_is_whole(rt: HostRuntime) {
    let bytes = return_of_1001(&rt, rt.alloc());
    assert!(rt; fault_of(rt.alloc(), &bytes) == Some(Field));
}

/// Whether a Return of these options is well formed.
fn may_return<R: Abort>(rt: &R, alloc: Global, options: &[u16]) -> bool {
    is_well_formed(&cover_returned(rt, alloc, options))
}

#[test]
fn longer_list_is_not_well_formed(rt: HostRuntime) {
    let mut options = most_options(&rt, rt.alloc());
    options.push(0).expect(&rt, "memory");
    assert!(rt; !may_return(&rt, rt.alloc(), &options));
}
