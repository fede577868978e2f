//! A run's key, and two sites that talk, over sockets and in memory.
//!
//! Of the bugs of `run_key` that are kept outside the gate, `keys_are_drawn_whole` finds `half_of_a_key_is_drawn`.
//!
//! Of the bugs of `site_network` that are kept outside the gate, `a_stranger_is_not_heard` finds `opens_nothing` and
//! `hears_without_a_code`, `receives_wait` finds `receives_never_wait`, `hastened_receives_do_not_wait` finds
//! `the_end_is_not_hastened`, and `each_of_sixteen_nodes_is_reached` finds `sends_reach_four_nodes`.

use run_key::RunKey;
use site_network::{Link, LinkFault, MemoryLink, Sockets, UdpLink, Wires, bound};
use std::alloc::Global;
use std::io;
use std::net::Net;
use std::random::RandomSource;
use std::sync::{Arc, Wait};
use std::test::Fail;
use std::thread::{self, Threads};
use std::time::{Clock, Instant};

/// How many datagrams each site sends.
const SENT: u8 = 20;

/// How many receives a site waits for them at most.
const TURNS: u32 = 100_000;

/// Keys, messages and their codes: the five test cases of RFC 4231 whose keys are no longer than a block, which are
/// filled up with zeros, and of each HMAC by SHA-256 the first sixteen bytes.
static CODES: [(&[u8], &[u8], [u8; 16]); 5] = [
    (
        &[0x0b; 20],
        b"Hi There",
        [
            0xb0, 0x34, 0x4c, 0x61, 0xd8, 0xdb, 0x38, 0x53, 0x5c, 0xa8, 0xaf, 0xce, 0xaf, 0x0b,
            0xf1, 0x2b,
        ],
    ),
    (
        b"Jefe",
        b"what do ya want for nothing?",
        [
            0x5b, 0xdc, 0xc1, 0x46, 0xbf, 0x60, 0x75, 0x4e, 0x6a, 0x04, 0x24, 0x26, 0x08, 0x95,
            0x75, 0xc7,
        ],
    ),
    (
        &[0xaa; 20],
        &[0xdd; 50],
        [
            0x77, 0x3e, 0xa9, 0x1e, 0x36, 0x80, 0x0e, 0x46, 0x85, 0x4d, 0xb8, 0xeb, 0xd0, 0x91,
            0x81, 0xa7,
        ],
    ),
    (
        &[
            1, 2, 3, 4, 5, 6, 7, 8, 9, 10, 11, 12, 13, 14, 15, 16, 17, 18, 19, 20, 21, 22, 23, 24,
            25,
        ],
        &[0xcd; 50],
        [
            0x82, 0x55, 0x8a, 0x38, 0x9a, 0x44, 0x3c, 0x0e, 0xa4, 0xcc, 0x81, 0x98, 0x99, 0xf2,
            0x08, 0x3a,
        ],
    ),
    (
        &[0x0c; 20],
        b"Test With Truncation",
        [
            0xa3, 0xb6, 0x16, 0x74, 0x73, 0x10, 0x0e, 0xe0, 0x6e, 0x0c, 0x79, 0x6c, 0x29, 0x55,
            0x55, 0x2b,
        ],
    ),
];

/// The key of these bytes, filled up with zeros.
fn filled_up(bytes: &[u8]) -> RunKey {
    let mut key = [0; 64];
    let many = bytes.len().min(64);
    key[..many].copy_from_slice(&bytes[..many]);
    RunKey::new(key)
}

/// Whether a datagram of this message has this code, and is opened with this key alone, and only as long as no byte of
/// it is another.
fn is_sealed(bytes: &[u8], message: &[u8], code: &[u8]) -> bool {
    let key = filled_up(bytes);
    let mut room = [0; 80];
    let Some(many) = key.seal(message, &mut room) else {
        return false;
    };
    let is_own = room[..many].ends_with(code) && room[..many].starts_with(message);
    let opens = key.open(&room[..many]) == Some(message.len());
    let is_foreign = filled_up(b"another").open(&room[..many]).is_none();
    room[many / 2] ^= 1;
    is_own && opens && is_foreign && key.open(&room[..many]).is_none()
}

#[test]
fn codes(rt: HostRuntime) {
    for (key, message, code) in CODES {
        assert!(rt; is_sealed(key, message, &code), "{}", message.len());
    }
}

/// A source that has no random bytes.
struct NoRandom;

impl RandomSource for NoRandom {
    fn fill_bytes(&self, _buf: &mut [u8]) -> io::Result<()> {
        Err(io::Error::from(io::ErrorKind::Unsupported))
    }
}

#[test]
fn keys_are_drawn(rt: HostRuntime) -> Result<(), Fail> {
    let mut room = [0; 20];
    let (one, other) = (RunKey::draw(&rt)?, RunKey::draw(&rt)?);
    let Some(many) = one.seal(&[1, 2], &mut room) else {
        return Err(Fail::new("it doesn't fit"));
    };
    assert!(rt; one.open(&room[..many]) == Some(2) && other.open(&room[..many]).is_none());
    assert!(rt; one.seal(&[1, 2, 3, 4, 5], &mut room).is_none());
    assert!(rt; RunKey::draw(&NoRandom).is_err());
    Ok(())
}

/// A source of which each byte is this one.
struct EachByteIs(u8);

impl RandomSource for EachByteIs {
    fn fill_bytes(&self, buf: &mut [u8]) -> io::Result<()> {
        buf.fill(self.0);
        Ok(())
    }
}

/// All bytes of a key are drawn.
#[test]
fn keys_are_drawn_whole(rt: HostRuntime) -> Result<(), Fail> {
    let mut room = [0; 20];
    let drawn = RunKey::draw(&EachByteIs(7))?;
    let Some(many) = drawn.seal(&[1, 2], &mut room) else {
        return Err(Fail::new("it doesn't fit"));
    };
    assert!(rt; RunKey::new([7; 64]).open(&room[..many]) == Some(2));
    Ok(())
}

/// Sends its datagrams to the other site.
fn send_all<L: Link, R: Wait>(rt: &R, link: &mut L, to: u8) -> Result<(), LinkFault> {
    for number in 0..SENT {
        link.send(rt, to, &[99, 111, number])?;
    }
    Ok(())
}

/// How many datagrams came that are the other's next.
fn hear_all<L: Link, R: Wait>(rt: &R, link: &mut L) -> u8 {
    let mut buffer = [0; 8];
    let mut came = 0;
    for _ in 0..TURNS {
        if link.receive(rt, &mut buffer) == Ok(Some(3)) && buffer[..3] == [99, 111, came] {
            came = came.saturating_add(1);
        }
        if came == SENT {
            break;
        }
    }
    came
}

/// Sends all, hears all, and answers how many came.
fn talk<L: Link, R: Wait>(rt: &R, mut link: L, to: u8) -> u8 {
    match send_all(rt, &mut link, to) {
        Ok(()) => hear_all(rt, &mut link),
        Err(LinkFault) => 0,
    }
}

/// Both talk at once, each by a twin of its link; whether all came to both.
fn both_hear<L: Link + Send, R: Threads + Wait + Sync>(rt: &R, one: L, other: L) -> bool {
    let heard = thread::join(rt, move || talk(rt, one, 1), move || talk(rt, other, 0));
    heard == (SENT, SENT)
}

/// A key, of this byte.
fn key(byte: u8) -> RunKey {
    RunKey::new([byte; 64])
}

/// The sockets of two sites in a run with this key.
fn two_sockets<R: Net>(rt: &R, alloc: Global, key: RunKey) -> Result<Arc<Sockets, Global>, Fail> {
    let mut sockets = Vec::new(alloc);
    sockets.push(bound(rt)?)?;
    sockets.push(bound(rt)?)?;
    Ok(Arc::new(alloc, Sockets::new(alloc, sockets, key)?)?)
}

/// The ends of two sites with sockets.
fn sockets<R: Net>(rt: &R, alloc: Global) -> Result<(UdpLink, UdpLink), Fail> {
    let sockets = two_sockets(rt, alloc, key(1))?;
    let first = UdpLink::new(Arc::try_clone(&sockets)?, 0);
    Ok((first, UdpLink::new(sockets, 1)))
}

/// The ends of two sites in memory.
fn wires(alloc: Global) -> Result<(MemoryLink, MemoryLink), Fail> {
    let wires = Arc::new(alloc, Wires::new(alloc, 2)?)?;
    let copy = Arc::try_clone(&wires)?;
    Ok((MemoryLink::new(wires, 0), MemoryLink::new(copy, 1)))
}

#[test]
fn over_sockets(rt: HostRuntime) -> Result<(), Fail> {
    let (one, other) = sockets(&rt, rt.alloc())?;
    let (first, second) = (one.twin()?, other.twin()?);
    assert!(rt; both_hear(&rt, first, second));
    Ok(())
}

#[test]
fn in_memory(rt: HostRuntime) -> Result<(), Fail> {
    let (one, other) = wires(rt.alloc())?;
    let (first, second) = (one.twin()?, other.twin()?);
    assert!(rt; both_hear(&rt, first, second));
    Ok(())
}

/// Whether a send to a site without an address counts as a failure of its own link, and not of a twin.
fn fails_once<L: Link, R: Wait>(rt: &R, mut link: L) -> Result<bool, Fail> {
    let sent = link.send(rt, 2, &[1]);
    let twin = link.twin()?;
    Ok(sent == Err(LinkFault) && link.failures() == 1 && twin.failures() == 0)
}

#[test]
fn a_site_that_is_not_there(rt: HostRuntime) -> Result<(), Fail> {
    let (socket, _) = sockets(&rt, rt.alloc())?;
    let (wire, _) = wires(rt.alloc())?;
    assert!(rt; fails_once(&rt, socket)?);
    assert!(rt; fails_once(&rt, wire)?);
    Ok(())
}

/// Of a datagram that is longer than the buffer so much comes as fits.
fn is_cut<L: Link, R: Wait>(rt: &R, mut one: L, mut other: L) -> bool {
    let mut buffer = [0; 2];
    let sent = one.send(rt, 1, &[7, 8, 9]);
    let came = other.receive(rt, &mut buffer);
    sent == Ok(()) && came == Ok(Some(2)) && buffer == [7, 8]
}

#[test]
fn a_datagram_that_is_too_long(rt: HostRuntime) -> Result<(), Fail> {
    let (one, other) = sockets(&rt, rt.alloc())?;
    assert!(rt; is_cut(&rt, one, other));
    let (one, other) = wires(rt.alloc())?;
    assert!(rt; is_cut(&rt, one, other));
    Ok(())
}

/// Sends a site these bytes from a socket that is none of the run's.
fn send_as_stranger<R: Net>(rt: &R, sockets: &Sockets, bytes: &[u8]) -> Result<(), Fail> {
    let Some(address) = sockets.address(0) else {
        return Err(Fail::new("a site has no socket"));
    };
    bound(rt)?.send_to(bytes, address)?;
    Ok(())
}

/// The longest datagram that a link carries, and one that is longer.
static LONGEST: [(usize, bool); 2] = [(2_096, true), (2_097, false)];

#[test]
fn the_longest_datagram(rt: HostRuntime) -> Result<(), Fail> {
    let (mut one, mut other) = sockets(&rt, rt.alloc())?;
    for (length, is_carried) in LONGEST {
        let mut buffer = [0; 3_000];
        let sent = one.send(&rt, 1, &buffer[..length]);
        assert!(rt; sent.is_ok() == is_carried, "{length}");
        let came = other.receive(&rt, &mut buffer);
        let expected = if is_carried { Some(length) } else { None };
        assert!(rt; came == Ok(expected), "{length}");
    }
    Ok(())
}

/// Whether the first site hears these bytes of a stranger as a datagram of no bytes, and the next of the other site as
/// ever.
fn is_strange<R: Net + Wait>(
    rt: &R,
    sockets: &Arc<Sockets, Global>,
    bytes: &[u8],
) -> Result<bool, Fail> {
    let mut one = UdpLink::new(Arc::try_clone(sockets)?, 0);
    let mut other = UdpLink::new(Arc::try_clone(sockets)?, 1);
    let mut buffer = [0; 8];
    send_as_stranger(rt, sockets, bytes)?;
    let sent = other.send(rt, 0, &[1, 2]);
    let first = one.receive(rt, &mut buffer);
    let second = one.receive(rt, &mut buffer);
    Ok(sent == Ok(()) && first == Ok(Some(0)) && second == Ok(Some(2)) && one.failures() == 0)
}

/// Nothing, bytes that are shorter than a code, and bytes with a code of zeros.
static STRANGE: [&[u8]; 3] = [
    &[],
    &[7, 8, 9],
    &[7, 8, 9, 0, 0, 0, 0, 0, 0, 0, 0, 0, 0, 0, 0, 0, 0, 0, 0],
];

#[test]
fn a_stranger_is_not_heard(rt: HostRuntime) -> Result<(), Fail> {
    let sockets = two_sockets(&rt, rt.alloc(), key(1))?;
    for bytes in STRANGE {
        assert!(rt; is_strange(&rt, &sockets, bytes)?, "{}", bytes.len());
    }
    Ok(())
}

/// A datagram of a run with another key.
fn overheard(alloc: Global) -> Result<Vec<u8>, Fail> {
    let mut room = [0; 64];
    match key(2).seal(&[7, 8, 9], &mut room) {
        Some(many) => Ok(Vec::from_slice(alloc, &room[..many])?),
        None => Err(Fail::new("it doesn't fit")),
    }
}

#[test]
fn another_runs_datagram_is_not_heard(rt: HostRuntime) -> Result<(), Fail> {
    let datagram = overheard(rt.alloc())?;
    let sockets = two_sockets(&rt, rt.alloc(), key(1))?;
    assert!(rt; is_strange(&rt, &sockets, &datagram)?);
    let sockets = two_sockets(&rt, rt.alloc(), key(2))?;
    assert!(rt; !is_strange(&rt, &sockets, &datagram)?);
    Ok(())
}

/// How many milliseconds a hundred receives take that bring nothing.
fn waits<L: Link, R: Wait + Clock>(rt: &R, link: &mut L) -> Result<u128, Fail> {
    let mut buffer = [0; 8];
    let began = Instant::now(rt)?;
    for _ in 0..100 {
        let _ = link.receive(rt, &mut buffer);
    }
    Ok(began.elapsed(rt)?.as_millis())
}

/// How often it is tried: a machine that does other things may hold a try up.
const TRIES: u32 = 5;

/// A hundred receives that bring nothing take four milliseconds each at least.
#[test]
fn receives_wait(rt: HostRuntime) -> Result<(), Fail> {
    let (mut link, _) = sockets(&rt, rt.alloc())?;
    let millis = waits(&rt, &mut link)?;
    assert!(rt; millis >= 300, "{millis} milliseconds");
    Ok(())
}

/// Receives that wait take 400 milliseconds at least.
#[test]
fn hastened_receives_do_not_wait(rt: HostRuntime) -> Result<(), Fail> {
    let (mut link, _) = sockets(&rt, rt.alloc())?;
    link.hasten();
    let mut least = u128::MAX;
    for _ in 0..TRIES {
        least = least.min(waits(&rt, &mut link)?);
    }
    assert!(rt; least < 200, "{least} milliseconds");
    Ok(())
}

/// The sockets of the registry and sixteen nodes.
fn many_sockets<R: Net>(rt: &R, alloc: Global) -> Result<Arc<Sockets, Global>, Fail> {
    let mut sockets = Vec::new(alloc);
    for _ in 0..17 {
        sockets.push(bound(rt)?)?;
    }
    Ok(Arc::new(alloc, Sockets::new(alloc, sockets, key(1))?)?)
}

#[test]
fn each_of_sixteen_nodes_is_reached(rt: HostRuntime) -> Result<(), Fail> {
    let sockets = many_sockets(&rt, rt.alloc())?;
    let mut registry = UdpLink::new(Arc::try_clone(&sockets)?, 0);
    let mut buffer = [0; 8];
    for node in 1..17 {
        let mut link = UdpLink::new(Arc::try_clone(&sockets)?, node);
        assert_eq!(rt; registry.send(&rt, node, &[node]), Ok(()));
        assert_eq!(rt; link.receive(&rt, &mut buffer), Ok(Some(1)));
        assert_eq!(rt; buffer[0], node);
    }
    Ok(())
}
