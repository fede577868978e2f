//! The call that the program makes, where it has no answer to write: over links that forge, that lose all, or that
//! aren't there.
//!
//! Of the bugs of `cover_engines` that are kept outside the gate, `a_limit_is_counted_in_seconds` finds `no_limit` and
//! `seconds_are_milliseconds`.

ghost use Rattle.std.specs.Prelude.{◌≡◌, ◌+◌, ◌≤◌, ℕ, length, vec_len, IfErr, IfOk, IfSome};
ghost use Rattle.site_network.specs.Links.{failed_once};

use super::{NOTHING, ROWS, settings, solve_over};
use cover_engines::{Loopback, Network, NetworkFault, links};
use packet_wire::{Body, Packet, is_well_formed, write_packet};
use run_key::RunKey;
use run_settings::Request;
use spawn_frame::Site;
use std::alloc::{AllocError, Global};
use std::io::{self, ErrorKind};
use std::net::Net;
use std::random::RandomSource;
use std::sync::Wait;
use std::test::Fail;
use std::thread::Threads;
use std::time::{Clock, Instant};
use udp_node::{Link, LinkFault, UdpLink};

/// What is wrong with all links of a run.
#[derive(Clone, Copy, Debug, PartialEq, Eq)]
enum Wrong {
    /// The first receive of each node brings a packet of the registry that was never sent. A node has the root's Give
    /// from a later receive, so where there is an answer some node's book has such a packet, whichever node it was.
    Forging,
    /// All that is sent is lost.
    Mute,
}

/// A link with which something is wrong.
#[derive(Drop)]
struct Odd {
    inner: UdpLink,
    alloc: Global,
    node: u8,
    wrong: Wrong,
    has_received: bool,
}

/// The packet by which the registry says to this node that there is no work, though it was not asked. None for the
/// registry, or where memory runs out.
fn forged(alloc: Global, node: u8) -> Option<Vec<u8>> {
    let packet = Packet {
        from: Site {
            node: 0,
            incarnation: 1,
        },
        to: Site {
            node,
            incarnation: 1,
        },
        body: Body::NoWork,
    };
    if !is_well_formed(&packet) {
        return None;
    }
    let mut bytes = Vec::new(alloc);
    write_packet(alloc, &packet, &mut bytes).ok()?;
    Some(bytes)
}

impl Odd {
    /// Whether a packet is forged at this receive.
    fn forges(&mut self) -> bool
        ensures { self.new.inner ≡ self.old.inner }
    {
        let is_first = !self.has_received;
        self.has_received = true;
        is_first && self.wrong == Wrong::Forging
    }
}

impl Link for Odd {
    ghost failed = { λ l. l.inner.failures };

    fn failures(&self) -> u64 {
        self.inner.failures()
    }

    fn send<R: Wait>(&mut self, rt: &R, to: u8, bytes: &[u8]) -> Result<(), LinkFault> {
        if self.wrong == Wrong::Mute {
            return Ok(());
        }
        self.inner.send(rt, to, bytes)
    }

    fn receive<R: Wait>(&mut self, rt: &R, into: &mut [u8]) -> Result<Option<usize>, LinkFault> {
        if self.forges()
            && let Some(bytes) = forged(self.alloc, self.node)
        {
            let count = bytes.len().min(into.len());
            into[..count].copy_from_slice(&bytes[..count]);
            return Ok(Some(count));
        }
        self.inner.receive(rt, into)
    }

    fn twin(&self) -> Result<Odd, AllocError> {
        Ok(Odd {
            inner: self.inner.twin()?,
            alloc: self.alloc,
            node: self.node,
            wrong: self.wrong,
            has_received: self.has_received,
        })
    }
}

/// Sockets with which something is wrong.
#[derive(Drop)]
struct OddNetwork<'a, R: Net> {
    rt: &'a R,
    wrong: Wrong,
}

impl<R: Net> Network for OddNetwork<'_, R> {
    type End = Odd;

    ghost has_refused = { λ _ _ _. Unit {0} };

    fn links(&self, alloc: Global, nodes: u8) -> Result<Vec<Odd>, NetworkFault> {
        let mut all = Vec::new(alloc);
        for inner in links(self.rt, alloc, nodes, RunKey::new([7; 64]))? {
            let node = all.len().min(16) as u8;
            let odd = Odd {
                inner,
                alloc,
                node,
                wrong: self.wrong,
                has_received: false,
            };
            if all.push(odd).is_err() {
                return Err(NetworkFault::Memory);
            }
        }
        Ok(all)
    }
}

/// No links, for this reason.
#[derive(Drop)]
struct NoNetwork(NetworkFault);

impl Network for NoNetwork {
    ghost has_refused = { λ _ _ _. Unit {0} };

    type End = UdpLink;

    fn links(&self, _alloc: Global, _nodes: u8) -> Result<Vec<UdpLink>, NetworkFault> {
        Err(self.0)
    }
}

/// A source that has no random bytes.
#[derive(Drop)]
struct NoRandom;

impl RandomSource for NoRandom {
    fn fill_bytes(&self, _buf: &mut [u8]) -> io::Result<()> {
        Err(io::Error::from(ErrorKind::Unsupported))
    }
}

/// A request with the settings that the command line has by default, and an audit or none.
fn request(audit: bool) -> Request<'static> {
    Request {
        settings: settings(1, 1_000_000, 0, audit),
        seconds: None,
        megabytes: None,
        progress: false,
        unlimited: false,
        threads: None,
        reason: false,
        certificate: None,
    }
}

/// Whether an answer was written or that there is none, and behind it that a packet was never sent.
fn is_unclean(out: &[u8]) -> bool {
    let line = b"audit unclean: NeverSent node ";
    [ROWS[0].1, NOTHING.0].iter().any(|answer| {
        match out.split_at_checked(answer.len()) {
            Some((front, behind)) => front == answer.as_bytes() && behind.starts_with(line),
            None => false,
        }
    })
}

#[test]
fn a_forged_packet_makes_an_audit_unclean(rt: HostRuntime) -> Result<(), Fail> {
    let wrong = Wrong::Forging;
    let network = OddNetwork { rt: &rt, wrong };
    let solved = solve_over(&rt, rt.alloc(), network, ROWS[0].0, &request(true));
    assert_eq!(rt; solved.status, 6);
    assert!(rt; is_unclean(&solved.out));
    Ok(())
}

/// How many seconds a run of one may last on a machine that does other things, too. Without its limit it lasts 24 at
/// least.
const LATEST: u64 = 15;

#[test]
fn a_limit_is_counted_in_seconds(rt: HostRuntime) -> Result<(), Fail> {
    let request = Request {
        settings: settings(1, 1_000_000, 0, false),
        seconds: Some(1),
        megabytes: None,
        progress: true,
        unlimited: false,
        threads: None,
        reason: false,
        certificate: None,
    };
    let wrong = Wrong::Mute;
    let began = Instant::now(&rt)?;
    let network = OddNetwork { rt: &rt, wrong };
    let solved = solve_over(&rt, rt.alloc(), network, ROWS[0].0, &request);
    let lasted = began.elapsed(&rt)?;
    assert_eq!(rt; solved.status, 4);
    assert!(rt; solved.out.as_slice() == NOTHING.0.as_bytes());
    assert!(rt;
        solved.errors.as_slice() == b"ended: the time is over: try more --seconds\n".as_slice()
    );
    assert!(rt; 1 <= lasted.as_secs() && lasted.as_secs() < LATEST);
    Ok(())
}

/// Why there are no links, and the status and line.
static UNLINKED: [(NetworkFault, u8, &str); 3] = [
    (NetworkFault::NoSockets, 3, "cannot bind\n"),
    (
        NetworkFault::NoKey,
        3,
        "cannot draw a key: the system gives no random bytes\n",
    ),
    (NetworkFault::Memory, 5, "out of memory\n"),
];

#[test]
fn no_links_and_no_run(rt: HostRuntime) {
    for (fault, status, line) in UNLINKED {
        let network = NoNetwork(fault);
        let solved = solve_over(&rt, rt.alloc(), network, ROWS[0].0, &request(false));
        assert!(rt; solved.status == status && solved.out.is_empty(), "{line}");
        assert!(rt; solved.errors.as_slice() == line.as_bytes(), "{line}");
    }
}

#[test]
fn no_key_and_no_run(rt: HostRuntime) {
    let network = Loopback {
        rt: &rt,
        random: &NoRandom,
    };
    let solved = solve_over(&rt, rt.alloc(), network, ROWS[0].0, &request(false));
    assert!(rt; solved.status == 3 && solved.out.is_empty());
    assert!(rt; solved.errors.as_slice() == UNLINKED[1].2.as_bytes());
}

/// Texts, with what is written to the output, what to the errors, and the status.
static TEXTS: [(&str, &str, &str, u8); 2] = [
    ("a a\n", "", "refused: DuplicateItem line 1\n", 3),
    ("a | x\nx\na\n", "cover 1\na\n", "ignored 1\n", 0),
];

#[test]
fn what_is_told_beside_the_answer(rt: HostRuntime) {
    for (text, out, errors, status) in TEXTS.iter() {
        let network = Loopback {
            rt: &rt,
            random: &rt,
        };
        let solved = solve_over(&rt, rt.alloc(), network, text, &request(false));
        assert!(rt; solved.out.as_slice() == out.as_bytes(), "{text}");
        assert!(rt; solved.errors.as_slice() == errors.as_bytes(), "{text}");
        assert!(rt; solved.status == *status, "{text}");
    }
}
