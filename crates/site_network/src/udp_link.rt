//! Sockets on 127.0.0.1.

ghost use Rattle.std.specs.Prelude.{◌≡◌, ◌≤◌, ℕ, length, IfOk};
ghost use Rattle.site_network.specs.Links.{failed_once};

use crate::link::{Link, LinkFault};
use run_key::{CODE, RunKey};
use std::alloc::{AllocError, Global};
use std::io::{self, ErrorKind};
use std::net::{Ipv4Addr, Net, SocketAddr, SocketAddrV4, UdpSocket};
use std::sync::{Arc, Wait};
use std::time::Duration;

/// How long a receive waits at most, in milliseconds: by the system's tick it may be twice as long. Chosen, not
/// measured.
const PATIENCE: u64 = 4;

/// How many bytes a datagram has at most, without its code: one more than the longest packet has, as `node_tests` tests.
/// A longer one fails to be sent, and would be lost.
pub const LONGEST_DATAGRAM: usize = 2_096;

/// A socket on 127.0.0.1 with a port of the system's choice, whose receives wait 4 to 8 milliseconds at most, by the
/// system's clock. The errors are the system's.
pub fn bound<R: Net>(rt: &R) -> io::Result<UdpSocket> {
    let here = SocketAddrV4::new(Ipv4Addr::LOCALHOST, 0);
    let socket = UdpSocket::bind(rt, SocketAddr::V4(here))?;
    socket.set_read_timeout(Some(Duration::from_millis(PATIENCE)))?;
    // (without a loopback device it is bound all the same, and only a send fails)
    socket.send_to(&[], socket.local_addr()?)?;
    // (should it come later, it is a stranger's)
    let _ = socket.recv_from(&mut []);
    Ok(socket)
}

/// The sockets of all sites of a run, their addresses, and the key by which they know one another's datagrams.
#[derive(Drop)]
pub struct Sockets {
    /// By node.
    sockets: Vec<UdpSocket>,
    /// By node, too.
    addresses: Vec<SocketAddr>,
    key: RunKey,
}

impl Sockets {
    /// These sockets, by node, in a run with this key. The errors are the system's, and `OutOfMemory`.
    pub fn new(alloc: Global, sockets: Vec<UdpSocket>, key: RunKey) -> io::Result<Sockets> {
        let addresses = addresses_of(alloc, &sockets)?;
        Ok(Sockets {
            sockets,
            addresses,
            key,
        })
    }

    /// The address of a node's site.
    pub fn address(&self, node: u8) -> Option<SocketAddr> {
        self.addresses.get(usize::from(node)).copied()
    }
}

/// The addresses of these sockets, in their order.
fn addresses_of(alloc: Global, sockets: &[UdpSocket]) -> io::Result<Vec<SocketAddr>> {
    let mut addresses = Vec::with_capacity(alloc, sockets.len())?;
    for socket in sockets {
        addresses.push(socket.local_addr()?)?;
    }
    Ok(addresses)
}

/// The endpoint of a site that has a socket; its twins have the same one. Behind each datagram that it sends it puts the
/// code of the run's key, and of what comes it hears only what has the right one: any other datagram is a stranger's,
/// and comes as one without bytes.
#[derive(Drop)]
pub struct UdpLink {
    sockets: Arc<Sockets, Global>,
    node: u8,
    failures: u64,
}

impl UdpLink {
    /// The endpoint of the site of this node, among these sockets. Where it has none there, each of its calls fails.
    pub fn new(sockets: Arc<Sockets, Global>, node: u8) -> UdpLink
        ensures { result.failures ≡ 0 }
    {
        UdpLink {
            sockets,
            node,
            failures: 0,
        }
    }

    /// Its socket.
    fn socket(&self) -> Option<&UdpSocket> {
        self.sockets.sockets.get(usize::from(self.node))
    }

    /// Sends a datagram with its code, and returns whether the system took it whole.
    fn send_sealed(&self, to: u8, bytes: &[u8]) -> bool {
        let mut room = [0; LONGEST_DATAGRAM + CODE];
        let sealed = self.sockets.key.seal(bytes, &mut room);
        match (self.socket(), self.sockets.address(to), sealed) {
            (Some(socket), Some(address), Some(many)) =>
                matches!(socket.send_to(&room[..many], address), Ok(sent) if sent == many),
            _ => false,
        }
    }

    /// Receives a datagram, and returns how many of its bytes are in the buffer, none of them where a stranger sent it.
    /// The errors are the system's.
    fn received(&self, into: &mut [u8]) -> io::Result<usize>
        ensures fits { IfOk result (λ bytes. bytes ≤ length into.old) }
        ensures whole { length into.new ≡ length into.old }
    {
        let Some(socket) = self.socket() else {
            return Err(io::Error::from(ErrorKind::NotConnected));
        };
        // (a longer datagram is cut off, so its code is wrong)
        let mut datagram = [0; LONGEST_DATAGRAM + CODE];
        let (came, _) = socket.recv_from(&mut datagram)?;
        let own = self.sockets.key.open(&datagram[..came]).unwrap_or(0);
        let bytes = own.min(into.len());
        into[..bytes].copy_from_slice(&datagram[..bytes]);
        Ok(bytes)
    }

    /// Counts a failure.
    fn fail(&mut self) -> LinkFault
        ensures { self.new.failures ≡ failed_once self.old.failures }
    {
        self.failures = self.failures.saturating_add(1);
        LinkFault
    }
}

impl Link for UdpLink {
    ghost failed = { λ l. l.failures };

    fn failures(&self) -> u64 {
        self.failures
    }

    fn send<R: Wait>(&mut self, _rt: &R, to: u8, bytes: &[u8]) -> Result<(), LinkFault> {
        if self.send_sealed(to, bytes) {
            return Ok(());
        }
        Err(self.fail())
    }

    fn receive<R: Wait>(&mut self, _rt: &R, into: &mut [u8]) -> Result<Option<usize>, LinkFault> {
        match self.received(into) {
            Ok(bytes) => Ok(Some(bytes)),
            Err(error) => match error.kind() {
                // (a receive that timed out is either of the first two, by the system; a signal only ends the wait
                // sooner)
                ErrorKind::WouldBlock | ErrorKind::TimedOut | ErrorKind::Interrupted => Ok(None),
                _ => Err(self.fail()),
            },
        }
    }

    /// Its socket, which its twins have too, doesn't block any more. (Where the system refuses that, empty receives
    /// take longer.)
    fn hasten(&mut self) {
        if let Some(socket) = self.socket() {
            let _ = socket.set_nonblocking(true);
        }
    }

    fn twin(&self) -> Result<UdpLink, AllocError> {
        Ok(UdpLink::new(Arc::try_clone(&self.sockets)?, self.node))
    }
}
