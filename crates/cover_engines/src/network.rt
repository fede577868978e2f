//! Where a run gets its links.

ghost use Rattle.std.specs.Prelude.{◌≡◌, ◌+◌, vec_len, IfErr, IfOk};

use crate::sockets::links;
use run_key::RunKey;
use std::alloc::{AllocError, Global};
use std::io::{self, ErrorKind};
use std::net::Net;
use std::random::RandomSource;
use udp_node::{Link, UdpLink};

/// Why a run has no links.
#[derive(Clone, Copy, Debug, PartialEq, Eq)]
pub enum NetworkFault {
    /// The system gives no random bytes, so the run has no key.
    NoKey,
    /// The system gives no sockets.
    NoSockets,
    /// Memory ran out.
    Memory,
}

impl From<AllocError> for NetworkFault {
    fn from(_fault: AllocError) -> NetworkFault {
        NetworkFault::Memory
    }
}

impl From<io::Error> for NetworkFault {
    fn from(fault: io::Error) -> NetworkFault {
        match fault.kind() {
            ErrorKind::OutOfMemory => NetworkFault::Memory,
            _ => NetworkFault::NoSockets,
        }
    }
}

/// What gives the sites of a run their links.
pub trait Network: Drop {
    ghost use Rattle.std.specs.Prelude.{ℕ};
    ghost use Rattle.cover_engines.specs.declared.network.NetworkFault.{NetworkFault};

    /// It has refused the links of so many nodes for this reason. Only a call of `links` shows it.
    ghost has_refused: { Self → ℕ → NetworkFault → Type 0 };

    /// The endpoint of one site.
    type End: Link + Send;

    /// The endpoints of the registry and of so many nodes, the registry's first.
    fn links(&self, alloc: Global, nodes: u8) -> Result<Vec<Self::End>, NetworkFault>
        ensures many { IfOk result (λ links. vec_len links ≡ nodes + 1) }
        ensures refused { IfErr result (λ fault. has_refused self.now nodes fault) };
}

/// Sockets on 127.0.0.1, one for each site, in a run that has a key of its own.
#[derive(Drop)]
pub struct Loopback<'a, R: Net, S: RandomSource> {
    /// Where the sockets come from.
    pub rt: &'a R,
    /// Where the key comes from.
    pub random: &'a S,
}

impl<R: Net, S: RandomSource> Network for Loopback<'_, R, S> {
    ghost has_refused = { λ _ _ _. Unit {0} };

    type End = UdpLink;

    fn links(&self, alloc: Global, nodes: u8) -> Result<Vec<UdpLink>, NetworkFault> {
        let Ok(key) = RunKey::draw(self.random) else {
            return Err(NetworkFault::NoKey);
        };
        Ok(links(self.rt, alloc, nodes, key)?)
    }
}
