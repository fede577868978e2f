//! Links between the sites of one host: datagrams over sockets on 127.0.0.1, or in memory. It knows nothing of what
//! they carry.
#![tactic(auto)]

mod link;
mod memory_link;
mod udp_link;

pub use link::{Link, LinkFault};
pub use memory_link::{MemoryLink, Wires};
pub use udp_link::{LONGEST_DATAGRAM, Sockets, UdpLink, bound};
