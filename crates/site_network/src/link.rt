//! What a site needs of a network is what UDP gives (RFC 768): datagrams that arrive whole, perhaps twice, late, or
//! never. Nothing here acknowledges or orders; the protocol above does. Implementations are sockets, queues in memory,
//! and in tests links that lose and repeat.
//!
//! The count of failures is for contracts: no clause can speak of the network, but each can say how many calls failed.

ghost use Rattle.std.specs.Prelude.{◌≡◌, ◌≤◌, ℕ, length, IfErr, IfOk, IfSome};
ghost use Rattle.site_network.specs.Links.{failed_once};

use std::alloc::AllocError;
use std::sync::Wait;

/// A datagram was not sent, or none could be received.
#[derive(Clone, Copy, Debug, PartialEq, Eq)]
pub struct LinkFault;

/// A site's endpoint in a network of datagrams. What is sent may be lost, come more than once, or in another order.
pub trait Link: Drop {
    ghost failed: { Self → ℕ };

    /// Returns how many calls of this value have failed. The count stops at the greatest number.
    fn failures(&self) -> u64
        ensures { result ≡ failed self.now };

    /// Sends a datagram to the site of a node. Where no fault is returned it may still be lost on its way.
    fn send<R: Wait>(&mut self, rt: &R, to: u8, bytes: &[u8]) -> Result<(), LinkFault>
        ensures ok { IfOk result (λ _. failed self.new ≡ failed self.old) }
        ensures fault { IfErr result (λ _. failed self.new ≡ failed_once (failed self.old)) };

    /// Receives a datagram, and returns how many bytes of it are at the front of the buffer: all of them, or those that
    /// fit, and none of a datagram that is no site's of the run. Returns `None` where none came within some 10
    /// milliseconds.
    fn receive<R: Wait>(&mut self, rt: &R, into: &mut [u8]) -> Result<Option<usize>, LinkFault>
        ensures fits { IfOk result (λ came. IfSome came (λ bytes. bytes ≤ length into.old)) }
        ensures whole { length into.new ≡ length into.old }
        ensures ok { IfOk result (λ _. failed self.new ≡ failed self.old) }
        ensures fault { IfErr result (λ _. failed self.new ≡ failed_once (failed self.old)) };

    /// Makes each later empty receive wait as short a time as it can. A link whose receives don't wait has nothing to
    /// change.
    fn hasten(&mut self)
        ensures { failed self.new ≡ failed self.old }
    {}

    /// Returns a second value on the same endpoint, which has not failed yet.
    ///
    /// # Errors
    ///
    /// The only error is out of memory.
    fn twin(&self) -> Result<Self, AllocError>
    where
        Self: Sized,
        ensures { IfOk result (λ twin. failed twin ≡ 0) };
}
