//! A link that loses datagrams, repeats them and holds them back.

ghost use Rattle.std.specs.Prelude.{◌≡◌, ℕ, ◌≤◌, length, IfOk, IfSome};

use rand_core::SeedableRng;
use rand_core::utils::NextWord;
use rand_pcg::Pcg32;
use std::alloc::{AllocError, Global};
use std::sync::Wait;
use udp_node::{Link, LinkFault};

/// How many receives late a datagram comes at most that is held back.
const LATEST: u32 = 20;

/// A datagram that comes after so many receives more.
#[derive(Drop)]
struct Late {
    bytes: Vec<u8>,
    receives: u32,
}

/// A link which by chance loses what comes, repeats it, and lets later datagrams come before it. What its seed draws is
/// the same in each run.
#[derive(Drop)]
pub struct Wild<L: Link> {
    inner: L,
    alloc: Global,
    seed: u64,
    rng: Pcg32,
    late: Vec<Late>,
}

impl<L: Link> Wild<L> {
    /// A link that passes on what comes by this one.
    pub fn new(alloc: Global, inner: L, seed: u64) -> Wild<L>
        ensures { result.inner ≡ inner }
    {
        Wild {
            inner,
            alloc,
            seed,
            rng: Pcg32::seed_from_u64(seed),
            late: Vec::new(alloc),
        }
    }

    /// Draws whether something happens that happens so often in ten times.
    fn happens(&mut self, in_ten: u32) -> bool
        ensures { self.new.inner ≡ self.old.inner }
    {
        self.rng.next_word() % 10 < in_ten
    }

    /// A datagram came: three in ten are lost, and of the others two in ten come twice.
    fn hear(&mut self, bytes: &[u8])
        ensures { self.new.inner ≡ self.old.inner }
    {
        if self.happens(3) {
            return;
        }
        self.hold(bytes);
        if self.happens(2) {
            self.hold(bytes);
        }
    }

    /// Keeps a copy of a datagram for a later receive, in five of ten times, or for this one. It is lost where memory
    /// runs out.
    fn hold(&mut self, bytes: &[u8])
        ensures { self.new.inner ≡ self.old.inner }
    {
        let receives = if self.happens(5) {
            1 + self.rng.next_word() % LATEST
        } else {
            0
        };
        if let Ok(bytes) = Vec::from_slice(self.alloc, bytes) {
            let _ = self.late.push(Late { bytes, receives });
        }
    }

    /// The first datagram that is to come now; those that are held back are one receive nearer.
    fn due(&mut self) -> Option<Vec<u8>>
        ensures { self.new.inner ≡ self.old.inner }
    {
        let at = self.late.iter().position(|late| late.receives == 0);
        for late in &mut self.late {
            late.receives = late.receives.saturating_sub(1);
        }
        let at = at?;
        if at >= self.late.len() {
            return None;
        }
        Some(self.late.remove(at).bytes)
    }
}

impl<L: Link> Link for Wild<L> {
    ghost failed = { λ w. L.failed w.inner };

    fn failures(&self) -> u64 {
        self.inner.failures()
    }

    fn send<R: Wait>(&mut self, rt: &R, to: u8, bytes: &[u8]) -> Result<(), LinkFault> {
        self.inner.send(rt, to, bytes)
    }

    fn receive<R: Wait>(&mut self, rt: &R, into: &mut [u8]) -> Result<Option<usize>, LinkFault> {
        if let Some(bytes) = self.inner.receive(rt, into)? {
            self.hear(&into[..bytes]);
        }
        let Some(datagram) = self.due() else {
            return Ok(None);
        };
        let bytes = datagram.len().min(into.len());
        into[..bytes].copy_from_slice(&datagram[..bytes]);
        Ok(Some(bytes))
    }

    fn hasten(&mut self) {
        self.inner.hasten();
    }

    fn twin(&self) -> Result<Wild<L>, AllocError> {
        Ok(Wild::new(self.alloc, self.inner.twin()?, self.seed))
    }
}
