//! HMAC (RFC 2104) by SHA-256 (FIPS 180-4), cut to its first 16 bytes: a message authentication code behind each
//! datagram.
//!
//! It keeps out other processes of the host, which may send to any port. It doesn't hide anything, and a datagram that
//! is sent again by somebody who has seen it is taken for a repeat, which the protocol allows.
//!
//! The two hashers that have taken in the key are kept and copied, as RFC 2104 proposes (section 4), so a packet costs
//! its own blocks and one for the outer hash. Codes are compared without an early end, so that the time says nothing.

ghost use Rattle.std.specs.Prelude.{◌≡◌, ◌+◌, ◌<◌, ◌≤◌, ◌↔◌, List, ℕ, Some, length, take, IfSome, IsTrue, MatchOption};
ghost use Rattle.sha2.specs.Hashers.{Holds256};
ghost use Rattle.run_key.specs.Codes.{code, padded, sealed};
ghost use Rattle.run_key.specs.Facts.{holds_prop};

use sha2::{Digest, Sha256};
use std::alloc::AllocError;
use std::io;
use std::random::RandomSource;

/// How many bytes a key has: as many as a block of SHA-256 (RFC 2104), so that it needs no filling up.
pub const KEY: usize = 64;

/// How many bytes a datagram's code has: half of the hash, the least to which RFC 2104 says that it may be cut.
pub const CODE: usize = 16;

/// What each byte of the key is changed by before the bytes are hashed, and before their hash is: `ipad` and `opad` of
/// RFC 2104.
const INNER: u8 = 0x36;

const OUTER: u8 = 0x5c;

/// A run's key. Only its sites know it: it is never written or sent.
#[derive(Drop)]
pub struct RunKey {
    bytes: [u8; 64],
    /// Hashers that have taken in the changed key, so that a datagram costs its own blocks alone.
    inner: Sha256,
    outer: Sha256,
    ghost inner_holds: { Holds256 inner (padded 54 bytes) } by { holds_prop inner (padded 54 bytes) },
    ghost outer_holds: { Holds256 outer (padded 92 bytes) } by { holds_prop outer (padded 92 bytes) },
}

impl RunKey {
    /// The key of these bytes.
    pub fn new(bytes: [u8; 64]) -> RunKey
        ensures { result.bytes ≡ bytes }
    {
        let inner = Sha256::new_with_prefix(changed(&bytes, INNER));
        let outer = Sha256::new_with_prefix(changed(&bytes, OUTER));
        RunKey {
            bytes,
            inner,
            outer,
        }
    }

    /// A key that nobody can foresee, from the system's source of random bytes. The errors are the system's.
    pub fn draw<R: RandomSource>(source: &R) -> io::Result<RunKey> {
        let mut bytes = [0; KEY];
        source.fill_bytes(&mut bytes)?;
        Ok(RunKey::new(bytes))
    }

    /// Writes the datagram of these bytes, which is they and their code, to the front of the room, and returns its
    /// length. There is none where it doesn't fit.
    pub fn seal(&self, bytes: &[u8], room: &mut [u8]) -> Option<usize>
        ensures sealed { MatchOption result (length room.old < length bytes.now + 16)
            (λ many. take many room.new ≡ sealed self.now.bytes bytes.now) }
        ensures fits { IfSome result (λ many. many ≤ length room.new) }
    {
        let many = bytes.len().checked_add(CODE)?;
        if room.len() < many {
            return None;
        }
        room[..bytes.len()].copy_from_slice(bytes);
        room[bytes.len()..many].copy_from_slice(&self.code(bytes));
        Some(many)
    }

    /// Returns how many bytes at the front of a datagram were sealed by this key. There are none where its code is
    /// wrong.
    pub fn open(&self, datagram: &[u8]) -> Option<usize>
        ensures sealed { IfSome result (λ many. datagram.now ≡ sealed self.now.bytes (take many datagram.now)) }
        ensures opens { (bytes : List ℕ) → datagram.now ≡ sealed self.now.bytes bytes → result ≡ Some (length bytes) }
    {
        let many = datagram.len().checked_sub(CODE)?;
        let (bytes, behind) = datagram.split_at(many);
        if is_same(&self.code(bytes), behind) {
            Some(many)
        } else {
            None
        }
    }

    /// The code of these bytes.
    fn code(&self, bytes: &[u8]) -> [u8; 16]
        ensures { result ≡ code self.now.bytes bytes.now }
    {
        let mut inner = copy(&self.inner);
        inner.update(bytes);
        let mut outer = copy(&self.outer);
        outer.update(inner.finalize());
        let whole = outer.finalize();
        let mut code = [0; CODE];
        code.copy_from_slice(&whole[..CODE]);
        code
    }
}

/// A hasher that has taken in the same bytes.
fn copy(hasher: &Sha256) -> Sha256
    ensures { result ≡ hasher.now }
{
    let copied: Result<Sha256, AllocError> = hasher.clone();
    // (a hasher owns no memory, so none can be refused)
    match copied {
        Ok(copy) => copy,
        Err(_) => unreachable!(),
    }
}

/// The key with each byte changed by this one.
fn changed(key: &[u8; 64], by: u8) -> [u8; 64]
    ensures { result ≡ padded by key.now }
{
    let mut changed = [0; KEY];
    for place in 0..KEY {
        changed[place] = key[place] ^ by;
    }
    changed
}

/// Whether two codes are the same. All bytes are looked at, so that the time taken doesn't tell how many are right.
fn is_same(code: &[u8; 16], other: &[u8]) -> bool
    ensures { IsTrue result ↔ (code.now ≡ other.now) }
{
    if other.len() != CODE {
        return false;
    }
    let mut same = true;
    for place in 0..CODE {
        same &= code[place] == other[place];
    }
    same
}
