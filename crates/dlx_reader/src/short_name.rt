//! A name that a fault carries.

ghost use Rattle.std.specs.Prelude.{◌≡◌, ◌≤◌, length};
ghost use Rattle.cover_problem.specs.declared.limits.TheConstants.{MOST_BYTES};

use cover_problem::MOST_BYTES;

/// A name of an item or of a colour, as a value that needs no memory: it has 32 bytes at most.
#[derive(Clone, Copy, Debug)]
pub struct ShortName {
    /// The name, and zeros behind it.
    bytes: [u8; MOST_BYTES],
    /// How many bytes the name has.
    len: usize,
    ghost within: { len ≤ MOST_BYTES },
}

impl ShortName {
    ghost use Rattle.dlx_reader.specs.Unknown.{short_bytes};

    /// Returns a copy of this name.
    pub fn of(name: &[u8]) -> ShortName
        requires { length name.now ≤ MOST_BYTES }
        ensures { short_bytes result ≡ name.now }
    {
        let mut bytes = [0; MOST_BYTES];
        bytes[..name.len()].copy_from_slice(name);
        ShortName {
            bytes,
            len: name.len(),
        }
    }

    /// Returns the bytes of the name.
    pub fn as_slice(&self) -> &[u8]
        ensures { result.now ≡ short_bytes self.now }
    {
        &self.bytes[..self.len]
    }
}
