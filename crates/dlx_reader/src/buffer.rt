//! Bytes that wait to be written together.

ghost use Rattle.std.specs.Prelude.{◌≡◌, ◌<◌, ◌≤◌, ◌+◌, [], ◌∷◌, ◌++◌, length};

use std::marker::Model;

/// The greatest number of bytes that wait: one page of memory, chosen and not measured.
const MOST: usize = 4096;

/// Bytes that wait to be written, at most 4,096. They take no memory of an allocator.
#[derive(Drop)]
pub struct Buffer {
    // (an array and no list, so that an answer can be written when memory has run out)
    bytes: [u8; MOST],
    length: usize,
}

impl Model for Buffer {
    ghost use Rattle.std.specs.Prelude.{ℕ, List, take, ◌≤◌};

    ghost Value = { List ℕ };

    ghost view = { λ w. take w.length w.bytes };

    ghost invariant = { λ w. w.length ≤ 4096 };
}

impl Buffer {
    /// No bytes.
    pub fn new() -> Buffer
        ensures { result ≡ [] }
    {
        Buffer {
            bytes: [0; MOST],
            length: 0,
        }
    }

    /// For how many more bytes there is room.
    pub fn room(&self) -> usize
        ensures { result + length self.now ≡ 4096 }
    {
        MOST - self.length
    }

    /// Adds a byte.
    fn push_byte(&mut self, byte: u8)
        requires { length self.old < 4096 }
        ensures { self.new ≡ self.old ++ byte ∷ [] }
    {
        self.bytes[self.length] = byte;
        self.length += 1;
    }

    /// Adds bytes, for which there is room.
    pub fn push(&mut self, bytes: &[u8])
        requires { length self.old + length bytes.now ≤ 4096 }
        ensures { self.new ≡ self.old ++ bytes.now }
    {
        for byte in bytes {
            self.push_byte(*byte);
        }
    }

    /// The bytes in their order.
    pub fn as_slice(&self) -> &[u8]
        ensures { result.now ≡ self.now }
    {
        &self.bytes[..self.length]
    }

    /// Takes all bytes away.
    pub fn clear(&mut self)
        ensures { self.new ≡ [] }
    {
        self.length = 0;
    }
}
