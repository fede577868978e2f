//! Readers and writers that count their failures.

ghost use Rattle.std.specs.Prelude.{◌≡◌, ◌<◌, ◌≤◌, ℕ, length, IfOk};
ghost use Rattle.std.specs.Io.KnownBytes.{ReadConsumes, WriteAppends};
ghost use Rattle.dlx_reader.specs.Devices.{IsCounted};

use std::io;
use std::io::{ErrorKind, Read, Write};

/// A device failed, and its count of failures rose.
#[derive(Clone, Copy, Debug, PartialEq, Eq)]
pub struct DeviceFault;

/// A reader that counts its failures. It is read by `fetch` alone, whose contract ties a fault to the count.
pub trait Source: io::Read {
    ghost failed: { Self → ℕ };

    /// How often the reader has failed so far. The count stops at the greatest number.
    fn failures(&self) -> u64
        ensures { result ≡ failed self.now };

    /// One read into the buffer. It answers the number of bytes read, which is 0 only at the end or where the
    /// buffer is empty.
    ///
    /// A fault comes only where the read failed: then nothing was read, and `failures` counts one more.
    fn fetch(&mut self, buffer: &mut [u8]) -> Result<usize, DeviceFault>
        ensures bound { IfOk result (λ count. count ≤ length buffer.new) }
        ensures bytes { ReadConsumes (Self.remaining self.old)
            (Self.remaining self.new) result buffer.new }
        ensures failed { IsCounted (failed self.old) (failed self.new) result };
}

/// A writer that counts its failures. It is written by `put` alone, whose contract ties a fault to the count.
pub trait Sink: io::Write {
    ghost failed: { Self → ℕ };

    /// How often the writer has failed so far. The count stops at the greatest number.
    fn failures(&self) -> u64
        ensures { result ≡ failed self.now };

    /// One write. It answers how many bytes of the piece it took, which is at least one unless the piece is empty.
    ///
    /// A fault comes only where the write failed, or took nothing of a piece that isn't empty: then nothing was
    /// written, and `failures` counts one more.
    fn put(&mut self, piece: &[u8]) -> Result<usize, DeviceFault>
        ensures bound { IfOk result (λ count. count ≤ length piece.now) }
        ensures some { IfOk result (λ count. 0 < length piece.now → 0 < count) }
        ensures bytes { WriteAppends (Self.contents self.old)
            (Self.contents self.new) result piece.now }
        ensures failed { IsCounted (failed self.old) (failed self.new) result };
}

/// One read into the buffer, tried again where it was interrupted.
fn read_again<R: Read>(reader: &mut R, buffer: &mut [u8]) -> io::Result<usize>
    ensures bound { IfOk result (λ count. count ≤ length buffer.new) }
    ensures bytes { ReadConsumes (R.remaining reader.old)
        (R.remaining reader.new) result buffer.new }
{
    // (a bound that no device reaches: each loop has to end)
    for _ in 0..u64::MAX {
        match reader.read(buffer) {
            Err(error) if error.kind() == ErrorKind::Interrupted => {}
            read => return read,
        }
    }
    Err(ErrorKind::Interrupted.into())
}

/// One write of a piece, tried again where it was interrupted.
fn write_again<W: Write>(writer: &mut W, piece: &[u8]) -> io::Result<usize>
    ensures bound { IfOk result (λ count. count ≤ length piece.now) }
    ensures bytes { WriteAppends (W.contents writer.old) (W.contents writer.new) result piece.now }
{
    for _ in 0..u64::MAX {
        match writer.write(piece) {
            Err(error) if error.kind() == ErrorKind::Interrupted => {}
            written => return written,
        }
    }
    Err(ErrorKind::Interrupted.into())
}

/// A reader, with the number of its failures. A read that was interrupted is tried again, and is no failure.
#[derive(Drop)]
pub struct CountedReader<R> {
    inner: R,
    // (contracts of the standard library say nothing of failures; with the count a fault is tied to one)
    failures: u64,
}

impl<R: Read> CountedReader<R> {
    /// The reader, which hasn't failed so far.
    pub fn new(inner: R) -> Self
        ensures { result ≡ record { inner = inner; failures = 0 } }
    {
        CountedReader { inner, failures: 0 }
    }
}

impl<R: Read> Read for CountedReader<R> {
    ghost remaining = { λ s. R.remaining s.inner };

    fn read(&mut self, buf: &mut [u8]) -> io::Result<usize> {
        self.inner.read(buf)
    }
}

impl<R: Read> Source for CountedReader<R> {
    ghost failed = { λ s. s.failures };

    fn failures(&self) -> u64 {
        self.failures
    }

    fn fetch(&mut self, buffer: &mut [u8]) -> Result<usize, DeviceFault> {
        match read_again(&mut self.inner, buffer) {
            Ok(count) => Ok(count),
            Err(_) => {
                self.failures = self.failures.saturating_add(1);
                Err(DeviceFault)
            }
        }
    }
}

/// A writer, with the number of its failures. A write that was interrupted is tried again, and is no failure.
#[derive(Drop)]
pub struct CountedWriter<W> {
    inner: W,
    failures: u64,
}

impl<W: Write> CountedWriter<W> {
    /// The writer, which hasn't failed so far.
    pub fn new(inner: W) -> Self
        ensures { result ≡ record { inner = inner; failures = 0 } }
    {
        CountedWriter { inner, failures: 0 }
    }
}

impl<W: Write> Write for CountedWriter<W> {
    ghost contents = { λ s. W.contents s.inner };

    fn write(&mut self, buf: &[u8]) -> io::Result<usize> {
        self.inner.write(buf)
    }

    fn flush(&mut self) -> io::Result<()> {
        self.inner.flush()
    }
}

impl<W: Write> Sink for CountedWriter<W> {
    ghost failed = { λ s. s.failures };

    fn failures(&self) -> u64 {
        self.failures
    }

    fn put(&mut self, piece: &[u8]) -> Result<usize, DeviceFault> {
        match write_again(&mut self.inner, piece) {
            Ok(count) if count > 0 || piece.is_empty() => Ok(count),
            // (nothing taken is a failure, too: a caller that writes until all is taken would else go on for ever)
            _ => {
                self.failures = self.failures.saturating_add(1);
                Err(DeviceFault)
            }
        }
    }
}
