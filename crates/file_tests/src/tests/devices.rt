//! Readers and writers that fail, end or are interrupted, and what is counted of them.

use dlx_reader::{CountedReader, CountedWriter, Sink, Source, write_bytes};
use std::io;
use std::io::Write;

/// A writer that takes nothing.
#[derive(Drop)]
struct Full;

impl Write for Full {
    fn write(&mut self, _buf: &[u8]) -> io::Result<usize> {
        Ok(0)
    }

    fn flush(&mut self) -> io::Result<()> {
        Ok(())
    }
}

/// A reader that only fails.
#[derive(Drop)]
struct Broken;

impl io::Read for Broken {
    fn read(&mut self, _buf: &mut [u8]) -> io::Result<usize> {
        Err(io::ErrorKind::Other.into())
    }
}

#[test]
fn failed_writes_are_counted(rt: HostRuntime) {
    let mut full = CountedWriter::new(Full);
    assert!(rt; write_bytes(b"", &mut full).is_ok() && full.failures() == 0);
    assert!(rt; write_bytes(b"none\n", &mut full).is_err() && full.failures() == 1);
}

#[test]
fn failed_reads_are_counted(rt: HostRuntime) {
    let mut broken = CountedReader::new(Broken);
    assert!(rt; broken.fetch(&mut [0; 4]).is_err() && broken.failures() == 1);
}

/// Whether five bytes are read in two pieces, and then none.
fn is_read_to_its_end() -> bool {
    let mut buffer = [0; 4];
    let mut source = CountedReader::new(b"none\n".as_slice());
    source.fetch(&mut buffer) == Ok(4)
        && buffer == *b"none"
        && source.fetch(&mut buffer) == Ok(1)
        && source.fetch(&mut buffer) == Ok(0)
        && source.failures() == 0
}

#[test]
fn a_source_is_read_to_its_end(rt: HostRuntime) {
    assert!(rt; is_read_to_its_end());
}

/// A device of which so many calls are interrupted; then it gives or takes one byte at a time.
#[derive(Drop)]
struct Interrupted {
    left: u8,
}

impl Interrupted {
    /// One call, which may be interrupted.
    fn call(&mut self) -> io::Result<()> {
        if self.left == 0 {
            return Ok(());
        }
        self.left -= 1;
        Err(io::ErrorKind::Interrupted.into())
    }
}

impl io::Read for Interrupted {
    fn read(&mut self, buf: &mut [u8]) -> io::Result<usize> {
        self.call()?;
        match buf {
            [first, ..] => {
                *first = b'a';
                Ok(1)
            }
            [] => Ok(0),
        }
    }
}

impl Write for Interrupted {
    fn write(&mut self, buf: &[u8]) -> io::Result<usize> {
        self.call()?;
        Ok(buf.len().min(1))
    }

    fn flush(&mut self) -> io::Result<()> {
        Ok(())
    }
}

/// Whether a byte is read after so many interruptions, and no failure is counted.
fn is_read_after(left: u8) -> bool {
    let mut buffer = [0; 4];
    let mut source = CountedReader::new(Interrupted { left });
    source.fetch(&mut buffer) == Ok(1) && buffer == *b"a\0\0\0" && source.failures() == 0
}

/// Whether a byte is written after so many interruptions, and no failure is counted.
fn is_written_after(left: u8) -> bool {
    let mut sink = CountedWriter::new(Interrupted { left });
    sink.put(b"none") == Ok(1) && sink.failures() == 0
}

#[test]
fn interrupted_calls_are_tried_again(rt: HostRuntime) {
    for left in [0u8, 1, 200] {
        assert!(rt; is_read_after(left) && is_written_after(left));
    }
}
