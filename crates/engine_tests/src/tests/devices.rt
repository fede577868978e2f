//! What is written where devices fail or memory runs out.
//!
//! Of the bugs of `search_engines` that are kept outside the gate, `a_writer_that_fails_at_each_byte` finds
//! `failed_write_is_returned_as_memory`.

use super::run_output::RunOutput;
use super::texts::LETTERS;
use dlx_reader::{CountedReader, CountedWriter};
use search_engines::{
    EngineFault, Failure, SearchLimits, Unread, alone_engine, check_engine, check_within, tell,
    tell_fault,
};
use std::alloc::Global;
use std::io;
use std::io::{Read, Write};
use std::process::Abort;
use std::time::Clock;

/// A reader that fails at its second read.
#[derive(Drop)]
struct FailsTwice {
    reads: u8,
}

impl Read for FailsTwice {
    fn read(&mut self, buf: &mut [u8]) -> io::Result<usize> {
        match buf {
            [first, ..] if self.reads == 0 => {
                *first = b'a';
                self.reads = 1;
                Ok(1)
            }
            _ => Err(io::ErrorKind::Other.into()),
        }
    }
}

/// A writer that takes nothing.
#[derive(Drop)]
struct Closed;

impl Write for Closed {
    fn write(&mut self, _buf: &[u8]) -> io::Result<usize> {
        Err(io::ErrorKind::BrokenPipe.into())
    }

    fn flush(&mut self) -> io::Result<()> {
        Ok(())
    }
}

/// Reports a fault and returns what is written, with the status.
fn fault_output(alloc: Global, fault: &EngineFault) -> RunOutput {
    let mut errors = Vec::new(alloc);
    let status = tell_fault(fault, &mut CountedWriter::new(&mut errors));
    RunOutput {
        out: Vec::new(alloc),
        errors,
        status,
    }
}

/// Whether a reader that fails after so many reads is reported, and no answer is written.
fn reports_a_reader<R: Abort>(rt: &R, alloc: Global, reads: u8) -> bool {
    let mut out = Vec::new(alloc);
    let mut source = CountedReader::new(FailsTwice { reads });
    let ended = alone_engine(alloc, 1, &mut source, &mut CountedWriter::new(&mut out));
    let fault = ended.err().expect(rt, "a failing reader");
    out.is_empty() && fault_output(alloc, &fault).is("", "cannot read\n", 3)
}

#[test]
fn failing_readers(rt: HostRuntime) {
    for reads in [0u8, 1] {
        assert!(rt; reports_a_reader(&rt, rt.alloc(), reads));
    }
}

#[test]
fn a_closed_writer(rt: HostRuntime) {
    let mut source = CountedReader::new(b"a\n".as_slice());
    let ended = alone_engine(rt.alloc(), 1, &mut source, &mut CountedWriter::new(Closed));
    let fault = ended.err().expect(&rt, "a closed writer");
    assert!(rt; fault_output(rt.alloc(), &fault).is("", "cannot write\n", 3));
}

/// A writer that takes one byte a call, so many times, and then fails.
#[derive(Drop)]
struct ByteByByte {
    taken: Vec<u8>,
    left: usize,
}

impl Write for ByteByByte {
    fn write(&mut self, buf: &[u8]) -> io::Result<usize> {
        match buf {
            [first, ..] if self.left > 0 && self.taken.push(*first).is_ok() => {
                self.left = self.left.saturating_sub(1);
                Ok(1)
            }
            _ => Err(io::ErrorKind::BrokenPipe.into()),
        }
    }

    fn flush(&mut self) -> io::Result<()> {
        Ok(())
    }
}

/// The answer to the problem of the letters.
static COVER: &[u8] = b"cover 3\nc e\na d f\nb g\n";

/// Whether all before this call of the writer is written, and the fault is returned, or status 0 where the answer has
/// no more bytes.
fn writes_until(alloc: Global, call: usize) -> bool {
    let mut writer = ByteByByte {
        taken: Vec::new(alloc),
        left: call.saturating_sub(1),
    };
    let mut source = CountedReader::new(LETTERS.as_bytes());
    let ended = alone_engine(
        alloc,
        u64::MAX,
        &mut source,
        &mut CountedWriter::new(&mut writer),
    );
    let is_right = match ended {
        Err(EngineFault::Write) => call <= COVER.len(),
        Ok(end) => call > COVER.len() && end.status == 0,
        Err(_) => false,
    };
    is_right && COVER.get(..call.saturating_sub(1)) == Some(writer.taken.as_slice())
}

#[test]
fn a_writer_that_fails_at_each_byte(rt: HostRuntime) {
    assert_eq!(rt; COVER.len(), 22);
    for call in 1..24 {
        assert!(rt; writes_until(rt.alloc(), call), "call {call}");
    }
}

#[test]
fn want_of_memory(rt: HostRuntime) {
    assert!(rt; fault_output(rt.alloc(), &EngineFault::Memory).is("", "out of memory\n", 5));
}

/// Whether the fault is that of an answer that can't be read, where the file would be refused too, and nothing is
/// written.
fn is_unreadable(alloc: Global) -> bool {
    let mut out = Vec::new(alloc);
    let mut file = CountedReader::new(b"a a\n".as_slice());
    let mut answer = CountedReader::new(FailsTwice { reads: 0 });
    let mut sink = CountedWriter::new(&mut out);
    let ended = check_engine(alloc, 1, &mut file, &mut answer, &mut sink);
    matches!(ended, Err(EngineFault::Read)) && out.is_empty()
}

/// It comes before a file that is refused, since both are read before either is tested.
#[test]
fn unreadable_answer(rt: HostRuntime) {
    assert!(rt; is_unreadable(rt.alloc()));
}

/// A reader that has no bytes, or fails at its first read.
#[derive(Drop)]
struct Empty {
    fails: bool,
}

impl Read for Empty {
    fn read(&mut self, _buf: &mut [u8]) -> io::Result<usize> {
        if self.fails {
            Err(io::ErrorKind::Other.into())
        } else {
            Ok(0)
        }
    }
}

/// Whether the problem's file can't be read, and the answer's, each with which is said to be unreadable.
static UNREAD: [(bool, bool, Option<Unread>); 4] = [
    (false, false, None),
    (false, true, Some(Unread::Answer)),
    (true, false, Some(Unread::File)),
    // (the problem's is read first)
    (true, true, Some(Unread::File)),
];

/// Which input `check` within limits can't read.
fn unread_input<C: Clock>(clock: &C, alloc: Global, file: bool, answer: bool) -> Option<Unread> {
    let mut out = Vec::new(alloc);
    let mut sink = CountedWriter::new(&mut out);
    let limits = SearchLimits::new(None, None);
    let mut file = CountedReader::new(Empty { fails: file });
    let mut answer = CountedReader::new(Empty { fails: answer });
    match check_within(clock, alloc, &limits, &mut file, &mut answer, &mut sink) {
        Err(Failure::Unread(which)) => Some(which),
        Ok(_) | Err(_) => None,
    }
}

#[test]
fn the_input_that_cannot_be_read_is_said(rt: HostRuntime) {
    for (file, answer, which) in UNREAD.iter() {
        assert!(rt;
            unread_input(&rt, rt.alloc(), *file, *answer) == *which,
            "{file} {answer}"
        );
    }
}

#[test]
fn statuses_stay_where_nothing_can_be_told(rt: HostRuntime) {
    assert!(rt; tell(1, 7, &mut CountedWriter::new(Closed)) == 1);
    assert!(rt; tell_fault(&EngineFault::Memory, &mut CountedWriter::new(Closed)) == 5);
}
