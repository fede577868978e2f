//! Answers to text.

ghost use Rattle.dlx_reader.specs.Devices.{IsWritten, IsCounted};
ghost use Rattle.dlx_reader.specs.Writing.{cover_text, answer_text, IsWritable};
ghost use Rattle.cover_problem.specs.Prefix.{AreOptions};

use crate::buffer::Buffer;
use crate::cover_text::buffer_cover;
use crate::devices::Sink;
use cover_problem::{Answer, Problem};

/// The writer took no more: its count of failures rose, and a beginning of the text was written.
#[derive(Clone, Copy, Debug, PartialEq, Eq)]
pub struct WriteFault;

/// Writes all of the bytes, by as many writes as it takes.
///
/// A fault comes only where a write failed. Then a beginning of the bytes was written, and not all of them.
pub fn write_bytes<W: Sink>(bytes: &[u8], sink: &mut W) -> Result<(), WriteFault>
    ensures bytes { IsWritten (W.contents sink.old) (W.contents sink.new) bytes.now result }
    ensures failed { IsCounted (W.failed sink.old) (W.failed sink.new) result }
{
    let mut done = 0;
    // (a device may take a part alone; each put takes a byte at least, so this ends)
    while done < bytes.len() {
        match sink.put(&bytes[done..]) {
            Ok(count) => done += count,
            Err(_) => return Err(WriteFault),
        }
    }
    Ok(())
}

/// Writes the text of a cover, many lines by one write.
fn write_cover<W: Sink>(problem: &Problem, options: &[u16], sink: &mut W) -> Result<(), WriteFault>
    requires options { AreOptions problem.now options.now }
    ensures bytes { IsWritten (W.contents sink.old) (W.contents sink.new)
        (cover_text problem.now options.now) result }
    ensures failed { IsCounted (W.failed sink.old) (W.failed sink.new) result }
{
    let mut buffer = Buffer::new();
    buffer_cover(problem, options, &mut buffer, sink)?;
    write_bytes(buffer.as_slice(), sink)
}

/// Writes the text of an answer: the line `cover k` and the lines of the k options, or the line `none`.
///
/// An option's line is the names of its items in its own order, each with a `:` and the name of its colour where it has
/// one, with one space between. Each line ends with byte 10. The options of a cover are asked to ascend. No memory is
/// taken. Lines wait to be written together, up to 4,096 bytes by one write.
///
/// A fault comes only where a write failed. Then a beginning of the text was written, and not all of it.
pub fn write_answer<W: Sink>(
    problem: &Problem,
    answer: &Answer,
    sink: &mut W,
) -> Result<(), WriteFault>
    requires order { IsWritable problem.now answer.now }
    ensures bytes { IsWritten (W.contents sink.old) (W.contents sink.new)
        (answer_text problem.now answer.now) result }
    ensures failed { IsCounted (W.failed sink.old) (W.failed sink.new) result }
{
    match answer {
        Answer::NoCover => write_bytes(b"none\n", sink),
        Answer::Cover(options) => write_cover(problem, options.as_slice(), sink),
    }
}
