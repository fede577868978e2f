//! The lines of a certificate, as they wait to be written.

use cover_problem::Problem;
use dlx_reader::Sink;
use itoa::Buffer;
use std::alloc::{AllocError, Global};
use std::io;

/// So many bytes wait to be written together. Chosen, not measured.
const MOST_WAITING: usize = 1 << 16;

/// Returns the two lines at the head: what is shown, by which kind of lines, and how large the problem is. The only
/// error is out of memory.
pub(crate) fn head_of(
    alloc: Global,
    kind: &[u8],
    problem: &Problem,
) -> Result<Vec<u8>, AllocError> {
    let mut text = Vec::from_slice(alloc, b"none\n")?;
    text.extend_from_slice(kind)?;
    text.push(b' ')?;
    push_number(&mut text, problem.items() as u64)?;
    text.push(b' ')?;
    push_number(&mut text, problem.options() as u64)?;
    text.push(b'\n')?;
    Ok(text)
}

/// Adds a number to a text.
#[inline(always)]
pub(crate) fn push_number(text: &mut Vec<u8>, number: u64) -> Result<(), AllocError> {
    let mut digits = Buffer::new();
    text.extend_from_slice(digits.format(number).as_bytes())
}

/// Writes the lines that wait, if they are many.
#[inline(always)]
pub(crate) fn send_if_many<W: Sink>(text: &mut Vec<u8>, sink: &mut W) -> io::Result<()> {
    if text.len() < MOST_WAITING {
        return Ok(());
    }
    send(text, sink)
}

/// Writes the lines that wait.
pub(crate) fn send<W: Sink>(text: &mut Vec<u8>, sink: &mut W) -> io::Result<()> {
    sink.write_all(text.as_slice())?;
    text.clear();
    Ok(())
}
