//! Certificates that are written while a learner learns.
//!
//! Of the bugs of `certificate_writer` that are kept outside the gate, `what_a_learner_writes_is_right` finds
//! `places_are_written_as_numbers`.

use super::{AGREED, COLOURS, IDLE, PAIRS, ROOM};
use certificate_writer::{CertifyingWatch, ClauseWriter};
use cover_certificates::{Checked, check_certificate};
use dlx_reader::{CountedWriter, read_problem};
use learner::{Figures, Found, LearnerWatch, Settings, find_cover};
use std::alloc::Global;
use std::io;
use std::io::{ErrorKind, Write};

/// Items any two of which are an option, an odd number of them.
pub(crate) const SEVEN: &str =
    "a b c d e f g\na b\na c\na d\na e\na f\na g\nb c\nb d\nb e\nb f\nb g\nc d\nc e\nc f\nc g\nd e\nd f\nd g\ne f\ne g\nf g\n";

/// A watch that looks on.
#[derive(Drop)]
struct LooksOn;

impl LearnerWatch for LooksOn {
    fn look(&mut self, _figures: &Figures) -> bool {
        false
    }
}

/// A writer that takes so many bytes.
#[derive(Drop)]
pub(crate) struct Narrow<'a> {
    pub(crate) text: &'a mut Vec<u8>,
    pub(crate) room: usize,
}

impl<'a> Write for Narrow<'a> {
    fn write(&mut self, buf: &[u8]) -> io::Result<usize> {
        if buf.len() > self.room {
            return Err(ErrorKind::StorageFull.into());
        }
        self.text.extend_from_slice(buf)?;
        self.room -= buf.len();
        Ok(buf.len())
    }

    fn flush(&mut self) -> io::Result<()> {
        Ok(())
    }
}

/// Learns from a problem, and writes to the text what a writer takes that has so much room. Returns what was found,
/// whether all was written, and what the test of the text comes to; none if memory is refused or the problem is.
fn learn(
    alloc: Global,
    problem: &str,
    room: usize,
    text: &mut Vec<u8>,
) -> Option<(Found, bool, Checked)> {
    let read = read_problem(alloc, problem.as_bytes()).ok()?;
    let (found, is_whole) = {
        let sink = CountedWriter::new(Narrow {
            text: &mut *text,
            room,
        });
        let writer = ClauseWriter::new(alloc, &read.problem, sink).ok()?;
        let mut watch = CertifyingWatch {
            watch: LooksOn,
            writer,
        };
        let (found, _) = find_cover(alloc, &read.problem, Settings::new(), &mut watch).ok()?;
        (found, watch.writer.end())
    };
    let checked = check_certificate(alloc, &read.problem, text).ok()?;
    Some((found, is_whole, checked))
}

#[test]
fn what_a_learner_writes_is_right(rt: HostRuntime) {
    for problem in [PAIRS, ROOM, COLOURS, IDLE, SEVEN].iter() {
        let mut text = Vec::new(rt.alloc());
        let came = learn(rt.alloc(), problem, usize::MAX, &mut text);
        let is_right = matches!(came, Some((Found::NoCover, true, Checked::Right)));
        assert!(rt; is_right, "{problem}");
    }
}

#[test]
fn what_is_cut_off_or_has_a_cover_is_no_certificate(rt: HostRuntime) {
    let mut text = Vec::new(rt.alloc());
    let came = learn(rt.alloc(), SEVEN, 40, &mut text);
    assert!(rt; matches!(came, Some((Found::NoCover, false, Checked::Wrong(_, _)))));
    let mut text = Vec::new(rt.alloc());
    let came = learn(rt.alloc(), AGREED, usize::MAX, &mut text);
    assert!(rt; matches!(came, Some((Found::Cover(_), true, Checked::Wrong(_, _)))));
}
