//! Where the lines of progress are written, and how they follow one another.

use crate::progress::Progress;
use dlx_reader::Sink;

/// How the lines of a search's progress follow one another.
#[derive(Clone, Copy, Debug, PartialEq, Eq)]
pub enum LineStyle {
    /// One below the other.
    Listed,
    /// Each over the one before, as a terminal can show them.
    Overwritten,
    /// There are none: nobody asked how far the search has come.
    Silent,
}

/// Where the progress of a search is written. A fault of the sink is passed over: the answer, not the log, is what the
/// search is for.
#[derive(Drop)]
pub struct ProgressLog<'a, E: Sink> {
    sink: &'a mut E,
    style: LineStyle,
    /// Whether a line was written that `end` may have to finish.
    is_begun: bool,
}

impl<'a, E: Sink> ProgressLog<'a, E> {
    /// Returns a log without a line.
    pub fn new(sink: &'a mut E, style: LineStyle) -> ProgressLog<'a, E> {
        ProgressLog {
            sink,
            style,
            is_begun: false,
        }
    }

    /// Returns how its lines follow one another.
    pub fn style(&self) -> LineStyle {
        self.style
    }

    /// Writes a line.
    pub fn write(&mut self, progress: Progress) {
        let _ = match self.style {
            LineStyle::Listed => writeln!(self.sink, "{progress}"),
            // (what is left of a longer line before is cleared)
            LineStyle::Overwritten => write!(self.sink, "\r{progress} \x1b[K"),
            LineStyle::Silent => return,
        };
        self.is_begun = true;
    }

    /// Writes why the search ended without an answer, on a line of its own.
    pub fn write_reason(&mut self, reason: &str) {
        self.end();
        let _ = writeln!(self.sink, "ended: {reason}");
    }

    /// Writes something of the search on a line of its own, where it is followed.
    pub fn tell(&mut self, words: &str) {
        self.end();
        if self.style != LineStyle::Silent {
            let _ = writeln!(self.sink, "{words}");
        }
    }

    /// Ends the last line, so that what follows is on one of its own. A listed line has its end already.
    pub fn end(&mut self) {
        if self.is_begun && self.style == LineStyle::Overwritten {
            let _ = writeln!(self.sink, "");
        }
        self.is_begun = false;
    }
}
