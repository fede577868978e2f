//! What looks at a learner: it writes progress, and stops the learner when its time is over.

use crate::learn_progress::LearnProgress;
use dlx_reader::Sink;
use learner::{Figures, LearnerWatch};
use search_engines::{LineStyle, LineTimer, TimeLimit};
use std::time::Clock;

/// A watch that writes now and then how far the learner has come, and stops it once it has lasted as long as it may.
#[derive(Drop)]
pub struct LearnWatch<'a, E: Sink, C: Clock> {
    clock: &'a C,
    /// How long the learner may last; as long as it takes where there is none.
    time: Option<TimeLimit>,
    timer: LineTimer,
    sink: &'a mut E,
    style: LineStyle,
    /// Whether a line was written that `end` may have to finish.
    is_begun: bool,
}

impl<'a, E: Sink, C: Clock> LearnWatch<'a, E, C> {
    /// Returns a watch over a learner that begins now.
    pub fn new(
        clock: &'a C,
        time: Option<TimeLimit>,
        sink: &'a mut E,
        style: LineStyle,
    ) -> LearnWatch<'a, E, C> {
        LearnWatch {
            clock,
            time,
            timer: LineTimer::new(clock),
            sink,
            style,
            is_begun: false,
        }
    }

    /// Writes a line. A fault of the sink is passed over: the answer, not the log, is what the learner is for.
    fn write(&mut self, progress: LearnProgress) {
        let _ = match self.style {
            LineStyle::Listed => writeln!(self.sink, "{progress}"),
            // (what is left of a longer line before is cleared)
            LineStyle::Overwritten => write!(self.sink, "\r{progress} \x1b[K"),
            LineStyle::Silent => return,
        };
        self.is_begun = true;
    }

    /// Ends the last line, so that what follows is on one of its own. A listed line has its end already.
    pub fn end(&mut self) {
        if self.is_begun && self.style == LineStyle::Overwritten {
            let _ = writeln!(self.sink, "");
        }
        self.is_begun = false;
    }
}

impl<'a, E: Sink, C: Clock> LearnerWatch for LearnWatch<'a, E, C> {
    fn look(&mut self, figures: &Figures) -> bool {
        if let Some(seconds) = self.timer.due(self.clock, self.style) {
            self.write(LearnProgress {
                seconds,
                figures: *figures,
            });
        }
        match &self.time {
            Some(time) => time.is_over(self.clock),
            None => false,
        }
    }
}
