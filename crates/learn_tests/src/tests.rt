//! `learn` over texts in memory, each with one cover or none; the expected values were worked out by hand.

mod answers;
mod causes;
mod memory;

use dlx_reader::{CountedReader, CountedWriter};
use learn_engine::{LearnProgress, learn_engine};
use learner::{Figures, LearnerWatch, Settings};
use search_engines::{InputNames, Unanswered, tell_end};
use std::alloc::Global;

/// Seven items and six options, of which 3, 4 and 0 are the one exact cover.
const LETTERS: &str = "a b c d e f g\nc e\na d g\nb c f\na d f\nb g\nd e g\n";

/// The same without the last but one, so that there is no cover.
const NO_COVER: &str = "a b c d e f g\nc e\na d g\nb c f\na d f\nd e g\n";

/// What is written to both outputs, and the status.
#[derive(Drop)]
struct RunOutput {
    out: Vec<u8>,
    errors: Vec<u8>,
    status: u8,
}

impl RunOutput {
    /// Whether it is this.
    fn is(&self, out: &str, errors: &str, status: u8) -> bool {
        self.out.as_slice() == out.as_bytes()
            && self.errors.as_slice() == errors.as_bytes()
            && self.status == status
    }
}

/// The name of the file that an engine reads.
const NAMES: InputNames<'static> = InputNames {
    file: "p.dlx",
    answer: None,
};

/// A watch that stops a learner at its first look, or at none.
#[derive(Drop)]
struct Watch {
    stops: bool,
}

impl LearnerWatch for Watch {
    fn look(&mut self, _figures: &Figures) -> bool {
        self.stops
    }
}

/// Runs `learn` on a problem and returns what is written.
fn learn(alloc: Global, text: &str, stops: bool) -> RunOutput {
    let mut out = Vec::new(alloc);
    let mut errors = Vec::new(alloc);
    let mut source = CountedReader::new(text.as_bytes());
    let mut sink = CountedWriter::new(&mut out);
    let settings = Settings::new();
    let ended = learn_engine(
        alloc,
        settings,
        &mut source,
        &mut sink,
        &mut Watch { stops },
    );
    let status = tell_end(&ended, NAMES, &mut CountedWriter::new(&mut errors));
    RunOutput {
        out,
        errors,
        status,
    }
}

/// Each with whether the watch stops it, what is written to both outputs, and the status.
static ANSWERS: [(&str, bool, &str, &str, u8); 8] = [
    (LETTERS, false, "cover 3\nc e\na d f\nb g\n", "", 0),
    (LETTERS, true, "no answer\n", "", 4),
    (NO_COVER, false, "none\n", "", 1),
    ("a b | x\na x\nb x\n", false, "none\n", "", 1),
    ("a b | x\na x\nb x\nb\n", false, "cover 2\na x\nb\n", "", 0),
    ("a | x\nx\na", false, "cover 1\na\n", "ignored 1\n", 0),
    ("a |x\n", false, "none\n", "", 1),
    ("a ||x\n", false, "", "refused: IllegalByte line 1\n", 3),
];

#[test]
fn learn_writes_answers(rt: HostRuntime) {
    for (text, stops, out, errors, status) in ANSWERS.iter() {
        let written = learn(rt.alloc(), text, *stops);
        assert!(rt; written.is(out, errors, *status), "{text}");
    }
}

/// Why a learner with so much room for its clauses ends without an answer, if it does.
fn learning_ends(alloc: Global, text: &str, memory: u64, stops: bool) -> Option<Unanswered> {
    let mut out = Vec::new(alloc);
    let mut source = CountedReader::new(text.as_bytes());
    let mut sink = CountedWriter::new(&mut out);
    let settings = Settings {
        memory,
        ..Settings::new()
    };
    let mut watch = Watch { stops };
    learn_engine(alloc, settings, &mut source, &mut sink, &mut watch)
        .ok()?
        .why
}

#[test]
fn what_ended_a_learner_is_said(rt: HostRuntime) {
    let (alloc, most) = (rt.alloc(), Settings::new().memory);
    assert!(rt; learning_ends(alloc, NO_COVER, most, false).is_none());
    assert!(rt; learning_ends(alloc, LETTERS, most, false).is_none());
    assert!(rt; learning_ends(alloc, LETTERS, most, true) == Some(Unanswered::Time));
    assert!(rt; learning_ends(alloc, LETTERS, 0, false) == Some(Unanswered::Room));
    // (room for the problem itself comes before the first look)
    assert!(rt; learning_ends(alloc, LETTERS, 0, true) == Some(Unanswered::Room));
}

#[test]
fn a_line_of_progress(rt: HostRuntime) {
    let progress = LearnProgress {
        seconds: 12,
        figures: Figures {
            conflicts: 3400,
            decisions: 9000,
            restarts: 17,
            clauses: 1200,
        },
    };
    let line = format!(in rt.alloc(); "{progress}").expect(&rt, "memory");
    assert!(rt; line.as_str() == "12 s: 3400 conflicts, 1200 clauses, 17 restarts");
}
