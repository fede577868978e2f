//! Colours, as `alone` and `check` read and write them; the expected values were worked out by hand.

ghost use Rattle.std.specs.Prelude.{◌≤◌};

use super::run_output::{RunOutput, tell_plain};
use dlx_reader::{CountedReader, CountedWriter};
use search_engines::{alone_engine, check_engine};
use std::alloc::Global;

/// The problem of Knuth's DLX2: one cover.
const XCC: &str = "p q r | x y\np q x y:A\np r x:A y\np x:B\nq x:A\nr y:B\n";

/// Two options that give a secondary item one colour, two colours, and a colour and none.
const ONE_COLOUR: &str = "a b | x\na x:1\nb x:1\n";

const TWO_COLOURS: &str = "a b | x\na x:1\nb x:2\n";

const COLOUR_AND_NONE: &str = "a b | x\na x:1\nb x\n";

/// Runs `alone` on a problem and returns what is written.
fn alone(alloc: Global, text: &str, fuel: u64) -> RunOutput
    requires { 1 ≤ fuel }
{
    let mut out = Vec::new(alloc);
    let mut errors = Vec::new(alloc);
    let mut source = CountedReader::new(text.as_bytes());
    let ended = alone_engine(alloc, fuel, &mut source, &mut CountedWriter::new(&mut out));
    let status = tell_plain(&ended, &mut CountedWriter::new(&mut errors));
    RunOutput {
        out,
        errors,
        status,
    }
}

/// Runs `check` on an answer to a problem and returns what is written.
fn check(alloc: Global, text: &str, answer: &str) -> RunOutput {
    let mut out = Vec::new(alloc);
    let mut errors = Vec::new(alloc);
    let mut file = CountedReader::new(text.as_bytes());
    let mut source = CountedReader::new(answer.as_bytes());
    let mut sink = CountedWriter::new(&mut out);
    let ended = check_engine(alloc, 1, &mut file, &mut source, &mut sink);
    let status = tell_plain(&ended, &mut CountedWriter::new(&mut errors));
    RunOutput {
        out,
        errors,
        status,
    }
}

/// Each with the fuel, what is written, and the status.
static ANSWERS: [(&str, u64, &str, u8); 5] = [
    (XCC, u64::MAX, "cover 2\np r x:A y\nq x:A\n", 0),
    (ONE_COLOUR, u64::MAX, "cover 2\na x:1\nb x:1\n", 0),
    (TWO_COLOURS, 2, "none\n", 1),
    (TWO_COLOURS, 1, "no answer\n", 4),
    (COLOUR_AND_NONE, u64::MAX, "none\n", 1),
];

#[test]
fn covers_with_colours(rt: HostRuntime) {
    for (text, fuel, out, status) in ANSWERS.iter() {
        let output = alone(rt.alloc(), text, (*fuel).max(1));
        assert!(rt; output.is(out, "", *status), "{text}");
    }
}

/// Each with an answer, what is written, and the status.
static VERDICTS: [(&str, &str, &str, u8); 5] = [
    (XCC, "cover 2\nq x:A\np r x:A y\n", "right\n", 0),
    (ONE_COLOUR, "cover 2\na x:1\nb x:1\n", "right\n", 0),
    (
        TWO_COLOURS,
        "cover 2\na x:1\nb x:2\n",
        "wrong: CoveredTwice x\n",
        1,
    ),
    (TWO_COLOURS, "cover 1\na x:1\n", "wrong: Uncovered b\n", 1),
    (
        COLOUR_AND_NONE,
        "cover 2\na x:1\nb x\n",
        "wrong: CoveredTwice x\n",
        1,
    ),
];

#[test]
fn answers_with_colours(rt: HostRuntime) {
    for (text, answer, out, status) in VERDICTS.iter() {
        let output = check(rt.alloc(), text, answer);
        assert!(rt; output.is(out, "", *status), "{text}");
    }
}
