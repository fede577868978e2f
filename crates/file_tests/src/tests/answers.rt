//! Answers for small problems, each worked out by hand from the rules of the format.

use super::texts::problem_of;
use cover_problem::{Answer, Numbers, Problem, in_file_order};
use dlx_reader::AnswerFault::{BadHead, UnknownOption, WrongCount};
use dlx_reader::*;
use std::alloc::Global;
use std::io;
use std::io::Write;
use std::process::Abort;

/// Options 4 and 6 are equal, and option 7 has the items of option 3 in another order.
pub const FILE: &str = "a b c d e f g\nc e\na d g\nb c f\na d f\nb g\nd e g\nb g\nf d a\n";

/// A text, with its cover or none, or its fault.
pub static ANSWERS: [(&str, Result<Option<&[u16]>, AnswerFault>); 48] = [
    ("cover 3\nc e\na d f\nb g\n", Ok(Some(&[0, 3, 4]))),
    ("cover 3\r\nc e\r\na d f\r\nb g\r\n", Ok(Some(&[0, 3, 4]))),
    (
        "\n \n\tcover\u{b}3\n\nc e\n\u{c}\na  d f\n b g \n\n",
        Ok(Some(&[0, 3, 4])),
    ),
    // The order of the lines, and of a line's names.
    ("cover 00003\nb g\nc e\na d f", Ok(Some(&[4, 0, 3]))),
    ("cover 2\nf d a\na d f\n", Ok(Some(&[7, 3]))),
    ("cover 0\n", Ok(Some(&[]))),
    ("cover 00000", Ok(Some(&[]))),
    // Of equal options the lowest that no earlier line has.
    ("cover 1\nb g\n", Ok(Some(&[4]))),
    ("cover 2\nb g\nb g\n", Ok(Some(&[4, 6]))),
    ("cover 3\nb g\nd e g\nb g\n", Ok(Some(&[4, 5, 6]))),
    ("cover 2\nc e\nb g\n", Ok(Some(&[0, 4]))),
    // No cover.
    ("none\n", Ok(None)),
    ("none", Ok(None)),
    ("\n\r\n none\t\n\n", Ok(None)),
    // No head, or none where it should stand.
    ("", Err(BadHead)),
    ("\n \t\r\n", Err(BadHead)),
    ("| note\nnone\n", Err(BadHead)),
    ("c e\ncover 1\n", Err(BadHead)),
    ("None\n", Err(BadHead)),
    ("none none\n", Err(BadHead)),
    ("none 0\n", Err(BadHead)),
    ("cover\nc e\n", Err(BadHead)),
    ("cover1\nc e\n", Err(BadHead)),
    ("cover 1 1\nc e\n", Err(BadHead)),
    // Six digits, a sign, another byte.
    ("cover 000000\n", Err(BadHead)),
    ("cover 000001\nc e\n", Err(BadHead)),
    ("cover +1\nc e\n", Err(BadHead)),
    ("cover -0\n", Err(BadHead)),
    ("cover 1x\nc e\n", Err(BadHead)),
    ("cover x\nx\n", Err(BadHead)),
    // Lines that aren't blank are counted, whatever they are.
    ("none\nc e\n", Err(WrongCount)),
    ("cover 3\nc e\n", Err(WrongCount)),
    ("cover 2\nx\n", Err(WrongCount)),
    ("cover 1\nc e\na d f\n", Err(WrongCount)),
    ("cover 1\n| note\nc e\n", Err(WrongCount)),
    ("cover 99999\n", Err(WrongCount)),
    ("cover 0\nc e\n", Err(WrongCount)),
    // No option has these names in this order.
    ("cover 1\n| note\n", Err(UnknownOption(2))),
    ("cover 1\ne c\n", Err(UnknownOption(2))),
    ("cover 1\na d\n", Err(UnknownOption(2))),
    ("cover 1\na d f g\n", Err(UnknownOption(2))),
    ("cover 1\nc\0e\n", Err(UnknownOption(2))),
    ("cover 1\nnone\n", Err(UnknownOption(2))),
    ("cover 2\nx\ny\n", Err(UnknownOption(2))),
    ("\ncover 2\n\nc e\n\nx\n", Err(UnknownOption(6))),
    // Each such option is that of an earlier line.
    ("cover 3\nb g\nb g\nb g\n", Err(UnknownOption(4))),
    ("cover 3\nc e\nc e\nb g\n", Err(UnknownOption(3))),
    ("cover 2\nf d a\nf d a\n", Err(UnknownOption(3))),
];

/// Options 0 and 2 are equal; options 1, 3 and 4 have their items, and other colours.
pub const COLOURED_FILE: &str = "a b | x y\na x:A y\na x y:A\na x:A y\na x:AA y\na x y\nb\n";

/// An answer for it, as above.
pub static COLOURED_ANSWERS: [(&str, Result<Option<&[u16]>, AnswerFault>); 17] = [
    ("cover 1\na x:A y\n", Ok(Some(&[0]))),
    ("cover 1\na x y:A\n", Ok(Some(&[1]))),
    ("cover 1\na x:AA y\n", Ok(Some(&[3]))),
    ("cover 2\nb\na x y\n", Ok(Some(&[5, 4]))),
    // Of equal options the lowest that no earlier line has.
    ("cover 2\na x:A y\na x:A y\n", Ok(Some(&[0, 2]))),
    ("cover 3\na x:A y\na x y\na x:A y\n", Ok(Some(&[0, 4, 2]))),
    (
        "cover 3\na x:A y\na x:A y\na x:A y\n",
        Err(UnknownOption(4)),
    ),
    // No option has these items with these colours, in this order.
    ("cover 1\na x:A y:A\n", Err(UnknownOption(2))),
    ("cover 1\nx:A a y\n", Err(UnknownOption(2))),
    ("cover 1\na x:AA y:A\n", Err(UnknownOption(2))),
    // A colour that is none, or on no item.
    ("cover 1\na x:B y\n", Err(UnknownOption(2))),
    ("cover 1\na x: y\n", Err(UnknownOption(2))),
    ("cover 1\na x y:\n", Err(UnknownOption(2))),
    ("cover 1\na x:A:A y\n", Err(UnknownOption(2))),
    ("cover 1\nb:A\n", Err(UnknownOption(2))),
    ("cover 1\nb:\n", Err(UnknownOption(2))),
    ("cover 1\n:A\n", Err(UnknownOption(2))),
];

/// Whether this cover is expected.
fn is_cover(options: &Numbers, expected: Result<Option<&[u16]>, AnswerFault>) -> bool {
    matches!(expected, Ok(Some(cover)) if options.as_slice() == cover)
}

/// Whether a text is read as this.
pub fn is_answer(
    read: &Result<Answer, AnswerFault>,
    expected: Result<Option<&[u16]>, AnswerFault>,
) -> bool {
    match read {
        Ok(Answer::Cover(options)) => is_cover(options, expected),
        Ok(Answer::NoCover) => matches!(expected, Ok(None)),
        Err(fault) => matches!(expected, Err(told) if told == *fault),
    }
}

#[test]
fn answers_are_read_or_refused(rt: HostRuntime) {
    let problem = problem_of(&rt, rt.alloc(), FILE);
    for (text, expected) in ANSWERS.iter() {
        let read = read_answer(rt.alloc(), text.as_bytes(), &problem);
        assert!(rt; is_answer(&read, *expected), "{text:?}");
    }
}

#[test]
fn answers_with_colours_are_read_or_refused(rt: HostRuntime) {
    let problem = problem_of(&rt, rt.alloc(), COLOURED_FILE);
    for (text, expected) in COLOURED_ANSWERS.iter() {
        let read = read_answer(rt.alloc(), text.as_bytes(), &problem);
        assert!(rt; is_answer(&read, *expected), "{text:?}");
    }
}

/// A line so many times, behind a head.
fn repeated<R: Abort>(rt: &R, alloc: Global, head: &str, line: &str, count: u16) -> String {
    let mut text = String::from_str(alloc, head).expect(rt, "memory");
    for _ in 0..count {
        text.push_str(line).expect(rt, "memory");
    }
    text
}

/// Whether a text is read as the cover of the first options, so many.
fn reads_first(alloc: Global, problem: &Problem, text: &str, count: u16) -> bool {
    match &read_answer(alloc, text.as_bytes(), problem) {
        Ok(Answer::Cover(options)) => options.as_slice().iter().copied().eq(0..count),
        _ => false,
    }
}

#[test]
fn long_answers_are_read(rt: HostRuntime) {
    let file = repeated(&rt, rt.alloc(), "a\n", "a\n", 20000);
    let text = repeated(&rt, rt.alloc(), "cover 20000\n", "a\n", 20000);
    let problem = problem_of(&rt, rt.alloc(), file.as_str());
    assert!(rt; reads_first(rt.alloc(), &problem, text.as_str(), 20000));
}

/// A writer that takes one byte a call, until a call fails.
#[derive(Drop)]
struct Narrow {
    bytes: Vec<u8>,
    calls_left: u64,
    failures: u64,
}

impl Write for Narrow {
    fn write(&mut self, _buf: &[u8]) -> io::Result<usize> {
        Err(io::ErrorKind::Unsupported.into())
    }

    fn flush(&mut self) -> io::Result<()> {
        Ok(())
    }
}

impl Sink for Narrow {
    ghost failed = { λ s. s.failures };

    fn failures(&self) -> u64 {
        self.failures
    }

    fn put(&mut self, piece: &[u8]) -> Result<usize, DeviceFault> {
        let [byte, ..] = piece else {
            return Ok(0);
        };
        if self.calls_left > 0 && self.bytes.push(*byte).is_ok() {
            self.calls_left -= 1;
            return Ok(1);
        }
        self.failures = self.failures.saturating_add(1);
        Err(DeviceFault)
    }
}

/// Whether a cover of these options is written to such a writer.
fn is_written<R: Abort>(
    rt: &R,
    alloc: Global,
    (problem, options): (&Problem, &[u16]),
    sink: &mut Narrow,
) -> bool {
    let cover = Numbers::from_vec(Vec::from_slice(alloc, options).expect(rt, "memory"));
    assert!(rt; in_file_order(problem, cover.as_slice()));
    assert!(rt; sink.failures == 0);
    write_answer(problem, &Answer::Cover(cover), sink).is_ok()
}

/// The text of the cover c e / a d f / b g.
const TEXT: &[u8] = b"cover 3\nc e\na d f\nb g\n";

/// Whether that many bytes stand there, and a failure is counted where they aren't all.
fn is_left(sink: &Narrow, calls: usize) -> bool {
    sink.bytes.as_slice() == &TEXT[..calls.min(TEXT.len())]
        && sink.failures() == u64::from(calls < TEXT.len())
}

/// A write at each call but so many fails.
fn fails_after<R: Abort>(rt: &R, alloc: Global, problem: &Problem, calls: usize) {
    let mut sink = Narrow {
        bytes: Vec::new(alloc),
        calls_left: calls as u64,
        failures: 0,
    };
    let is_written = is_written(rt, alloc, (problem, &[0, 3, 4]), &mut sink);
    assert!(rt; is_written == (calls == TEXT.len()));
    assert!(rt; is_left(&sink, calls));
}

#[test]
fn each_write_fails_once(rt: HostRuntime) {
    let problem = problem_of(&rt, rt.alloc(), FILE);
    for calls in 0..TEXT.len() + 1 {
        fails_after(&rt, rt.alloc(), &problem, calls);
    }
}

#[test]
fn colours_are_written(rt: HostRuntime) {
    let problem = problem_of(&rt, rt.alloc(), COLOURED_FILE);
    let mut sink = Narrow {
        bytes: Vec::new(rt.alloc()),
        calls_left: 100,
        failures: 0,
    };
    assert!(rt; is_written(&rt, rt.alloc(), (&problem, &[0, 1, 3, 4, 5]), &mut sink));
    let text = b"cover 5\na x:A y\na x y:A\na x:AA y\na x y\nb\n";
    assert!(rt; sink.bytes.as_slice() == text.as_slice());
}
