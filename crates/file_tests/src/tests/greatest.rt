//! The greatest problem in range as a text of more than a mebibyte, and answers of 20,000 lines.

use super::texts::problem_of;
use cover_problem::{Answer, Numbers, Problem, in_file_order};
use dlx_reader::{CountedWriter, read_answer, write_answer};
use std::alloc::Global;
use std::io;
use std::io::Write;
use std::process::Abort;

/// The greatest number of options.
const OPTIONS: u16 = 20000;

/// Ten names, as an item line and as an option.
const LINE: &str = "item-0 item-1 item-2 item-3 item-4 item-5 item-6 item-7 item-8 item-9\n";

/// 20,000 options of ten items each.
fn greatest<R: Abort>(rt: &R, alloc: Global) -> String {
    let mut text = String::new(alloc);
    for _ in 0..OPTIONS + 1 {
        text.push_str(LINE).expect(rt, "memory");
    }
    text
}

/// All options, in file order.
fn all_options<R: Abort>(rt: &R, alloc: Global) -> Numbers {
    let mut options = Vec::new(alloc);
    for option in 0..OPTIONS {
        options.push(option).expect(rt, "memory");
    }
    Numbers::from_vec(options)
}

/// A writer that keeps its bytes, and counts its calls.
#[derive(Drop)]
struct Calls {
    bytes: Vec<u8>,
    calls: u32,
}

impl Write for Calls {
    fn write(&mut self, buf: &[u8]) -> io::Result<usize> {
        self.calls = self.calls.saturating_add(1);
        self.bytes.extend_from_slice(buf)?;
        Ok(buf.len())
    }

    fn flush(&mut self) -> io::Result<()> {
        Ok(())
    }
}

/// What is written of the cover of all options, if all of it is.
fn written<R: Abort>(rt: &R, alloc: Global, problem: &Problem) -> Calls {
    let mut calls = Calls {
        bytes: Vec::new(alloc),
        calls: 0,
    };
    let options = all_options(rt, alloc);
    assert!(rt; in_file_order(problem, options.as_slice()));
    let mut sink = CountedWriter::new(&mut calls);
    let ended = write_answer(problem, &Answer::Cover(options), &mut sink);
    assert!(rt; ended.is_ok());
    calls
}

/// Whether a text is read as the cover of all options in file order.
fn reads_all(alloc: Global, problem: &Problem, text: &[u8]) -> bool {
    match &read_answer(alloc, text, problem) {
        Ok(Answer::Cover(options)) => options.as_slice().iter().copied().eq(0..OPTIONS),
        _ => false,
    }
}

/// Each write but the last takes what waited where the next name had no room: more than 4,096 bytes without a longest
/// name.
#[test]
fn a_cover_of_all_options_is_written_by_few_writes_and_read(rt: HostRuntime) {
    let text = greatest(&rt, rt.alloc());
    assert!(rt; text.len() > 1 << 20);
    let problem = problem_of(&rt, rt.alloc(), text.as_str());
    assert!(rt; problem.options() == usize::from(OPTIONS));
    let written = written(&rt, rt.alloc(), &problem);
    assert!(rt; written.bytes.len() > 1 << 20);
    assert!(rt; written.calls as usize <= written.bytes.len() / 4064 + 1);
    assert!(rt; reads_all(rt.alloc(), &problem, &written.bytes));
}

/// The option of this number: each has two items in common, and each hundred a third.
fn push_option<R: Abort>(rt: &R, text: &mut String, option: u16) {
    let hundred = option / 100;
    let one = option % 100;
    write!(text, "a b x{hundred} y{one}\n").expect(rt, "memory");
}

/// The items that these options have.
fn item_line<R: Abort>(rt: &R, alloc: Global) -> String {
    let mut text = String::from_str(alloc, "a b").expect(rt, "memory");
    for hundred in 0..200u16 {
        write!(text, " x{hundred}").expect(rt, "memory");
    }
    for one in 0..100u16 {
        write!(text, " y{one}").expect(rt, "memory");
    }
    text.push('\n').expect(rt, "memory");
    text
}

/// Whether a text is read as the cover of all options, the last first.
fn reads_reversed(alloc: Global, problem: &Problem, text: &str) -> bool {
    match &read_answer(alloc, text.as_bytes(), problem) {
        Ok(Answer::Cover(options)) => options.as_slice().iter().copied().eq((0..OPTIONS).rev()),
        _ => false,
    }
}

#[test]
fn an_answer_in_reverse_order_with_common_beginnings_is_read(rt: HostRuntime) {
    let mut file = item_line(&rt, rt.alloc());
    for option in 0..OPTIONS {
        push_option(&rt, &mut file, option);
    }
    let mut text = String::from_str(rt.alloc(), "cover 20000\n").expect(&rt, "memory");
    for option in (0..OPTIONS).rev() {
        push_option(&rt, &mut text, option);
    }
    let problem = problem_of(&rt, rt.alloc(), file.as_str());
    assert!(rt; reads_reversed(rt.alloc(), &problem, text.as_str()));
}
