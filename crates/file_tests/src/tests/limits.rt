//! Texts at the limits, and one above.

use dlx_reader::ReadFault::{
    DuplicateItem, IllegalByte, TooManyColours, TooManyItems, TooManyNodes, TooManyOptions,
};
use dlx_reader::{ReadFault, read_problem};
use std::alloc::Global;
use std::process::Abort;

/// So many names.
fn names<R: Abort>(rt: &R, alloc: Global, count: u16) -> String {
    let mut text = String::new(alloc);
    for item in 0..count {
        write!(text, "n{item} ").expect(rt, "memory");
    }
    text
}

/// So many times a line.
fn repeat<R: Abort>(rt: &R, text: &mut String, line: &str, count: u16) {
    for _ in 0..count {
        text.push_str(line).expect(rt, "memory");
    }
}

/// A line so many times, the first as the item line.
fn lines<R: Abort>(rt: &R, alloc: Global, line: &str, count: u16) -> String {
    let mut text = String::new(alloc);
    for _ in 0..count {
        text.push_str(line).expect(rt, "memory");
        text.push('\n').expect(rt, "memory");
    }
    text
}

/// How many items the problem of a text has, or its fault.
fn items_of(alloc: Global, text: &str) -> Result<usize, ReadFault> {
    match read_problem(alloc, text.as_bytes()) {
        Ok(read) => Ok(read.problem.items()),
        Err(fault) => Err(fault),
    }
}

/// What stands behind 1,000 names; how many items that makes, or the fault.
static ITEM_LINES: [(&str, Result<usize, ReadFault>); 9] = [
    ("", Ok(1000)),
    ("|", Ok(1000)),
    ("m", Err(TooManyItems(1))),
    ("|m", Err(TooManyItems(1))),
    ("| m", Err(TooManyItems(1))),
    ("m n0", Err(TooManyItems(1))),
    ("n0 m", Err(DuplicateItem(1))),
    ("|n999", Err(DuplicateItem(1))),
    ("m:", Err(IllegalByte(1))),
];

/// 1,000 names with this behind them are read so.
fn reads<R: Abort>(rt: &R, alloc: Global, more: &str, read: Result<usize, ReadFault>) {
    let mut text = names(rt, alloc, 1000);
    text.push_str(more).expect(rt, "memory");
    assert!(rt; items_of(alloc, text.as_str()) == read, "{more:?}");
}

#[test]
fn items(rt: HostRuntime) {
    for (more, read) in ITEM_LINES.iter() {
        reads(&rt, rt.alloc(), more, *read);
    }
}

/// How many options of a text are kept and how many ignored, or its fault.
fn options_of(alloc: Global, text: &str) -> Result<(usize, usize), ReadFault> {
    match read_problem(alloc, text.as_bytes()) {
        Ok(read) => Ok((read.problem.options(), read.ignored)),
        Err(fault) => Err(fault),
    }
}

/// A text has so many options, kept and ignored, and with a further line this fault.
fn ends_with<R: Abort>(
    rt: &R,
    alloc: Global,
    text: &mut String,
    counts: (usize, usize),
    (more, fault): (&str, ReadFault),
) {
    assert!(rt; options_of(alloc, text.as_str()) == Ok(counts));
    text.push_str(more).expect(rt, "memory");
    assert!(rt; options_of(alloc, text.as_str()) == Err(fault));
}

#[test]
fn options(rt: HostRuntime) {
    let mut text = String::from_str(rt.alloc(), "a | x\n").expect(&rt, "memory");
    repeat(&rt, &mut text, "a\n", 20000);
    repeat(&rt, &mut text, "x\n", 3);
    let last = ("\na x", TooManyOptions(20006));
    ends_with(&rt, rt.alloc(), &mut text, (20000, 3), last);
}

#[test]
fn occurrences(rt: HostRuntime) {
    let line = names(&rt, rt.alloc(), 1000);
    let mut text = lines(&rt, rt.alloc(), line.as_str(), 201);
    let last = ("n0\n", TooManyNodes(202));
    ends_with(&rt, rt.alloc(), &mut text, (200, 0), last);
}

/// Both limits at one option: that of the options counts.
#[test]
fn both(rt: HostRuntime) {
    let line = names(&rt, rt.alloc(), 10);
    let mut text = lines(&rt, rt.alloc(), line.as_str(), 20001);
    let last = ("n0\n", TooManyOptions(20002));
    ends_with(&rt, rt.alloc(), &mut text, (20000, 0), last);
}

/// A line of an option with a hundred colours, each of which stands in this line alone.
fn coloured_line<R: Abort>(rt: &R, text: &mut String, line: u16) {
    text.push_str("a").expect(rt, "memory");
    for item in 0..100u16 {
        write!(text, " n{item}:c{line}_{item}").expect(rt, "memory");
    }
    text.push('\n').expect(rt, "memory");
}

/// Colours of an option that is ignored don't count.
#[test]
fn colours(rt: HostRuntime) {
    let mut text = String::from_str(rt.alloc(), "a | ").expect(&rt, "memory");
    text.push_str(names(&rt, rt.alloc(), 100).as_str())
        .expect(&rt, "memory");
    text.push('\n').expect(&rt, "memory");
    for line in 0..100 {
        coloured_line(&rt, &mut text, line);
    }
    text.push_str("n0:more\na n0:c99_99\n")
        .expect(&rt, "memory");
    let last = ("a n0:more\n", TooManyColours(104));
    ends_with(&rt, rt.alloc(), &mut text, (101, 1), last);
}
