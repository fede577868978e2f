//! Texts at the limits, and one above.

use std::alloc::Global;
use std::process::Abort;

/// So many names.
pub fn names<R: Abort>(rt: &R, alloc: Global, count: u16) -> String {
    let mut text = String::new(alloc);
    for item in 0..count {
        write!(text, "n{item} ").expect(rt, "memory");
    }
    text
}

/// A line so many times, the first as the item line.
pub fn lines<R: Abort>(rt: &R, alloc: Global, line: &str, count: u16) -> String {
    let mut text = String::new(alloc);
    for _ in 0..count {
        text.push_str(line).expect(rt, "memory");
        text.push('\n').expect(rt, "memory");
    }
    text
}
