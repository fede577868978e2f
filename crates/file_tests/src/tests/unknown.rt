//! The name that no item has, in texts that are refused for it, worked out by hand.

use dlx_reader::{ReadFault, TextFault, read_problem, read_text};
use std::alloc::{AllocError, Global};
use std::test::Fail;

/// A text, and the line and the name by which it is refused, if no item has a name that stands in it.
static NAMES: [(&str, Option<(usize, &str)>); 22] = [
    ("a\nb\n", Some((2, "b"))),
    ("a\na b", Some((2, "b"))),
    ("a b\na c d\n", Some((2, "c"))),
    ("ab\na b\n", Some((2, "a"))),
    ("a | x\nX\n", Some((2, "X"))),
    ("a | x\na y:red x\n", Some((2, "y"))),
    ("a\r\nb\r\n", Some((2, "b"))),
    ("| note\n\na\na\n| b\nb c\n", Some((6, "b"))),
    ("a\nb\nc\n", Some((2, "b"))),
    (
        "a\na\n0123456789abcdef0123456789ABCDEF\n",
        Some((3, "0123456789abcdef0123456789ABCDEF")),
    ),
    // an option that is ignored, and one whose colour is its item's name
    ("a | x\nx\nx y\n", Some((3, "y"))),
    ("a | x\na y:x\n", Some((2, "y"))),
    // each name of the line is an item's
    ("a | x\na x:red\n", None),
    // the line is blank or a comment
    ("a\n\na\n", None),
    ("a\n| b\n", None),
    // there are no items
    ("", None),
    ("a a\nb\n", None),
    // another fault comes first, in the line or in the word
    ("a\na a\nb\n", None),
    ("a\na a b\n", None),
    ("a\nb|\n", None),
    ("a\nb:\n", None),
    ("a\n0123456789abcdef0123456789ABCDEF0\n", None),
];

/// The line and the name by which a text is refused, if no item has a name that stands in it.
fn unknown(alloc: Global, text: &[u8]) -> Option<(usize, Vec<u8>)> {
    match read_text(alloc, text) {
        Err(TextFault::UnknownItem(unknown)) => {
            let name = Vec::from_slice(alloc, unknown.name.as_slice()).ok()?;
            Some((unknown.line, name))
        }
        Ok(_) | Err(TextFault::Other(_)) => None,
    }
}

/// Whether it is this line and this name, or neither.
fn is_unknown(found: &Option<(usize, Vec<u8>)>, expected: Option<(usize, &str)>) -> bool {
    match (found, expected) {
        (Some((line, name)), Some((at, text))) => *line == at && name.as_slice() == text.as_bytes(),
        (None, None) => true,
        (Some(_), None) | (None, Some(_)) => false,
    }
}

#[test]
fn names_that_no_item_has(rt: HostRuntime) {
    for (text, expected) in NAMES.iter() {
        let found = unknown(rt.alloc(), text.as_bytes());
        assert!(rt; is_unknown(&found, *expected), "{text:?}");
    }
}

/// Whether a text is refused by an unknown item of this line.
fn is_refused(alloc: Global, text: &str, line: usize) -> bool {
    match read_problem(alloc, text.as_bytes()) {
        Err(fault) => fault == ReadFault::UnknownItem(line),
        Ok(_) => false,
    }
}

#[test]
fn the_fault_is_the_same_without_the_name(rt: HostRuntime) {
    for (text, expected) in NAMES.iter() {
        if let Some((line, _name)) = expected {
            assert!(rt; is_refused(rt.alloc(), text, *line), "{text:?}");
        }
    }
}

/// A text of one item and one unknown name, behind a comment of so many bytes.
fn behind(alloc: Global, bytes: usize) -> Result<Vec<u8>, AllocError> {
    let mut text = vec![in alloc; b'|'; bytes]?;
    text.extend_from_slice(b"\na\nb\n")?;
    Ok(text)
}

#[test]
fn texts_may_be_long(rt: HostRuntime) -> Result<(), Fail> {
    for bytes in [1_000_000, 2_000_000] {
        let text = behind(rt.alloc(), bytes)?;
        let found = unknown(rt.alloc(), &text);
        assert!(rt; is_unknown(&found, Some((3, "b"))), "{bytes} bytes");
    }
    Ok(())
}
