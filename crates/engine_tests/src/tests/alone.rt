//! `alone` over texts in memory; the expected values were worked out by hand.

ghost use Rattle.std.specs.Prelude.{◌≤◌};

use super::long::{lines, names};
use super::run_output::{RunOutput, tell_plain};
use super::texts::{LETTERS, NO_COVER};
use dlx_reader::{CountedReader, CountedWriter};
use search_engines::alone_engine;
use std::alloc::Global;
use std::process::Abort;

/// Runs `alone` on a problem and returns what is written.
pub fn alone(alloc: Global, text: &str, fuel: u64) -> RunOutput
    requires { 1 ≤ fuel }
{
    let mut out = Vec::new(alloc);
    let mut errors = Vec::new(alloc);
    let mut source = CountedReader::new(text.as_bytes());
    let ended = alone_engine(alloc, fuel, &mut source, &mut CountedWriter::new(&mut out));
    let mut sink = CountedWriter::new(&mut errors);
    let status = tell_plain(&ended, &mut sink);
    RunOutput {
        out,
        errors,
        status,
    }
}

/// Each with the fuel, what is written to both outputs, and the status.
pub static ANSWERS: [(&str, u64, &str, &str, u8); 15] = [
    (LETTERS, u64::MAX, "cover 3\nc e\na d f\nb g\n", "", 0),
    (LETTERS, 6, "cover 3\nc e\na d f\nb g\n", "", 0),
    (LETTERS, 5, "no answer\n", "", 4),
    (NO_COVER, 3, "none\n", "", 1),
    (NO_COVER, 2, "no answer\n", "", 4),
    ("a b | x\na x\nb x\n", u64::MAX, "none\n", "", 1),
    (
        "a b | x\na x\nb x\nb\n",
        u64::MAX,
        "cover 2\na x\nb\n",
        "",
        0,
    ),
    ("a\n", 1, "none\n", "", 1),
    ("a |x\n", u64::MAX, "none\n", "", 1),
    ("a | x\nx\na", u64::MAX, "cover 1\na\n", "ignored 1\n", 0),
    ("a | x\nx\nx\n", u64::MAX, "none\n", "ignored 2\n", 1),
    ("a | x\nx\na", 1, "no answer\n", "ignored 1\n", 4),
    ("a\na\na\n", u64::MAX, "cover 1\na\n", "", 0),
    ("a b\r\na\r\nb\r\n", u64::MAX, "cover 2\na\nb\n", "", 0),
    ("a b\nb\na\n", u64::MAX, "cover 2\nb\na\n", "", 0),
];

/// Asserts that `alone` writes this of a problem.
fn writes<R: Abort>(
    rt: &R,
    alloc: Global,
    (text, fuel): (&str, u64),
    (out, errors, status): (&str, &str, u8),
) {
    assert!(rt;
        alone(alloc, text, fuel.max(1)).is(out, errors, status),
        "{text}"
    );
}

#[test]
fn answers(rt: HostRuntime) {
    for (text, fuel, out, errors, status) in ANSWERS.iter() {
        writes(&rt, rt.alloc(), (text, *fuel), (out, errors, *status));
    }
}

pub static REFUSALS: [(&str, &str); 10] = [
    ("", "refused: NoItems\n"),
    ("| note\n  | note", "refused: NoItems\n"),
    ("a | x | y\n", "refused: SecondBar line 1\n"),
    ("a ||x\n", "refused: IllegalByte line 1\n"),
    (
        "aaaaaaaabbbbbbbbccccccccdddddddd1\n",
        "refused: NameTooLong line 1\n",
    ),
    ("a\na | a\n", "refused: IllegalByte line 2\n"),
    ("a\na:red\n", "refused: ColourOnPrimary line 2\n"),
    ("a a\n", "refused: DuplicateItem line 1\n"),
    ("| note\n\na\nb\n", "refused: UnknownItem line 4\n"),
    ("a\na a\n", "refused: DuplicateInOption line 2\n"),
];

/// Asserts that `alone` refuses a text so.
fn is_refused<R: Abort>(rt: &R, alloc: Global, text: &str, errors: &str) {
    writes(rt, alloc, (text, u64::MAX), ("", errors, 3));
}

#[test]
fn refuses(rt: HostRuntime) {
    for (text, errors) in REFUSALS.iter() {
        is_refused(&rt, rt.alloc(), text, errors);
    }
}

#[test]
fn longest_name(rt: HostRuntime) {
    let text = "aaaaaaaabbbbbbbbccccccccdddddddd\n";
    writes(&rt, rt.alloc(), (text, u64::MAX), ("none\n", "", 1));
}

#[test]
fn limits_items(rt: HostRuntime) {
    let most = names(&rt, rt.alloc(), 1000);
    writes(
        &rt,
        rt.alloc(),
        (most.as_str(), u64::MAX),
        ("none\n", "", 1),
    );
    let more = names(&rt, rt.alloc(), 1001);
    is_refused(
        &rt,
        rt.alloc(),
        more.as_str(),
        "refused: TooManyItems line 1\n",
    );
}

#[test]
fn limits_options(rt: HostRuntime) {
    let text = lines(&rt, rt.alloc(), "a", 20002);
    let errors = "refused: TooManyOptions line 20002\n";
    is_refused(&rt, rt.alloc(), text.as_str(), errors);
}

#[test]
fn limits_nodes(rt: HostRuntime) {
    let line = names(&rt, rt.alloc(), 1000);
    let text = lines(&rt, rt.alloc(), line.as_str(), 202);
    let errors = "refused: TooManyNodes line 202\n";
    is_refused(&rt, rt.alloc(), text.as_str(), errors);
}

/// 20,000 equal options of ten items, as a text of more than a mebibyte.
#[test]
fn greatest_file(rt: HostRuntime) {
    let line = "item-0 item-1 item-2 item-3 item-4 item-5 item-6 item-7 item-8 item-9";
    let out = "cover 1\nitem-0 item-1 item-2 item-3 item-4 item-5 item-6 item-7 item-8 item-9\n";
    let text = lines(&rt, rt.alloc(), line, 20001);
    assert!(rt; text.len() > 1 << 20);
    writes(&rt, rt.alloc(), (text.as_str(), u64::MAX), (out, "", 0));
}
