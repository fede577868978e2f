//! What is written of a text beside its fault: the name that no item has.

use super::run_output::{NAMES, RunOutput};
use dlx_reader::{CountedReader, CountedWriter};
use search_engines::{LineStyle, ProgressLog, SearchLimits, alone_within, tell_end};
use std::alloc::{AllocError, Global};
use std::test::Fail;
use std::time::Clock;

/// Runs `alone` on a text, and returns what is written, with the unknown name.
fn alone<C: Clock>(clock: &C, alloc: Global, text: &[u8]) -> RunOutput {
    let mut out = Vec::new(alloc);
    let mut errors = Vec::new(alloc);
    let mut source = CountedReader::new(text);
    let mut sink = CountedWriter::new(&mut out);
    let mut error_sink = CountedWriter::new(&mut errors);
    let limits = SearchLimits::new(None, None);
    let log = ProgressLog::new(&mut error_sink, LineStyle::Silent);
    let ended = alone_within(clock, alloc, &limits, &mut source, &mut sink, log);
    let status = tell_end(&ended, NAMES, &mut error_sink);
    RunOutput {
        out,
        errors,
        status,
    }
}

/// Texts, each with what is written to both outputs, and the status.
static OUTPUTS: [(&str, &str, &str, u8); 6] = [
    (
        "a\nb\n",
        "",
        "refused: UnknownItem line 2\nno item is named b\n",
        3,
    ),
    (
        "a | x\n\na x\na é:red\n",
        "",
        "refused: UnknownItem line 4\nno item is named é\n",
        3,
    ),
    // the first fault is another one
    ("a\na a\nb\n", "", "refused: DuplicateInOption line 2\n", 3),
    ("", "", "refused: NoItems\n", 3),
    // there is none
    ("a\na\n", "cover 1\na\n", "", 0),
    ("a b\na\n", "none\n", "", 1),
];

#[test]
fn names_are_told(rt: HostRuntime) {
    for (text, out, errors, status) in OUTPUTS.iter() {
        assert!(rt;
            alone(&rt, rt.alloc(), text.as_bytes()).is(out, errors, *status),
            "{text:?}"
        );
    }
}

/// A text of one item and one unknown name, behind a comment of so many bytes.
fn behind(alloc: Global, bytes: usize) -> Result<Vec<u8>, AllocError> {
    let mut text = vec![in alloc; b'|'; bytes]?;
    text.extend_from_slice(b"\na\nb\n")?;
    Ok(text)
}

#[test]
fn names_are_told_of_texts_of_any_length(rt: HostRuntime) -> Result<(), Fail> {
    let alloc = rt.alloc();
    let told = "refused: UnknownItem line 3\nno item is named b\n";
    for bytes in [20_000, 1_000_000, 1_100_000, 2_000_000] {
        let text = behind(alloc, bytes)?;
        assert!(rt; alone(&rt, alloc, &text).is("", told, 3), "{bytes} bytes");
    }
    Ok(())
}
