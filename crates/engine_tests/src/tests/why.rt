//! `why` over texts in memory; the reasons were worked out by hand.
//!
//! Of the bugs of `reason_engine` that are kept outside the gate, `why_writes_reasons` finds `no_reason_is_looked_for`.

use super::run_output::{NAMES, RunOutput};
use super::texts::{LETTERS, NO_COVER};
use dlx_reader::{CountedReader, CountedWriter};
use reason_engine::why_engine;
use search_engines::tell_end;
use std::alloc::Global;

/// Runs `why` on a problem and returns what is written.
fn why(alloc: Global, text: &str) -> RunOutput {
    let mut out = Vec::new(alloc);
    let mut errors = Vec::new(alloc);
    let mut source = CountedReader::new(text.as_bytes());
    let ended = why_engine(alloc, &mut source, &mut CountedWriter::new(&mut out));
    let status = tell_end(&ended, NAMES, &mut CountedWriter::new(&mut errors));
    RunOutput {
        out,
        errors,
        status,
    }
}

/// Each with what is written to both outputs, and the status.
static REASONS: [(&str, &str, &str, u8); 7] = [
    (LETTERS, "no reason found\n", "", 4),
    (
        NO_COVER,
        "none\ntoo little room\nneed 1 a\nneed 1 b\nneed 1 e\nroom 1 c\nroom 1 d\n",
        "",
        1,
    ),
    // a room has a lamp of one colour; a would take two cases, b takes one
    (
        "a b | x\na x:1\na x:2\nb x:3\n",
        "none\noptions of b\noption 2\ntoo little room\nneed 1 a\n",
        "",
        1,
    ),
    (
        "a b | x\na\nx\n",
        "none\ntoo little room\nneed 1 b\n",
        "ignored 1\n",
        1,
    ),
    (
        "a b c\na b\nb c\n",
        "none\ntoo little room\nneed 1 a\nneed 1 c\nroom 1 b\n",
        "",
        1,
    ),
    (
        "a b c\na b\nb c\na c\n",
        "none\nweights modulo 2\nweigh 1 a\nweigh 1 b\nweigh 1 c\n",
        "",
        1,
    ),
    ("a ||x\n", "", "refused: IllegalByte line 1\n", 3),
];

#[test]
fn why_writes_reasons(rt: HostRuntime) {
    for (text, out, errors, status) in REASONS.iter() {
        assert!(rt; why(rt.alloc(), text).is(out, errors, *status), "{text}");
    }
}
