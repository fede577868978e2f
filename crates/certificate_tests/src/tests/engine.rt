//! What the engine of certificates writes.

use super::PAIRS;
use certificate_engine::certificate_engine;
use dlx_reader::{CountedReader, CountedWriter};
use search_engines::{InputNames, tell_end};
use std::alloc::Global;

/// What is written to both outputs, and the status.
#[derive(Drop)]
struct RunOutput {
    out: Vec<u8>,
    errors: Vec<u8>,
    status: u8,
}

impl RunOutput {
    /// Whether it is this.
    fn is(&self, out: &str, errors: &str, status: u8) -> bool {
        self.out.as_slice() == out.as_bytes()
            && self.errors.as_slice() == errors.as_bytes()
            && self.status == status
    }
}

/// The names of the files that the engine reads.
const NAMES: InputNames<'static> = InputNames {
    file: "p.dlx",
    answer: Some("p.cert"),
};

/// Tests a certificate of a problem and returns what is written.
fn check(alloc: Global, problem: &str, certificate: &str) -> RunOutput {
    let mut out = Vec::new(alloc);
    let mut errors = Vec::new(alloc);
    let mut file = CountedReader::new(problem.as_bytes());
    let mut sink = CountedWriter::new(&mut out);
    let ended = certificate_engine(alloc, &mut file, certificate.as_bytes(), &mut sink);
    let status = tell_end(&ended, NAMES, &mut CountedWriter::new(&mut errors));
    RunOutput {
        out,
        errors,
        status,
    }
}

/// Each with what is written to both outputs, and the status.
static WRITTEN: [(&str, &str, &str, &str, u8); 8] = [
    (PAIRS, "none\ncases 3 3\n0\n2\n1\n", "right\n", "", 0),
    (
        PAIRS,
        "none\nclauses 3 3\n-0 0:1 0:2 2\n3 0 1 1:2\n",
        "right\n",
        "",
        0,
    ),
    (
        "a b | x\na\nx\n",
        "none\ncases 3 1\n1\n",
        "right\n",
        "ignored 1\n",
        0,
    ),
    (
        PAIRS,
        "none\ncases 3 3\n0\n2\n",
        "wrong: line 5: expected the number of an item, or = or * and a number\n",
        "",
        1,
    ),
    (
        PAIRS,
        "none\ncases 3 3\n0\n2\n1\n1\n",
        "wrong: line 6: expected the end\n",
        "",
        1,
    ),
    (
        PAIRS,
        "none\nclauses 3 3\n-0 0:1 2\n",
        "wrong: line 3: expected a clause that follows along its hints\n",
        "",
        1,
    ),
    (
        "a b | x\na\nx\n",
        "none\ncases 3 3\n",
        "wrong: line 2: expected 'cases' or 'clauses' and the numbers of items and options of the file\n",
        "ignored 1\n",
        1,
    ),
    ("a ||x\n", "none\n", "", "refused: IllegalByte line 1\n", 3),
];

#[test]
fn certificate_engine_writes_what_a_test_comes_to(rt: HostRuntime) {
    for (problem, certificate, out, errors, status) in WRITTEN.iter() {
        let written = check(rt.alloc(), problem, certificate);
        assert!(rt; written.is(out, errors, *status), "{certificate}");
    }
}
