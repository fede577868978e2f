//! What is written of an answer and of what an audit found, which no run of sites that keep to the protocol comes to.

use audit::{Clean, Unclean};
use cover_engines::{AuditFinding, write_audited};
use cover_problem::Answer;
use dlx_reader::{CountedWriter, read_problem};
use search_engines::EngineFault;
use spawn_frame::Site;
use std::alloc::Global;
use std::test::Fail;

/// What an audit found, whether it was published that there is no cover, what is written, and the status.
type Row = (AuditFinding, bool, &'static str, u8);

const REGISTRY: Site = Site {
    node: 0,
    incarnation: 1,
};

/// A late incarnation of a node.
const NODE: Site = Site {
    node: 16,
    incarnation: 4_294_967_295,
};

static ROWS: [Row; 5] = [
    (Ok(Clean), false, "no answer\naudit clean\n", 4),
    (Ok(Clean), true, "none\naudit clean\n", 1),
    (
        Err(Unclean::MissingBook(NODE)),
        false,
        "no answer\naudit unclean: MissingBook node 16 incarnation 4294967295\n",
        6,
    ),
    (
        Err(Unclean::MissingBook(REGISTRY)),
        true,
        "none\naudit unclean: MissingBook node 0 incarnation 1\n",
        6,
    ),
    (
        Err(Unclean::NeverSent(REGISTRY, 1_000_000)),
        true,
        "none\naudit unclean: NeverSent node 0 incarnation 1 place 1000000\n",
        6,
    ),
];

/// Whether the row's text is written, with its status.
fn is_written(alloc: Global, (found, is_none, text, status): &Row) -> Result<bool, Fail> {
    let read = read_problem(alloc, b"a\n")?;
    let mut out = Vec::new(alloc);
    let mut sink = CountedWriter::new(&mut out);
    let published = if *is_none {
        Some(Answer::NoCover)
    } else {
        None
    };
    let came = write_audited(alloc, &read.problem, published.as_ref(), *found, &mut sink)?;
    Ok(came == *status && out.as_slice() == text.as_bytes())
}

#[test]
fn a_finding_stands_behind_the_answer(rt: HostRuntime) -> Result<(), Fail> {
    for row in ROWS.iter() {
        let is_written = is_written(rt.alloc(), row)?;
        assert!(rt; is_written, "{}", row.2);
    }
    Ok(())
}

/// Whether an audit that ran out of memory leaves nothing written.
fn is_silent(alloc: Global) -> Result<bool, Fail> {
    let read = read_problem(alloc, b"a\n")?;
    let mut out = Vec::new(alloc);
    let mut sink = CountedWriter::new(&mut out);
    let found = Err(Unclean::Memory);
    let came = write_audited(alloc, &read.problem, None, found, &mut sink);
    Ok(matches!(came, Err(EngineFault::Memory)) && out.is_empty())
}

#[test]
fn an_audit_without_memory_writes_nothing(rt: HostRuntime) -> Result<(), Fail> {
    let is_silent = is_silent(rt.alloc())?;
    assert!(rt; is_silent);
    Ok(())
}
