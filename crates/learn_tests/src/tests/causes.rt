//! Why a problem has no exact cover, looked for under a watch; the reasons were worked out by hand.

use super::{LETTERS, NO_COVER};
use cover_reasons::ReasonWatch;
use dlx_reader::read_problem;
use reason_engine::{cause_lines, find_cause_until};
use std::alloc::Global;
use std::test::Fail;

/// The edges of a triangle in two colours, each of which each corner needs, and each edge two of them; three corners
/// can't have an edge each by twos.
const TRIANGLE: &str =
    "ab ac bc | ra rb rc sa sb sc\nab ra rb\nab sa sb\nac ra rc\nac sa sc\nbc rb rc\nbc sb sc\n";

/// Two lessons in a room that has one lamp: any two of their options clash by its colour.
const LAMP: &str = "maths art | lamp\nmaths lamp:red\nmaths lamp:blue\nart lamp:green\n";

/// A watch that ends the search for a reason at its first look, or never.
#[derive(Drop)]
struct Ending {
    ends: bool,
}

impl ReasonWatch for Ending {
    fn look(&mut self) -> bool {
        self.ends
    }
}

/// The lines of why there is no cover, if that is found; nothing where it isn't.
fn lines(alloc: Global, text: &str, ends: bool) -> Result<Vec<u8>, Fail> {
    let read = read_problem(alloc, text.as_bytes())?;
    match find_cause_until(alloc, &read.problem, &mut Ending { ends })? {
        Some(cause) => Ok(cause_lines(alloc, &read.problem, &cause)?),
        None => Ok(Vec::new(alloc)),
    }
}

#[test]
fn a_cause_is_found_and_written(rt: HostRuntime) -> Result<(), Fail> {
    let room = b"too little room\nneed 1 a\nneed 1 b\nneed 1 e\nroom 1 c\nroom 1 d\n".as_slice();
    assert!(rt; lines(rt.alloc(), NO_COVER, false)?.as_slice() == room);
    assert!(rt; lines(rt.alloc(), LETTERS, false)?.is_empty());
    let promoted = lines(rt.alloc(), TRIANGLE, false)?;
    assert!(rt;
        promoted
            .as_slice()
            .starts_with(b"just enough room\nneed 2 ab\n")
    );
    let cases = b"options of art\noption 2\ntoo little room\nneed 1 maths\n".as_slice();
    assert!(rt; lines(rt.alloc(), LAMP, false)?.as_slice() == cases);
    Ok(())
}

#[test]
fn a_cause_is_not_looked_for_once_the_watch_ends_that(rt: HostRuntime) -> Result<(), Fail> {
    for text in [NO_COVER, TRIANGLE, LAMP] {
        assert!(rt; lines(rt.alloc(), text, true)?.is_empty());
    }
    Ok(())
}
